//! The next task.

ghost use Rattle.std.specs.Prelude.{◌≡◌, ◌+◌, [], ℕ, IfSome, IfNone};
ghost use Rattle.rvt_tree.specs.declared.programs.Program.{Program};
ghost use Rattle.c_tasks.specs.Operands.{operands};
ghost use Rattle.c_tasks.specs.Tasks.{TasksBecome, step};
ghost use Rattle.c_tasks.specs.Weights.{task_weight, tasks_weight};

use c_tasks::{Task, Work};

/// The next task, which goes from the work.
pub fn take_task<'a>(work: &mut Work<'a>) -> Option<Task<'a>>
    ensures next { IfSome result (λ task. TasksBecome (λ program d. step program d task) work.new.tasks.items work.old.tasks.items) }
    ensures weight { IfSome result (λ task. tasks_weight work.old.tasks.items ≡ tasks_weight work.new.tasks.items + task_weight task) }
    ensures none { IfNone result (work.old.tasks.items ≡ []) }
    ensures empty { IfNone result (work.new.tasks.items ≡ []) }
    ensures operands { operands work.new ≡ operands work.old }
{
    work.tasks.pop()
}
