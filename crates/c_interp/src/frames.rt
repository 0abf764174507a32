//! Activations that wait.

ghost use Rattle.std.specs.Prelude.{◌≤◌, ◌+◌, IfSome, IfNone};
ghost use Rattle.c_tasks.specs.Weights.{tasks_weight};
ghost use Rattle.c_interp.specs.Frames.{frames_weight, HasReturned, HasNoCall};

use c_places::Saved;
use c_tasks::Work;

/// Why an activation waits.
#[derive(Drop)]
pub enum Wait {
    /// A function was called: its number, whether it has a result, and what the call keeps of its caller.
    Call(u32, bool, Saved),
    /// An initializer is evaluated.
    Initializer,
}

/// An activation that waits.
#[derive(Drop)]
pub struct Frame<'a> {
    pub work: Work<'a>,
    /// How many further calls there may be in one another.
    pub depth: u32,
    pub wait: Wait,
}

/// An activation whose call has returned.
#[derive(Drop)]
pub struct Caller<'a> {
    pub work: Work<'a>,
    pub depth: u32,
    pub callee: u32,
    pub saved: Saved,
}

/// The activation whose call is the last one. The initializers that wait in that call are dropped.
pub fn last_caller<'a>(frames: &mut Vec<Frame<'a>>) -> Option<Caller<'a>>
    ensures some { IfSome result (λ caller. HasReturned frames.old.items frames.new.items caller) }
    ensures none { IfNone result (HasNoCall frames.old.items) }
    ensures lighter { IfSome result (λ caller. frames_weight frames.new.items + 2 + tasks_weight caller.work.tasks.items ≤ frames_weight frames.old.items) }
{
    'frames: while let Some(Frame { work, depth, wait }) = frames.pop() {
        match wait {
            Wait::Call(callee, _, saved) => {
                return Some(Caller {
                    work,
                    depth,
                    callee,
                    saved,
                });
            }
            Wait::Initializer => {}
        }
    }
    None
}
