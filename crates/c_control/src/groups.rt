//! The groups of a `switch` (C 6.8.4.2).

ghost use Rattle.std.specs.Prelude.{◌≡◌, ◌+◌, ◌≤◌, OnOk, option_map};
ghost use Rattle.rvt_tree.specs.Syntax.{switch};
ghost use Rattle.rvt_tree.specs.Views.{expr_view, labels_view, stmts_view, groups_view};
ghost use Rattle.c_meaning.specs.Statements.{any, is_case, is_default};
ghost use Rattle.c_tasks.specs.Tasks.{running_statement, Becomes};
ghost use Rattle.c_tasks.specs.Weights.{tasks_weight, statement_weight, block_weight, groups_weight};
ghost use Rattle.c_control.specs.Groups.{is_label, labelled_group, group_for, in_group, selecting_by, leaving_switch};

use c_tasks::{Manner, Task, Work, put};
use rvt_num::Num;
use rvt_tree::{Expr, Groups, Label, Labels, Stmts};
use std::alloc::AllocError;

/// A `switch` is to come next.
pub fn begin_switch<'a>(
    work: &mut Work<'a>,
    e: &'a Expr,
    groups: &'a Box<Groups>,
) -> Result<(), AllocError>
    ensures next { OnOk result (Becomes (λ program d. running_statement program d (switch (expr_view e.now) (groups_view groups.now.value))) work.old work.new) }
    ensures weight { OnOk result (tasks_weight work.new.tasks.items ≤ tasks_weight work.old.tasks.items + statement_weight (switch (expr_view e.now) (groups_view groups.now.value))) }
{
    work.test_switch(e, groups)
}

/// The group with a `case` of a number, or else the default one, is to come next.
pub fn select<'a>(work: &mut Work<'a>, number: Num, groups: &'a Groups) -> Result<(), AllocError>
    ensures next { OnOk result (Becomes (λ program d. selecting_by program d number (groups_view groups.now)) work.old work.new) }
    ensures weight { OnOk result (tasks_weight work.new.tasks.items ≤ tasks_weight work.old.tasks.items + 2 + groups_weight (groups_view groups.now)) }
{
    match group_of(number, groups) {
        Some(body) => enter_group(work, body),
        None => {
            work.end(Manner::Normally);
            Ok(())
        }
    }
}

/// A group is to come next, and the end of the `switch`.
fn enter_group<'a>(work: &mut Work<'a>, body: &'a Stmts) -> Result<(), AllocError>
    ensures next { OnOk result (Becomes (λ program d. in_group program d (stmts_view body.now)) work.old work.new) }
    ensures weight { OnOk result (tasks_weight work.new.tasks.items ≤ tasks_weight work.old.tasks.items + 2 + block_weight (stmts_view body.now)) }
{
    put(&mut work.tasks, Task::LeaveSwitch)?;
    put(&mut work.tasks, Task::Leave(body))?;
    work.block(body)
}

/// A `switch` takes the `break` of its groups.
pub fn leave_switch(work: &mut Work<'_>)
    ensures next { Becomes (λ program d. leaving_switch program d) work.old work.new }
    ensures tasks { work.new.tasks.items ≡ work.old.tasks.items }
{
    match work.manner {
        Manner::Broke => work.end(Manner::Normally),
        Manner::Normally => {}
        Manner::Continued => {}
    }
}

/// The group with a `case` of this number, or else the default one.
fn group_of(number: Num, groups: &Groups) -> Option<&Stmts>
    ensures { option_map (λ body. stmts_view body.now) result ≡ group_for number (groups_view groups.now) }
{
    match labelled_group(&Label::Case(number), groups) {
        Some(body) => Some(body),
        None => labelled_group(&Label::Default, groups),
    }
}

/// The first group with a label.
fn labelled_group<'a>(wanted: &Label, groups: &'a Groups) -> Option<&'a Stmts>
    ensures { option_map (λ body. stmts_view body.now) result ≡ labelled_group wanted.now (groups_view groups.now) }
{
    let mut groups = groups;
    while let Groups::More(labels, body, rest) = groups {
        if has_label(wanted, labels) {
            return Some(body);
        }
        groups = rest;
    }
    None
}

fn has_label(wanted: &Label, labels: &Labels) -> bool
    ensures { result ≡ any (is_label wanted.now) (labels_view labels.now) }
{
    let mut labels = labels;
    while let Labels::More(label, rest) = labels {
        if is_label(*wanted, *label) {
            return true;
        }
        labels = rest;
    }
    false
}

fn is_label(wanted: Label, label: Label) -> bool
    ensures { result ≡ is_label wanted label }
{
    match wanted {
        Label::Case(number) => is_case(number, label),
        Label::Default => is_default(label),
    }
}

fn is_case(number: Num, label: Label) -> bool
    ensures { result ≡ is_case number label }
{
    match label {
        Label::Case(other) => number.value() == other.value(),
        Label::Default => false,
    }
}

fn is_default(label: Label) -> bool
    ensures { result ≡ is_default label }
{
    match label {
        Label::Case(_) => false,
        Label::Default => true,
    }
}
