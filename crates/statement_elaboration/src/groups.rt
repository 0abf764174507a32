//! How the groups of a `switch` end.

ghost use Rattle.std.specs.Prelude.{◌≡◌, map};
ghost use Rattle.c_syntax.specs.Views.{label_view, stmt_view, part_view, parts_view, groups_view};
ghost use Rattle.file_typing.specs.Statements.{ends_with_jump, is_jump_item, is_jump, place_of_label, first_label, next_label, group_ends};
ghost use Rattle.typing_base.specs.Follows.{Gives};

use c_syntax::{Groups, Label, Part, Parts, Stmt};
use rvt_tree::Place;
use typing_base::{Fault, not_in_profile};

/// The last part is a jump, or a block whose last part, so read, is one.
#[cycle(ends_with_jump)]
fn ends_with_jump(parts: &Parts) -> bool
    ensures { result ≡ ends_with_jump (parts_view parts.now) }
{
    let mut rest = parts;
    'parts: while let Parts::More(part, others) = rest {
        match &**others {
            Parts::End => return is_jump_item(part),
            Parts::More(_, _) => rest = others,
        }
    }
    false
}

#[cycle(ends_with_jump)]
fn is_jump_item(part: &Part) -> bool
    ensures { result ≡ is_jump_item (part_view part.now) }
{
    match part {
        Part::Local(_) => false,
        Part::Stmt(s) => is_jump(s),
    }
}

#[cycle(ends_with_jump)]
fn is_jump(s: &Stmt) -> bool
    ensures { result ≡ is_jump (stmt_view s.now) }
{
    match s {
        Stmt::Block(_, parts) => ends_with_jump(parts),
        Stmt::Break(_) => true,
        Stmt::Continue(_) => true,
        Stmt::Return(_) => true,
        Stmt::ReturnValue(_, _) => true,
        Stmt::Empty(_) => false,
        Stmt::Act(_) => false,
        Stmt::If(_, _, _) => false,
        Stmt::IfElse(_, _, _, _) => false,
        Stmt::While(_, _, _) => false,
        Stmt::Do(_, _, _) => false,
        Stmt::For(_, _, _, _, _) => false,
        Stmt::Switch(_, _, _) => false,
    }
}

fn place_of_label(label: &Label) -> Place
    ensures { result ≡ place_of_label (label_view label.now) }
{
    match label {
        Label::Case(at, _) => *at,
        Label::Default(at) => *at,
    }
}

fn first_label(labels: &[Label]) -> Option<Place>
    ensures { result ≡ first_label (map label_view labels.now) }
{
    match labels {
        [] => None,
        [label, ..] => Some(place_of_label(label)),
    }
}

/// The label after a group.
pub fn next_label(groups: &Groups) -> Option<Place>
    ensures { result ≡ next_label (groups_view groups.now) }
{
    match groups {
        Groups::End => None,
        Groups::More(labels, _, _) => first_label(labels.as_slice()),
    }
}

/// Nothing falls from a group that has statements into the next one.
pub fn group_ends(parts: &Parts, next: Option<Place>) -> Result<(), Fault>
    ensures { Gives (λ u. u) (group_ends (parts_view parts.now) next) result }
{
    let at = match next {
        Some(at) => at,
        None => return Ok(()),
    };
    match parts {
        Parts::End => Ok(()),
        Parts::More(_, _) => {
            if ends_with_jump(parts) {
                Ok(())
            } else {
                Err(not_in_profile(at))
            }
        }
    }
}
