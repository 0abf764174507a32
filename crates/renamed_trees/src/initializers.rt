//! Initializers in which each variable stands under another name.

ghost use Rattle.std.specs.Prelude.{◌≡◌};
ghost use Rattle.rvt_tree.specs.Syntax.{no_initializers};
ghost use Rattle.rvt_tree.specs.Views.{init_view, inits_view};
ghost use Rattle.renamed_trees.specs.RenamedTrees.{initializer_renamed, members_renamed};
ghost use Rattle.renamed_trees.specs.Renamings.{named};
ghost use Rattle.renamed_trees.specs.TurnedLists.{members_turned};

use crate::expressions::rename_expression;
use crate::turned::turned_members;
use crate::variables::Renaming;
use rvt_tree::{Init, Inits};
use std::mem;

#[cycle(rename_initializer)]
pub fn rename_initializer(init: &mut Init, renaming: &Renaming)
    ensures { init_view init.new ≡ initializer_renamed (named renaming.now) (init_view init.old) }
{
    match init {
        Init::Value(e) => rename_expression(e, renaming),
        Init::Braces(members) => rename_members(members, renaming),
    }
}

#[cycle(rename_initializer)]
#[tactic(auto, using(crate::proofs::TurnedTwice::members_turned_twice))]
fn rename_members(list: &mut Inits, renaming: &Renaming)
    ensures { inits_view list.new ≡ members_renamed (named renaming.now) (inits_view list.old) }
{
    let turned = taken_members(list, renaming);
    *list = turned_members(turned);
}

/// The initializers, each renamed, from the last to the first; none is left.
#[cycle(rename_initializer)]
fn taken_members(list: &mut Inits, renaming: &Renaming) -> Inits
    ensures { inits_view result ≡ members_turned (members_renamed (named renaming.now) (inits_view list.old)) no_initializers }
{
    let mut done = Inits::End;
    loop {
        match list {
            Inits::End => return done,
            Inits::More(init, _, rest) => {
                rename_initializer(init, renaming);
                let next = mem::replace(&mut **rest, done);
                done = mem::replace(list, next);
            }
        }
    }
}
