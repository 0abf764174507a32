//! Initializers in which each local that is an object stands as that.

ghost use Rattle.std.specs.Prelude.{◌≡◌};
ghost use Rattle.rvt_tree.specs.Syntax.{no_initializers};
ghost use Rattle.rvt_tree.specs.Views.{init_view, inits_view};
ghost use Rattle.file_typing.specs.LocalObjects.{initializer_resolved, members_resolved};
ghost use Rattle.local_objects.specs.ObjectTables.{object_at};
ghost use Rattle.local_objects.specs.TurnedLists.{members_turned};

use crate::expressions::resolve_expression;
use crate::turned::turned_members;
use rvt_tree::{Init, Inits};
use std::mem;

#[cycle(resolve_initializer)]
pub fn resolve_initializer(init: &mut Init, objects: &[Option<u32>])
    ensures { init_view init.new ≡ initializer_resolved (object_at objects.now) (init_view init.old) }
{
    match init {
        Init::Value(e) => resolve_expression(e, objects),
        Init::Braces(members) => resolve_members(members, objects),
    }
}

#[cycle(resolve_initializer)]
#[tactic(auto, using(crate::proofs::TurnedTwice::members_turned_twice))]
fn resolve_members(list: &mut Inits, objects: &[Option<u32>])
    ensures { inits_view list.new ≡ members_resolved (object_at objects.now) (inits_view list.old) }
{
    let turned = taken_members(list, objects);
    *list = turned_members(turned);
}

/// The initializers, each resolved, from the last to the first; none is left.
#[cycle(resolve_initializer)]
fn taken_members(list: &mut Inits, objects: &[Option<u32>]) -> Inits
    ensures { inits_view result ≡ members_turned (members_resolved (object_at objects.now) (inits_view list.old)) no_initializers }
{
    let mut done = Inits::End;
    loop {
        match list {
            Inits::End => return done,
            Inits::More(init, _, rest) => {
                resolve_initializer(init, objects);
                let next = mem::replace(&mut **rest, done);
                done = mem::replace(list, next);
            }
        }
    }
}
