//! The addresses that a function takes.

ghost use Rattle.std.specs.Prelude.{◌≡◌, ℕ, ◌<◌, ◌^◌, [], ◌∷◌, ◌++◌, map, length, false, slice_index_or, OnOk};
ghost use Rattle.rvt_tree.specs.declared.expressions.Variable.TheVariants as V;
ghost use Rattle.expression_typing.specs.Progress.{is_taken};
ghost use Rattle.typing_base.specs.NoteViews.{taken_view};

use rvt_tree::{Place, Variable};
use std::alloc::{AllocError, Global};
use std::marker::Model;

/// A variable whose address is taken: at the `&`, or at its name where it decays.
#[derive(Clone, Copy, Debug, PartialEq, Eq)]
pub struct Taken {
    pub variable: Variable,
    pub place: Place,
}

/// The addresses that a function takes, and of each local whether it is among them.
#[derive(Drop)]
pub struct Addresses {
    list: Vec<Taken>,
    is_object: Vec<bool>,
}

impl Model for Addresses {
    ghost use Rattle.std.specs.Prelude.{◌≡◌, ℕ, List, slice_index_or, false, map};
    ghost use Rattle.rvt_tree.specs.declared.expressions.Variable.TheVariants as V;
    ghost use Rattle.expression_typing.specs.Progress.{is_taken};
    ghost use Rattle.typing_base.specs.declared.addresses.Taken.{Taken};
    ghost use Rattle.typing_base.specs.NoteViews.{taken_view};

    ghost Value = { List Taken };

    ghost view = { λ a. a.list.items };

    ghost invariant = { λ a. (number : ℕ) → slice_index_or a.is_object.items number false ≡ is_taken (map taken_view a.list.items) (V.Local number) };
}

impl Addresses {
    pub fn new(alloc: Global) -> Addresses
        ensures { result ≡ [] }
    {
        Addresses {
            list: Vec::new(alloc),
            is_object: Vec::new(alloc),
        }
    }

    pub fn as_slice(&self) -> &[Taken]
        ensures { result.now ≡ self.now }
    {
        self.list.as_slice()
    }

    /// Whether the address of a local is taken.
    pub fn has_local(&self, number: u32) -> bool
        ensures { result ≡ is_taken (map taken_view self.now) (V.Local number) }
    {
        let number = number as usize;
        number < self.is_object.len() && self.is_object[number]
    }

    #[tactic(auto, using(crate::proofs::Noted::taken_push))]
    pub fn add(&mut self, taken: Taken) -> Result<(), AllocError>
        ensures { OnOk result (self.new ≡ self.old ++ taken ∷ []) }
    {
        match taken.variable {
            Variable::Local(number) => {
                let number = number as usize;
                make_room(&mut self.is_object, number)?;
                self.list.push(taken)?;
                self.is_object[number] = true;
                Ok(())
            }
            Variable::Object(_) => {
                self.list.push(taken)?;
                Ok(())
            }
        }
    }
}

// Gives the flag a place: one that is not there is false.
fn make_room(flags: &mut Vec<bool>, number: usize) -> Result<(), AllocError>
    requires { number < 2 ^ 32 }
    ensures room { OnOk result (number < length flags.new.items) }
    ensures same { (k : ℕ) → slice_index_or flags.new.items k false ≡ slice_index_or flags.old.items k false }
{
    while flags.len() <= number {
        flags.push(false)?;
    }
    Ok(())
}
