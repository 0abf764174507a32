//! Names in scope, each with its value.

ghost use Rattle.std.specs.Prelude.{◌≡◌, [], ◌∷◌, ◌-◌, length, slice_get, take, drop, OnOk, OnErr};
ghost use Rattle.std.specs.List.{list_any};
ghost use Rattle.std.specs.Option.{option_copied};
ghost use Rattle.std.specs.Str.{bytes_eq};
ghost use Rattle.name_scopes.specs.Names.{named_in};

use crate::places::Places;
use std::alloc::{AllocError, Global};
use std::marker::Model;

/// The names in scope, which contracts see as the list of their bindings, the one declared last first.
///
/// The height of a scope is the count of the bindings that stood before it began.
#[derive(Drop)]
pub struct Scopes<T> {
    places: Places,
    values: Vec<T>,
}

impl<T> Model for Scopes<T> {
    ghost use Rattle.std.specs.Prelude.{◌≡◌, List, length, reverse};
    ghost use Rattle.std.specs.Coded.{coded_list};
    ghost use Rattle.name_scopes.specs.Names.{Named, named_code, bound};

    ghost Value = { List (Named T) };

    ghost coded = { coded_list (named_code T.code) };

    ghost view = { λ it. bound it.places (reverse it.values.items) };

    ghost invariant = { λ it. length it.values.items ≡ length it.places };
}

impl<T> Scopes<T> {
    pub fn new(alloc: Global) -> Scopes<T>
        ensures { result ≡ [] }
    {
        Scopes {
            places: Places::new(alloc),
            values: Vec::new(alloc),
        }
    }

    /// The count of the bindings: the height of a block that begins here.
    pub fn height(&self) -> usize
        ensures { result ≡ length self.now }
    {
        self.places.len()
    }

    /// What the name stands for, by the binding that was declared last.
    pub fn look_up(&self, name: &[u8]) -> Option<&T>
        ensures { option_copied result ≡ named_in self.now name.now }
    {
        let place = self.places.place(name);
        if place == 0 {
            return None;
        }
        at(&self.values, place - 1)
    }

    /// Whether the name was declared after the height.
    pub fn is_declared_since(&self, height: usize, name: &[u8]) -> bool
        ensures { result ≡ list_any (λ binding. bytes_eq name.now binding.name) (take (length self.now - height) self.now) }
    {
        height < self.places.place(name)
    }
}

impl<T: Drop> Scopes<T> {
    /// Declares a name, which hides the former binding.
    pub fn declare(&mut self, name: &[u8], value: T) -> Result<(), AllocError>
        ensures declared { OnOk result (self.new ≡ record { name = name.now; value = value } ∷ self.old) }
        ensures unchanged { OnErr result (self.new ≡ self.old) }
    {
        self.values.push(value)?;
        match self.places.declare(name) {
            Ok(()) => Ok(()),
            Err(stop) => {
                self.values.pop();
                Err(stop)
            }
        }
    }

    /// Ends a block that began at the height: what was declared since is forgotten, and what it hid comes back.
    pub fn leave(&mut self, height: usize)
        ensures { self.new ≡ drop (length self.old - height) self.old }
    {
        'bindings: while height < self.height() {
            self.leave_one();
        }
    }

    fn leave_one(&mut self)
        ensures { self.new ≡ drop 1 self.old }
    {
        self.places.leave_one();
        self.values.pop();
    }
}

// The item at a place, counted from 0.
fn at<T>(items: &[T], place: usize) -> Option<&T>
    ensures { option_copied result ≡ slice_get items.now place }
{
    items.get(place)
}
