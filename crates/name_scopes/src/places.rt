//! The bindings of names in order, and where the last one of each name stands.

ghost use Rattle.std.specs.Prelude.{ℕ, ◌≡◌, ◌<◌, ◌≤◌, [], ◌∷◌, ◌++◌, ◌+◌, length, get_or, drop, IfOk, OnOk, OnErr};
ghost use Rattle.name_scopes.specs.Places.{place_of};

use crate::texts::Texts;
use std::alloc::{AllocError, Global};
use std::marker::Model;

/// A binding of a name: the name's number, and the place of the binding that it hides, or 0 if it hides none.
#[derive(Drop)]
pub struct Binding {
    number: usize,
    hidden: usize,
}

/// The names of the bindings, the one declared last first. A binding's place is counted from 1, from the first that was declared.
#[derive(Drop)]
pub struct Places {
    texts: Texts,
    // for each number the place of its last binding, or 0
    last: Vec<usize>,
    bindings: Vec<Binding>,
}

impl Model for Places {
    ghost use Rattle.std.specs.Prelude.{List, ℕ, reverse};

    ghost Value = { List (List ℕ) };

    ghost use Rattle.name_scopes.specs.Places.{names_of};
    ghost use Rattle.name_scopes.specs.Links.{AreLinked};

    ghost view = { λ it. names_of it.texts (reverse it.bindings.items) };

    ghost invariant = { λ it. AreLinked it.texts it.last.items (reverse it.bindings.items) };
}

impl Places {
    pub fn new(alloc: Global) -> Places
        ensures { result ≡ [] }
    {
        Places {
            texts: Texts::new(alloc),
            last: Vec::new(alloc),
            bindings: Vec::new(alloc),
        }
    }

    pub fn len(&self) -> usize
        ensures { result ≡ length self.now }
    {
        self.bindings.len()
    }

    /// The place of the last binding of the name, or 0.
    pub fn place(&self, name: &[u8]) -> usize
        ensures { result ≡ place_of self.now name.now }
    {
        match self.texts.find(name) {
            Some(number) => self.last[number],
            None => 0,
        }
    }

    /// Binds a name, which hides the former binding.
    pub fn declare(&mut self, name: &[u8]) -> Result<(), AllocError>
        ensures declared { OnOk result (self.new ≡ name.now ∷ self.old) }
        ensures unchanged { OnErr result (self.new ≡ self.old) }
    {
        make_room(&mut self.last, self.texts.len())?;
        let number = self.texts.number(name)?;
        let hidden = self.last[number];
        let place = add(&mut self.bindings, Binding { number, hidden })?;
        self.last[number] = place;
        Ok(())
    }

    /// Forgets the last binding, so that its name is bound as before.
    pub fn leave_one(&mut self)
        ensures { self.new ≡ drop 1 self.old }
    {
        match self.bindings.pop() {
            Some(binding) => self.last[binding.number] = binding.hidden,
            None => {}
        }
    }
}

// Gives the list a place at the count, if it ends there.
fn make_room(last: &mut Vec<usize>, count: usize) -> Result<(), AllocError>
    requires { count ≤ length last.old.items }
    ensures room { OnOk result (count < length last.new.items) }
    ensures longer { length last.old.items ≤ length last.new.items }
    ensures same { (number : ℕ) → get_or last.new.items number 0 ≡ get_or last.old.items number 0 }
{
    if count < last.len() {
        return Ok(());
    }
    last.push(0)?;
    Ok(())
}

// Adds a binding, and tells its place.
fn add(bindings: &mut Vec<Binding>, binding: Binding) -> Result<usize, AllocError>
    ensures place { IfOk result (λ place. place ≡ length bindings.old.items + 1) }
    ensures added { OnOk result (bindings.new.items ≡ bindings.old.items ++ binding ∷ []) }
    ensures unchanged { OnErr result (bindings.new.items ≡ bindings.old.items) }
{
    match bindings.push(binding) {
        Ok(()) => Ok(bindings.len()),
        Err(_) => Err(AllocError),
    }
}
