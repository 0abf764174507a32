//! Different names, each with its number.

ghost use Rattle.std.specs.Prelude.{◌≡◌, [], length, false, MatchOption, IfOk, OnOk, OnErr};
ghost use Rattle.std.specs.List.{list_any};
ghost use Rattle.std.specs.Str.{bytes_eq};
ghost use Rattle.name_scopes.specs.Texts.{with_text, StandsAt, AreDifferent};

use indexmap::IndexSet;
use std::alloc::{AllocError, Global};
use std::marker::Model;

/// Different names in the order in which they were met. A name's number is its place.
#[derive(Drop)]
pub struct Texts {
    alloc: Global,
    texts: IndexSet<Vec<u8>>,
}

impl Model for Texts {
    ghost use Rattle.std.specs.Prelude.{List, ℕ, map};

    ghost Value = { List (List ℕ) };

    ghost view = { λ it. map (λ text. text.items) it.texts.keys };
}

impl Texts {
    pub fn new(alloc: Global) -> Texts
        ensures { result ≡ [] }
    {
        Texts {
            alloc,
            texts: IndexSet::new(alloc),
        }
    }

    pub fn len(&self) -> usize
        ensures { result ≡ length self.now }
    {
        self.texts.len()
    }

    /// The number of a name, if it is among them.
    pub fn find(&self, name: &[u8]) -> Option<usize>
        ensures found { MatchOption result (list_any (bytes_eq name.now) self.now ≡ false) (λ number. StandsAt self.now number name.now) }
        ensures different { AreDifferent self.now }
    {
        let _count = self.texts.len();
        match self.texts.get_index_of(name) {
            Some(number) => Some(number),
            None => None,
        }
    }

    /// The number of a name, which is among them from here on.
    pub fn number(&mut self, name: &[u8]) -> Result<usize, AllocError>
        ensures number { IfOk result (λ number. StandsAt self.new number name.now) }
        ensures added { OnOk result (self.new ≡ with_text self.old name.now) }
        ensures unchanged { OnErr result (self.new ≡ self.old) }
    {
        match self.find(name) {
            Some(number) => Ok(number),
            None => self.add(name),
        }
    }

    fn add(&mut self, name: &[u8]) -> Result<usize, AllocError>
        ensures number { IfOk result (λ number. StandsAt self.new number name.now) }
        ensures added { OnOk result (self.new ≡ with_text self.old name.now) }
        ensures unchanged { OnErr result (self.new ≡ self.old) }
    {
        let text = Vec::from_slice(self.alloc, name)?;
        let (number, _) = self.texts.insert_full(text)?;
        Ok(number)
    }
}
