//! Different names, each with its number.

ghost use Rattle.std.specs.Prelude.{◌≡◌, [], IfOk, IfErr, OnOk};
ghost use Rattle.std.specs.List.{position_or_len};
ghost use Rattle.std.specs.Str.{bytes_eq};
ghost use Rattle.c_grammar.specs.declared.fault.Fault.TheVariants.{Memory};
ghost use Rattle.c_grammar.specs.Terminals.{with_name};

use crate::fault::Fault;
use indexmap::IndexSet;
use std::alloc::Global;
use std::marker::Model;

/// Different names in the order in which they were met. A name's number is its place.
#[derive(Drop)]
pub struct Names<'a> {
    names: IndexSet<&'a [u8]>,
}

impl<'a> Model for Names<'a> {
    ghost use Rattle.std.specs.Prelude.{List, ℕ, map};

    ghost Value = { List (List ℕ) };

    ghost view = { λ it. map (λ key. key.now) it.names.keys };
}

impl<'a> Names<'a> {
    pub fn new(alloc: Global) -> Names<'a>
        ensures { result ≡ [] }
    {
        Names {
            names: IndexSet::new(alloc),
        }
    }

    /// The number of a name, which is among the names from here on.
    pub fn number(&mut self, name: &'a [u8]) -> Result<u32, Fault>
        ensures number { IfOk result (λ number. number ≡ position_or_len (bytes_eq name.now) self.old) }
        ensures added { OnOk result (self.new ≡ with_name self.old name.now) }
        ensures memory { IfErr result (λ fault. fault ≡ Memory) }
    {
        let (number, _) = self.names.insert_full(name)?;
        let number = narrow(number)?;
        Ok(number)
    }
}

// (no file has more names)
fn narrow(number: usize) -> Result<u32, Fault>
    ensures number { IfOk result (λ narrow. narrow ≡ number) }
    ensures memory { IfErr result (λ fault. fault ≡ Memory) }
{
    match u32::try_from(number) {
        Ok(number) => Ok(number),
        Err(_) => Err(Fault::Memory),
    }
}
