ghost use Rattle.std.specs.Prelude.{◌≡◌, [], OnOk};
ghost use Rattle.c_parser.specs.Names.{is_among, with_name, with_names};

use value_stack::Stack;
use std::alloc::{AllocError, Global};
use std::collections::BTreeSet;
use std::marker::Model;

/// A set of names by number, which contracts see as the list of them in ascending order.
#[derive(Debug, Drop)]
pub struct Names {
    set: BTreeSet<u32>,
}

impl Model for Names {
    ghost use Rattle.std.specs.Prelude.{ℕ, List};

    ghost Value = { List ℕ };

    ghost view = { λ it. it.set.keys };
}

impl Names {
    pub fn new(alloc: Global) -> Names
        ensures { result ≡ [] }
    {
        Names {
            set: BTreeSet::new(alloc),
        }
    }

    pub fn has(&self, name: u32) -> bool
        ensures { result ≡ is_among name self.now }
    {
        self.set.contains(&name)
    }

    pub fn add(&mut self, name: u32) -> Result<(), AllocError>
        ensures { OnOk result (self.new ≡ with_name name self.old) }
    {
        self.set.insert(name)?;
        Ok(())
    }

    /// Empties the stack.
    pub fn add_all(&mut self, names: &mut Stack<u32>) -> Result<(), AllocError>
        ensures added { OnOk result (self.new ≡ with_names names.old self.old) }
        ensures emptied { OnOk result (names.new ≡ []) }
    {
        while let Some(name) = names.pop() {
            self.add(name)?;
        }
        Ok(())
    }
}
