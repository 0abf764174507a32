ghost use Rattle.std.specs.Prelude.{◌≡◌, ◌↔◌, [], IsTrue, IfOk, OnOk};
ghost use Rattle.std.specs.Bool.{OnTrue, OnFalse};
ghost use Rattle.clause_db.specs.Resolution.{ClashesOnlyAt, IsResolvent};

use crate::clause::{Clause, Memory};
use crate::resolution::resolve;
use std::alloc::Global;

/// A clause on which resolutions are done one after another, with room for the next one.
#[derive(Drop)]
pub struct Replay {
    pub current: Clause,
    pub spare: Clause,
}

impl Replay {
    /// A replay that has started with the empty clause.
    pub fn new(alloc: Global) -> Replay
        ensures { result.current.literals.items ≡ [] }
    {
        Replay {
            current: Clause {
                literals: Vec::new(alloc),
            },
            spare: Clause {
                literals: Vec::new(alloc),
            },
        }
    }

    /// Starts with a clause.
    pub fn start(&mut self, clause: &Clause) -> Result<(), Memory>
        ensures { OnOk result (self.new.current.literals.items ≡ clause.now.literals.items) }
    {
        self.current.literals.clear();
        match self.current.literals.extend_from_slice(&clause.literals) {
            Ok(()) => Ok(()),
            Err(_) => Err(Memory),
        }
    }

    /// Resolves the clause with another one on a variable, and answers whether that can be done.
    pub fn resolve_with(&mut self, other: &Clause, variable: u64) -> Result<bool, Memory>
        ensures answer { IfOk result (λ done. IsTrue done ↔ ClashesOnlyAt variable self.old.current.literals.items other.now.literals.items) }
        ensures resolvent { IfOk result (λ done. OnTrue done (IsResolvent variable self.old.current.literals.items other.now.literals.items self.new.current.literals.items)) }
        ensures unchanged { IfOk result (λ done. OnFalse done (self.new.current.literals.items ≡ self.old.current.literals.items)) }
    {
        self.spare.literals.clear();
        let room = self.current.literals.len() + other.literals.len();
        match self.spare.literals.reserve(room) {
            Ok(()) => {}
            Err(_) => return Err(Memory),
        }
        if !resolve(&mut self.spare, &self.current, other, variable) {
            return Ok(false);
        }
        std::mem::swap(&mut self.current, &mut self.spare);
        Ok(true)
    }
}
