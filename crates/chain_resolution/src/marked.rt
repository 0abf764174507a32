ghost use Rattle.std.specs.Prelude.{◌≡◌, ℕ, ℤ, ◌<◌, ◌↔◌, ◌^◌, [], pos, length, slice_index_or, count_by, IsTrue, IfOk, OnOk, All, Contains};
ghost use Rattle.std.specs.Bool.{OnTrue, OnFalse};
ghost use Rattle.clause_db.specs.Literal.{variable_of, opposite};
ghost use Rattle.clause_db.specs.Resolution.{ClashesOnlyAt, IsResolvent};
ghost use Rattle.chain_resolution.specs.Marked.{is_literal, marked, AreAtVariables, AreTouched, IsWithout, IsWith, IsUnionBut, Mentions};

use crate::listing::literals_at;
use crate::table::{at, clashes_only_at, make_room};
use clause_db::{Clause, Memory, variable};
use std::alloc::Global;

/// A clause as a table of its literals by variable, so that it can be resolved with another one in the time
/// that it takes to read that one.
#[derive(Drop)]
pub struct MarkedClause {
    /// By variable: its literal in the clause, or 0.
    pub table: Vec<i64>,
    /// The variables whose literals may stand in the table.
    pub touched: Vec<usize>,
    /// How many literals the clause has.
    pub size: usize,
    ghost at_variables: { AreAtVariables table.items },
    ghost all_touched: { AreTouched table.items touched.items },
    ghost counted: { size ≡ count_by is_literal table.items },
}

impl MarkedClause {
    /// The empty clause.
    pub fn new(alloc: Global) -> MarkedClause
        ensures { marked result.table.items ≡ [] }
    {
        MarkedClause {
            table: Vec::new(alloc),
            touched: Vec::new(alloc),
            size: 0,
        }
    }

    /// Is the literal one of the clause?
    pub fn has(&self, literal: i64) -> bool
        requires { 0 < variable_of literal }
        ensures { IsTrue result ↔ Contains (marked self.now.table.items) literal }
    {
        let here = at(&self.table, variable(literal) as usize);
        here == literal
    }

    /// Has the clause a literal of this variable?
    pub fn mentions(&self, v: u64) -> bool
        ensures { IsTrue result ↔ Mentions (marked self.now.table.items) v }
    {
        if at(&self.table, v as usize) == 0 {
            return false;
        }
        true
    }

    /// Takes the literal of a variable out, if there is one.
    fn take_out(&mut self, place: usize)
        ensures without { IsWithout place (marked self.old.table.items) (marked self.new.table.items) }
        ensures touched { self.new.touched ≡ self.old.touched }
    {
        if at(&self.table, place) == 0 {
            return;
        }
        self.table[place] = 0;
        self.size -= 1;
    }

    /// Adds a literal.
    fn put(&mut self, literal: i64) -> Result<(), Memory>
        requires positive { 0 < variable_of literal }
        requires in_range { variable_of literal < 2 ^ 63 }
        requires apart { Contains (marked self.old.table.items) (opposite literal) → ⊥ }
        ensures { OnOk result (IsWith literal (marked self.old.table.items) (marked self.new.table.items)) }
    {
        let place = variable(literal) as usize;
        make_room(&mut self.table, place)?;
        if self.table[place] != 0 {
            return Ok(());
        }
        match self.touched.push(place) {
            Ok(()) => {}
            Err(_) => return Err(Memory),
        }
        self.table[place] = literal;
        self.size += 1;
        Ok(())
    }

    /// Adds the literals of another clause but those of a variable.
    fn put_all_but(&mut self, other: &Clause, pivot: u64) -> Result<(), Memory>
        requires apart { (l : ℤ) → Contains (marked self.old.table.items) l → Contains other.now.literals.items (opposite l) → variable_of l ≡ pivot }
        ensures { OnOk result (IsUnionBut pivot (marked self.old.table.items) other.now.literals.items (marked self.new.table.items)) }
    {
        for place in 0..other.literals.len() {
            let literal = other.literals[place];
            if variable(literal) == pivot {
                continue;
            }
            self.put(literal)?;
        }
        Ok(())
    }

    /// Takes all literals out.
    pub fn clear(&mut self)
        ensures { marked self.new.table.items ≡ [] }
    {
        while self.touched.len() > 0 {
            let place = self.touched[self.touched.len() - 1];
            self.take_out(place);
            self.touched.truncate(self.touched.len() - 1);
        }
    }

    /// Starts with a clause.
    pub fn start(&mut self, clause: &Clause) -> Result<(), Memory>
        ensures { OnOk result (marked self.new.table.items ≡ clause.now.literals.items) }
    {
        self.clear();
        self.put_all_but(clause, 0)?;
        Ok(())
    }

    /// Resolves the clause with another one on a variable where they are known to clash.
    pub fn resolve_at(&mut self, other: &Clause, pivot: u64) -> Result<(), Memory>
        requires clash { ClashesOnlyAt pivot (marked self.old.table.items) other.now.literals.items }
        ensures { OnOk result (IsResolvent pivot (marked self.old.table.items) other.now.literals.items (marked self.new.table.items)) }
    {
        self.take_out(pivot as usize);
        self.put_all_but(other, pivot)?;
        Ok(())
    }

    /// Resolves the clause with another one on a variable, and answers whether that can be done.
    pub fn resolve_with(&mut self, other: &Clause, pivot: u64) -> Result<bool, Memory>
        ensures answer { IfOk result (λ done. IsTrue done ↔ ClashesOnlyAt pivot (marked self.old.table.items) other.now.literals.items) }
        ensures resolvent { IfOk result (λ done. OnTrue done (IsResolvent pivot (marked self.old.table.items) other.now.literals.items (marked self.new.table.items))) }
        ensures unchanged { IfOk result (λ done. OnFalse done (marked self.new.table.items ≡ marked self.old.table.items)) }
    {
        if !clashes_only_at(&self.table, &other.literals, pivot) {
            return Ok(false);
        }
        self.resolve_at(other, pivot)?;
        Ok(true)
    }

    /// Is it this clause?
    pub fn is(&self, clause: &Clause) -> bool
        ensures { IsTrue result ↔ (marked self.now.table.items ≡ clause.now.literals.items) }
    {
        if clause.literals.len() != self.size {
            return false;
        }
        for place in 0..clause.literals.len() {
            if !self.has(clause.literals[place]) {
                return false;
            }
        }
        true
    }

    /// The clause, as a list of its own.
    pub fn clause(&self, alloc: Global) -> Result<Clause, Memory>
        ensures { IfOk result (λ clause. clause.literals.items ≡ marked self.now.table.items) }
    {
        let mut places = Vec::new(alloc);
        match places.extend_from_slice(&self.touched) {
            Ok(()) => {}
            Err(_) => return Err(Memory),
        }
        places.sort_unstable();
        let literals = literals_at(alloc, &self.table, &places)?;
        Ok(Clause { literals })
    }
}
