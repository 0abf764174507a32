//! The store of a symbolic run.

ghost use Rattle.std.specs.Prelude.{◌≡◌, ◌<◌, Some, length, slice_get, IfOk, OnOk};
ghost use Rattle.aig_build.specs.Circuits.{Grows};
ghost use Rattle.sym_store.specs.Stores.{with_cell_value, with_value, merged_store, IsStoreThere, AreStoresAlike};

use crate::copies::copy_values;
use crate::merging::merge;
use aig_build::{Circuit, Lit};
use bit_ops::SymValue;
use rvt_num::Memory;
use std::alloc::Global;
use std::marker::Model;

/// The registers of a unit, and the mutable cells of all objects in the order of the table.
#[derive(Drop)]
pub struct SymStore {
    alloc: Global,
    registers: Vec<SymValue>,
    cells: Vec<SymValue>,
}

impl Model for SymStore {
    ghost use Rattle.sym_store.specs.Stores.{LitStore};

    ghost Value = { LitStore };

    ghost view = { λ s. record { registers = s.registers.items; cells = s.cells.items } };
}

impl SymStore {
    pub fn new(alloc: Global, registers: Vec<SymValue>, cells: Vec<SymValue>) -> SymStore
        ensures { result ≡ record { registers = registers.items; cells = cells.items } }
    {
        SymStore {
            alloc,
            registers,
            cells,
        }
    }

    pub fn register(&self, register: u32) -> &SymValue
        requires is_there { register < length self.now.registers }
        ensures { slice_get self.now.registers register ≡ Some result.now }
    {
        &self.registers[register as usize]
    }

    pub fn registers(&self) -> &[SymValue]
        ensures { result.now ≡ self.now.registers }
    {
        &self.registers
    }

    /// The mutable cells of all objects.
    pub fn cells(&self) -> &[SymValue]
        ensures { result.now ≡ self.now.cells }
    {
        &self.cells
    }

    pub fn set(&mut self, register: u32, value: SymValue)
        requires is_there { register < length self.old.registers }
        ensures { self.new ≡ with_value self.old register value }
    {
        self.registers[register as usize] = value;
    }

    /// Sets a mutable cell, by its number among those of all objects.
    pub fn set_cell(&mut self, cell: u64, value: SymValue)
        requires is_there { cell < length self.old.cells }
        ensures { self.new ≡ with_cell_value self.old cell value }
    {
        self.cells[cell as usize] = value;
    }

    /// An equal store.
    pub fn copy(&self) -> Result<SymStore, Memory>
        ensures { IfOk result (λ copy. copy ≡ self.now) }
    {
        let registers = copy_values(self.alloc, &self.registers)?;
        let cells = copy_values(self.alloc, &self.cells)?;
        Ok(SymStore {
            alloc: self.alloc,
            registers,
            cells,
        })
    }

    /// Where the literal is true it stays as it was, and else it becomes the other store. After want of memory it is only to be dropped.
    pub fn merge(
        &mut self,
        circuit: &mut Circuit,
        which: Lit,
        other: &SymStore,
    ) -> Result<(), Memory>
        requires which_is_there { which.node < length circuit.old }
        requires first_is_there { IsStoreThere circuit.old self.old }
        requires second_is_there { IsStoreThere circuit.old other.now }
        requires alike { AreStoresAlike self.old other.now }
        ensures built { OnOk result (merged_store circuit.old which self.old other.now ≡ record { nodes = circuit.new; store = self.new }) }
        ensures there { OnOk result (IsStoreThere circuit.new self.new) }
        ensures grows { Grows circuit.old circuit.new }
    {
        let registers = merge(
            self.alloc,
            circuit,
            which,
            &self.registers,
            &other.registers,
        )?;
        let cells = merge(self.alloc, circuit, which, &self.cells, &other.cells)?;
        self.registers = registers;
        self.cells = cells;
        Ok(())
    }
}
