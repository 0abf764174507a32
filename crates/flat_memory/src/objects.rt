//! The objects of a running program.

ghost use Rattle.std.specs.Prelude.{◌≡◌, ◌+◌, ◌++◌, length, get_or, set, map, IfOk, OnOk};
ghost use Rattle.rvt_num.specs.declared.values.Value.TheVariants as V;
ghost use Rattle.c_meaning.specs.Stores.{cleared, objects_of, object_cells, object_length, with_object};
ghost use Rattle.flat_memory.specs.Extents.{extent_of, constant_contents, store_length};

use crate::extents::{Extent, behind, extents, stored_cells};
use crate::ranges::{all, cell_at, clear, part, write_cell};
use c_cells::Cell;
use flat_stack::FlatStack;
use rvt_num::Value;
use rvt_tree::{Object, Program};
use sqlite_items::at;
use std::alloc::{AllocError, Global};
use std::marker::Model;

/// The objects of a program in two arrays. Nothing but `new` takes memory.
#[derive(Drop)]
pub struct Objects<'a> {
    program: &'a Program,
    /// By object.
    extents: Vec<Extent>,
    constants: Vec<Cell>,
    store: FlatStack,
}

impl<'a> Model for Objects<'a> {
    ghost use Rattle.flat_memory.specs.Memories.{Contents, IsMemoryOf};
    ghost use Rattle.std.specs.Coded.{codes};
    ghost use Rattle.rvt_tree.specs.contracts.types.CType as c;
    ghost use Rattle.rvt_tree.specs.contracts.statements.Stmt as s;

    ghost Value = { Contents };

    ghost coded = { Prim.hlevel (codes, c.the_row.coded, s.the_row.coded) };

    ghost view = { λ it. record { program = it.program.now; store = it.store } };

    ghost invariant = { λ it. IsMemoryOf it.program.now it.extents.items it.constants.items it.store };
}

impl<'a> Objects<'a> {
    /// Want of memory also where the number of a cell would pass 2^32.
    pub fn new(alloc: Global, program: &'a Program) -> Result<Objects<'a>, AllocError>
        ensures { IfOk result (λ it. it.program ≡ program.now) }
    {
        let objects = program.table.objects.as_slice();
        let extents = extents(alloc, objects)?;
        let constants = constants(alloc, objects)?;
        let store = FlatStack::new(alloc, stored(objects)?)?;
        Ok(Objects {
            program,
            extents,
            constants,
            store,
        })
    }

    /// Where an object lies.
    fn extent(&self, number: u32) -> Option<Extent>
        ensures { result ≡ extent_of (objects_of self.now.program) number }
    {
        match at(self.extents.as_slice(), number as usize) {
            Some(extent) => Some(*extent),
            None => None,
        }
    }

    /// The cells of an object, and none where there is no object of this number.
    pub fn object(&self, number: u32) -> &[Cell]
        ensures { result.now ≡ object_cells self.now.program self.now.store number }
    {
        match self.extent(number) {
            None => &[],
            Some(extent) => {
                if extent.constant {
                    part(
                        self.constants.as_slice(),
                        extent.first as usize,
                        extent.count as usize,
                    )
                } else {
                    part(
                        all(&self.store),
                        extent.first as usize,
                        extent.count as usize,
                    )
                }
            }
        }
    }

    /// What a cell of an object holds, null where there is no such cell.
    pub fn read(&self, number: u32, cell: u32) -> Cell
        ensures { result ≡ get_or (object_cells self.now.program self.now.store number) cell V.Null }
    {
        cell_at(self.object(number), cell)
    }

    /// Nothing is written where there is no such cell, or where the object is constant.
    pub fn write(&mut self, number: u32, cell: u32, value: Cell)
        ensures { self.new ≡ record self.old { store = with_object self.old.program self.old.store number (set (object_cells self.old.program self.old.store number) cell value) } }
    {
        match self.extent(number) {
            None => {}
            Some(extent) => {
                if !extent.constant {
                    write_cell(
                        &mut self.store,
                        extent.first as usize,
                        extent.count,
                        cell,
                        value,
                    );
                }
            }
        }
    }

    /// Gives an object these cells, as many as it has, where it isn't constant.
    pub fn put(&mut self, number: u32, cells: &[Cell])
        requires { length cells.now ≡ object_length self.old.program number }
        ensures { self.new ≡ record self.old { store = with_object self.old.program self.old.store number cells.now } }
    {
        match self.extent(number) {
            None => {}
            Some(extent) => {
                if !extent.constant {
                    self.store.put(extent.first as usize, cells);
                }
            }
        }
    }

    /// Sets each cell of an object to zero or null, where it isn't constant.
    pub fn clear(&mut self, number: u32)
        ensures { self.new ≡ record self.old { store = with_object self.old.program self.old.store number (map cleared (object_cells self.old.program self.old.store number)) } }
    {
        match self.extent(number) {
            None => {}
            Some(extent) => {
                if !extent.constant {
                    clear(
                        &mut self.store,
                        extent.first as usize,
                        extent.count as usize,
                    );
                }
            }
        }
    }

    /// How many cells an object has, 0 where there is none of this number.
    pub fn length_of(&self, number: u32) -> u32
        ensures { result ≡ object_length self.now.program number }
    {
        match self.extent(number) {
            Some(extent) => extent.count,
            None => 0,
        }
    }

    /// How many cells the store has.
    pub fn stored(&self) -> usize
        ensures cells { result ≡ length self.now.store }
        ensures all { result ≡ store_length (objects_of self.now.program) }
    {
        self.store.length()
    }

    /// The cells of the store, in table order.
    pub fn store(&self) -> &[Cell]
        ensures { result.now ≡ self.now.store }
    {
        all(&self.store)
    }

    /// Other contents of the store, as many as it has cells.
    pub fn load(&mut self, store: &[Value])
        requires { length store.now ≡ length self.old.store }
        ensures { self.new ≡ record self.old { store = store.now } }
    {
        fill(&mut self.store, store);
    }
}

/// Other contents of an array, as many as it has cells.
fn fill(stack: &mut FlatStack, values: &[Value])
    requires { length values.now ≡ length stack.old }
    ensures { stack.new ≡ values.now }
{
    for at in 0..values.len() {
        stack.set(at, Cell::of(values[at]));
    }
}

/// The contents of the constant objects, one after another.
fn constants(alloc: Global, objects: &[Object]) -> Result<Vec<Cell>, AllocError>
    ensures { IfOk result (λ cells. cells.items ≡ constant_contents objects.now) }
{
    let mut out = Vec::new(alloc);
    for object in objects {
        if object.constant {
            push_cells(&mut out, object.initial.as_slice())?;
        }
    }
    Ok(out)
}

fn push_cells(out: &mut Vec<Cell>, values: &[Value]) -> Result<(), AllocError>
    ensures { OnOk result (out.new.items ≡ out.old.items ++ values.now) }
{
    for value in values {
        out.push(Cell::of(*value))?;
    }
    Ok(())
}

/// How many cells the store has. Want of memory where that passes 2^32.
fn stored(objects: &[Object]) -> Result<usize, AllocError>
    ensures { IfOk result (λ count. count ≡ store_length objects.now) }
{
    let mut count = 0;
    for object in objects {
        count = behind(count, stored_cells(object))?;
    }
    Ok(count as usize)
}
