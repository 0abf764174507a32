//! The parameters and the locals of a function.

ghost use Rattle.std.specs.Prelude.{◌≡◌, ◌<◌, ◌+◌, ◌^◌, [], ◌∷◌, ◌++◌, map, OnOk};
ghost use Rattle.file_typing.specs.FunctionNotes.{cells_of_locals};
ghost use Rattle.typing_base.specs.NoteViews.{local_view};

use rvt_tree::{CType, Name, Place};
use std::alloc::{AllocError, Global};
use std::marker::Model;

/// A local or a parameter: its name and where it is declared, its type and the cells of that.
#[derive(Debug, Drop)]
pub struct Local {
    pub name: Name,
    pub place: Place,
    pub ty: CType,
    pub cells: u32,
    pub constant: bool,
}

/// The parameters and then the locals of a function, by their numbers, and the cells of them all.
#[derive(Drop)]
pub struct Locals {
    list: Vec<Local>,
    cells: u32,
}

impl Model for Locals {
    ghost use Rattle.std.specs.Prelude.{◌≡◌, List, map};
    ghost use Rattle.std.specs.Coded.{codes};
    ghost use Rattle.rvt_tree.specs.contracts.types.CType as c;
    ghost use Rattle.file_typing.specs.FunctionNotes.{cells_of_locals};
    ghost use Rattle.typing_base.specs.declared.locals.Local.{Local};
    ghost use Rattle.typing_base.specs.NoteViews.{local_view};

    ghost Value = { List Local };

    ghost coded = { Prim.hlevel (codes, c.the_row.coded) };

    ghost view = { λ it. it.list.items };

    ghost invariant = { λ it. it.cells ≡ cells_of_locals (map local_view it.list.items) };
}

impl Locals {
    pub fn new(alloc: Global) -> Locals
        ensures { result ≡ [] }
    {
        Locals {
            list: Vec::new(alloc),
            cells: 0,
        }
    }

    pub fn as_slice(&self) -> &[Local]
        ensures { result.now ≡ self.now }
    {
        self.list.as_slice()
    }

    pub fn into_vec(self) -> Vec<Local>
        ensures { result.items ≡ self }
    {
        self.list
    }

    /// The cells of them all.
    pub fn cells(&self) -> u32
        ensures { result ≡ cells_of_locals (map local_view self.now) }
    {
        self.cells
    }

    #[tactic(auto, using(crate::proofs::Noted::cells_push))]
    pub fn add(&mut self, local: Local) -> Result<(), AllocError>
        requires { cells_of_locals (map local_view self.old) + local.cells < 2 ^ 32 }
        ensures { OnOk result (self.new ≡ self.old ++ local ∷ []) }
    {
        let cells = self.cells + local.cells;
        self.list.push(local)?;
        self.cells = cells;
        Ok(())
    }
}
