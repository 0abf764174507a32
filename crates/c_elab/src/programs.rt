//! The program that a file declares.

ghost use Rattle.std.specs.Prelude.{IfOk};
ghost use Rattle.file_state.specs.Views.{file_state_view};
ghost use Rattle.file_typing.specs.Elaboration.{program_of};
ghost use Rattle.file_typing.specs.Programs.{IsProgramOf};

use crate::addresses::with_address;
use crate::functions::functions_of;
use crate::structs::structs_of;
use file_state::FileState;
use rvt_tree::{Program, Structs, Table};
use sqlite_items::Items;
use std::alloc::{AllocError, Global};

/// The structs, the functions and the objects: those of the file, and then the locals that are objects.
pub fn program_of(alloc: Global, state: FileState) -> Result<Program, AllocError>
    ensures { IfOk result (IsProgramOf (program_of (file_state_view state))) }
{
    let FileState {
        environment,
        functions,
        objects,
        ..
    } = state;
    let mut objects = with_address(alloc, &functions, objects)?;
    let functions = functions_of(alloc, &environment.structs, functions, &mut objects)?;
    let list = structs_of(alloc, environment.structs)?;
    Ok(Program {
        structs: Structs { list },
        functions,
        table: Table {
            objects: Items::from_vec(objects),
        },
    })
}
