//! The bodies of functions (C 6.9.1).

ghost use Rattle.std.specs.Prelude.{◌≡◌, ◌≤◌, length, is_some, map, option_map, slice_get, OnOk};
ghost use Rattle.std.specs.Option.{option_copied};
ghost use Rattle.rvt_tree.specs.Views as t;
ghost use Rattle.c_syntax.specs.Views as s;
ghost use Rattle.expression_typing.specs.Outcomes.{Made};
ghost use Rattle.file_typing.specs.FunctionDeclarators.{entry_of};
ghost use Rattle.file_typing.specs.FunctionDefinitions.{body_noted, typed_body, unless_defined};
ghost use Rattle.typing_base.specs.Follows.{Becomes, Gives};
ghost use Rattle.typing_base.specs.Views.{notes_view};
ghost use Rattle.file_state.specs.Views.{body_view, file_state_view, function_entry_view};
ghost use Rattle.file_items.specs.FunctionHeaders.{block_of_parameters};
ghost use Rattle.file_items.specs.Compounds.{parts_of};
ghost use Rattle.statement_elaboration.specs.Views.{block_view, Extends};

use crate::headers::Header;
use crate::parameters::declare_parameters;
use c_syntax::{Parts, Stmt, Word};
use file_state::{FileState, FunctionBody, FunctionEntry, declared_twice};
use rvt_tree::builders;
use statement_elaboration::{Block, typed_items, typed_statement};
use std::alloc::Global;
use typing_base::{Environment, Fault, Notes};

// ---- one body

fn at(functions: &[FunctionEntry], number: usize) -> Option<&FunctionEntry>
    ensures { option_copied result ≡ slice_get functions.now number }
{
    functions.get(number)
}

fn is_defined(state: &FileState, word: &Word, number: u32) -> bool
    ensures { result ≡ is_some (entry_of (file_state_view state.now) number word.now).body }
{
    match at(&state.functions, number as usize) {
        Some(entry) => entry.body.is_some(),
        None => false,
    }
}

/// A function has one body.
pub fn unless_defined(
    alloc: Global,
    state: &FileState,
    word: &Word,
    number: u32,
) -> Result<(), Fault>
    ensures { Gives (λ x. x) (unless_defined word.now (entry_of (file_state_view state.now) number word.now)) result }
{
    if is_defined(state, word, number) {
        let fault = declared_twice(alloc, word)?;
        return Err(fault);
    }
    Ok(())
}

// ---- its statements

// The parts of a block.
fn parts_of(body: &Stmt) -> Option<&Parts>
    ensures { option_map (λ parts. s.parts_view parts.now) result ≡ parts_of (s.stmt_view body.now) }
{
    match body {
        Stmt::Block(_, parts) => Some(parts),
        Stmt::Empty(_) => None,
        Stmt::Act(_) => None,
        Stmt::Break(_) => None,
        Stmt::Continue(_) => None,
        Stmt::Return(_) => None,
        Stmt::ReturnValue(_, _) => None,
        Stmt::If(_, _, _) => None,
        Stmt::IfElse(_, _, _, _) => None,
        Stmt::While(_, _, _) => None,
        Stmt::Do(_, _, _) => None,
        Stmt::For(_, _, _, _, _) => None,
        Stmt::Switch(_, _, _) => None,
    }
}

/// The parameters and what the outermost block of the body declares are one scope, which the caller leaves.
fn typed_body(
    alloc: Global,
    environment: &mut Environment,
    block: Block,
    body: &Stmt,
    notes: &mut Notes,
) -> Result<rvt_tree::Stmt, Fault>
    requires within { block.height ≤ length environment.old.names }
    ensures typed { Becomes t.stmt_view (typed_body (block_view environment.old block) (s.stmt_view body.now) (notes_view notes.old)) result notes.new }
    ensures declared { OnOk result (Extends environment.old environment.new) }
{
    match parts_of(body) {
        Some(parts) => {
            let body = typed_items(alloc, environment, block, parts, notes)?;
            Ok(builders::block(alloc, body)?)
        }
        None => {
            let body = typed_statement(alloc, environment, block, body, notes)?;
            Ok(body)
        }
    }
}

/// The body of a function behind its header: its names are forgotten at its end.
pub fn typed_behind(
    alloc: Global,
    state: &mut FileState,
    header: &Header,
    body: &Stmt,
    notes: &mut Notes,
) -> Result<rvt_tree::Stmt, Fault>
    ensures typed { Becomes t.stmt_view (typed_body (block_of_parameters (file_state_view state.old) header.now.interface.result header.now.parameters.items) (s.stmt_view body.now) (notes_view notes.old)) result notes.new }
    ensures same { OnOk result (state.new ≡ state.old) }
{
    let height = state.environment.names.height();
    let block = Block {
        height,
        result: header.interface.result,
        in_loop: false,
        in_switch: false,
    };
    declare_parameters(alloc, &mut state.environment, block, &header.parameters)?;
    let made = typed_body(alloc, &mut state.environment, block, body, notes)?;
    state.environment.names.leave(height);
    Ok(made)
}

/// What is noted of a function goes to its body.
pub fn body_noted(alloc: Global, statement: rvt_tree::Stmt, notes: &mut Notes) -> FunctionBody
    ensures { body_noted (t.stmt_view statement) (notes_view notes.old) ≡ Made (body_view result) (notes_view notes.new) }
{
    let noted = notes.end_function(alloc);
    FunctionBody {
        statement,
        locals: noted.locals.into_vec(),
        calls: noted.calls,
        taken: noted.taken,
    }
}
