//! Functions of a file, and the fields of a struct so far.

use rvt_num::Kind;
use rvt_tree::{Name, Stmt};
use typing_base::{Addresses, Call, Field, Local};

/// What a function takes and gives; no kind for `void`.
#[derive(Debug, Drop)]
pub struct Interface {
    pub params: Vec<Local>,
    pub result: Option<Kind>,
}

/// The body of a function: all its locals, its parameters first, its calls, and the addresses that it takes.
#[derive(Drop)]
pub struct FunctionBody {
    pub statement: Stmt,
    pub locals: Vec<Local>,
    pub calls: Vec<Call>,
    pub taken: Addresses,
}

/// A function, once it is declared with its interface, and once it is defined with its body.
#[derive(Drop)]
pub struct FunctionEntry {
    pub name: Name,
    pub interface: Option<Interface>,
    pub body: Option<FunctionBody>,
}

/// The fields of a struct so far, and the kinds of their cells.
#[derive(Debug, Drop)]
pub struct Members {
    pub fields: Vec<Field>,
    pub contents: Vec<Kind>,
}
