//! What was read of statements.

ghost use Rattle.std.specs.Prelude.{◌≡◌};
ghost use Rattle.file_actions.specs.Stacks.{no_statements_read};
ghost use Rattle.file_actions.specs.Shown.{statements_shown};

use c_syntax::{Act, Expr, Group, Label, Part, Start, Stmt};
use std::alloc::Global;
use value_stack::Stack;

/// What was read of statements and has no place in a tree yet.
#[derive(Drop)]
pub struct Statements {
    pub acts: Stack<Act>,
    /// Those of one part of a `for` header, in order.
    pub listed: Vec<Act>,
    pub statements: Stack<Stmt>,
    /// The parts of the blocks that are open.
    pub blocks: Stack<Vec<Part>>,
    pub label: Stack<Label>,
    /// The labels of the groups that are open.
    pub labels: Stack<Vec<Label>>,
    /// The groups of the switches that are open.
    pub groups: Stack<Vec<Group>>,
    /// The three parts of the `for` headers that are open.
    pub starts: Stack<Start>,
    pub tests: Stack<Option<Expr>>,
    pub lasts: Stack<Vec<Act>>,
}

impl Statements {
    /// Before the first token.
    pub fn new(alloc: Global) -> Statements
        ensures { statements_shown result ≡ no_statements_read }
    {
        Statements {
            acts: Stack::new(alloc),
            listed: Vec::new(alloc),
            statements: Stack::new(alloc),
            blocks: Stack::new(alloc),
            label: Stack::new(alloc),
            labels: Stack::new(alloc),
            groups: Stack::new(alloc),
            starts: Stack::new(alloc),
            tests: Stack::new(alloc),
            lasts: Stack::new(alloc),
        }
    }
}
