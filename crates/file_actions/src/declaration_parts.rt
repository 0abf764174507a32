//! What was read of declarations.

ghost use Rattle.std.specs.Prelude.{◌≡◌};
ghost use Rattle.file_actions.specs.Stacks.{no_declarations};
ghost use Rattle.file_actions.specs.Shown.{declarations_shown};

use c_syntax::{Declaration, Declarator, Init, Value};
use std::alloc::Global;
use value_stack::Stack;

/// What was read of declarations and has no place in a tree yet.
#[derive(Drop)]
pub struct Declarations {
    pub declarators: Stack<Declarator>,
    /// Those of a typedef or of one line of fields, in order.
    pub declared: Vec<Declarator>,
    pub values: Stack<Value>,
    /// The initializers in the braces that are open.
    pub braced: Stack<Vec<Value>>,
    /// What a declaration has declared so far, in order.
    pub inits: Vec<Init>,
    pub declarations: Stack<Declaration>,
}

impl Declarations {
    /// Before the first token.
    pub fn new(alloc: Global) -> Declarations
        ensures { declarations_shown result ≡ no_declarations }
    {
        Declarations {
            declarators: Stack::new(alloc),
            declared: Vec::new(alloc),
            values: Stack::new(alloc),
            braced: Stack::new(alloc),
            inits: Vec::new(alloc),
            declarations: Stack::new(alloc),
        }
    }
}
