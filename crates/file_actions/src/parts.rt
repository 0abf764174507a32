//! What was read of a file.

ghost use Rattle.std.specs.Prelude.{◌≡◌};
ghost use Rattle.file_actions.specs.Stacks.{nothing_read};
ghost use Rattle.file_actions.specs.Shown.{shown};

use crate::declaration_parts::Declarations;
use crate::external_parts::Externals;
use crate::statement_parts::Statements;
use expression_actions::Expressions;
use std::alloc::Global;

/// What was read of a file and has no place in a tree yet.
#[derive(Drop)]
pub struct Parts {
    pub expressions: Expressions,
    pub declarations: Declarations,
    pub externals: Externals,
    pub statements: Statements,
}

impl Parts {
    /// Before the first token.
    pub fn new(alloc: Global) -> Parts
        ensures { shown result ≡ nothing_read }
    {
        Parts {
            expressions: Expressions::new(alloc),
            declarations: Declarations::new(alloc),
            externals: Externals::new(alloc),
            statements: Statements::new(alloc),
        }
    }
}
