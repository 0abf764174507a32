//! Where a statement stands (C 6.2.1).

ghost use Rattle.std.specs.Prelude.{◌≡◌, ◌≤◌, length, true};
ghost use Rattle.file_typing.specs.Blocks.{scope_of, inside, unless_declared};
ghost use Rattle.typing_base.specs.Follows.{Gives};
ghost use Rattle.typing_base.specs.declared.scopes.Environment.{Environment as AnyEnvironment};
ghost use Rattle.typing_base.specs.Views.{scope_view};
ghost use Rattle.statement_elaboration.specs.Views.{block_view, Extends};

use c_syntax::Word;
use rvt_num::Kind;
use std::alloc::Global;
use typing_base::{Cause, Environment, Fault, Scope, broken, copied_name};

/// A block that is being gone through.
#[derive(Clone, Copy, Debug)]
pub struct Block {
    /// How many names were in scope where it began.
    pub height: usize,
    /// What the function gives; nothing for `void`.
    pub result: Option<Kind>,
    /// Whether it stands in the body of a loop, and in that of a `switch`.
    pub in_loop: bool,
    pub in_switch: bool,
}

impl Block {
    /// A block in this one.
    #[tactic(auto, using(crate::proofs::BlockViews::inside_view))]
    pub fn inside(self, environment: &Environment) -> Block
        ensures height { result.height ≡ length environment.now.names }
        ensures block { block_view environment.now result ≡ inside (block_view environment.now self) }
    {
        Block {
            height: environment.names.height(),
            result: self.result,
            in_loop: self.in_loop,
            in_switch: self.in_switch,
        }
    }

    pub fn inside_loop(self) -> Block
        ensures { result ≡ record { height = self.height; result = self.result; in_loop = true; in_switch = self.in_switch } }
    {
        Block {
            height: self.height,
            result: self.result,
            in_loop: true,
            in_switch: self.in_switch,
        }
    }

    pub fn inside_switch(self) -> Block
        ensures { result ≡ record { height = self.height; result = self.result; in_loop = self.in_loop; in_switch = true } }
    {
        Block {
            height: self.height,
            result: self.result,
            in_loop: self.in_loop,
            in_switch: true,
        }
    }

    /// Where an expression in the block stands.
    #[tactic(auto, using(crate::proofs::BlockViews::scope_is))]
    pub fn scope<'t>(self, environment: &'t Environment) -> Scope<'t>
        ensures { scope_view result ≡ scope_of (block_view environment.now self) }
    {
        Scope {
            environment,
            evaluated: true,
        }
    }
}

/// At the end of a block the names that it declares are forgotten.
pub fn leave(environment: &mut Environment, block: Block)
    ensures { (outer : AnyEnvironment) → Extends outer environment.old → block.height ≡ length outer.names → environment.new ≡ outer }
{
    environment.names.leave(block.height);
}

/// A name is declared once in its scope (C 6.7).
#[tactic(auto, using(crate::proofs::BlockViews::declared_in))]
pub fn unless_declared(
    alloc: Global,
    environment: &Environment,
    block: Block,
    word: &Word,
) -> Result<(), Fault>
    ensures { Gives (λ u. u) (unless_declared (block_view environment.now block).here word.now.name word.now.place) result }
{
    if environment
        .names
        .is_declared_since(block.height, word.name.bytes())
    {
        let name = copied_name(alloc, &word.name)?;
        return Err(broken(Cause::DeclaredTwice(name), word.place));
    }
    Ok(())
}
