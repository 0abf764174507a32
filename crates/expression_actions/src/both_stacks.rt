//! The actions on expressions and types together.

ghost use Rattle.std.specs.Prelude.{◌≡◌};
ghost use Rattle.expression_actions.specs.Rules as rule;
ghost use Rattle.expression_actions.specs.Rules.{nothing_read};
ghost use Rattle.expression_actions.specs.Follows.{Follows};
ghost use Rattle.expression_actions.specs.Shown.{shown};

use crate::faults::{Fault, take};
use crate::nodes;
use crate::operand_stacks::Operands;
use crate::type_stacks::Types;
use c_syntax::Dim;
use std::alloc::Global;

/// What was read of expressions and types and has no place in a tree yet.
#[derive(Drop)]
pub struct Expressions {
    pub operands: Operands,
    pub types: Types,
}

impl Expressions {
    /// Before the first token.
    pub fn new(alloc: Global) -> Expressions
        ensures { shown result ≡ nothing_read }
    {
        Expressions {
            operands: Operands::new(alloc),
            types: Types::new(alloc),
        }
    }

    /// `[n]` of a declarator or a type.
    pub fn dim(&mut self) -> Result<(), Fault>
        ensures { Follows result (shown self.new) (rule.dim (shown self.old)) }
    {
        let bracket = take(&mut self.operands.kept)?;
        let count = take(&mut self.operands.expressions)?;
        self.types.add_dim(Dim::Size(bracket.word.place, count))
    }

    /// `[]` of a declarator.
    pub fn open_dim(&mut self) -> Result<(), Fault>
        ensures { Follows result (shown self.new) (rule.open_dim (shown self.old)) }
    {
        let bracket = take(&mut self.operands.kept)?;
        self.types.add_dim(Dim::Open(bracket.word.place))
    }

    /// `(T) a`
    pub fn cast(&mut self, alloc: Global) -> Result<(), Fault>
        ensures { Follows result (shown self.new) (rule.cast (shown self.old)) }
    {
        let bracket = take(&mut self.operands.kept)?;
        let named = take(&mut self.types.names)?;
        let operand = take(&mut self.operands.expressions)?;
        let whole = nodes::cast(alloc, bracket.word.place, named, operand)?;
        self.operands.expressions.push(whole)?;
        Ok(())
    }

    /// `sizeof (T)`
    pub fn sizeof_type(&mut self, alloc: Global) -> Result<(), Fault>
        ensures { Follows result (shown self.new) (rule.sizeof_type (shown self.old)) }
    {
        let _bracket = take(&mut self.operands.kept)?;
        let token = take(&mut self.operands.kept)?;
        let named = take(&mut self.types.names)?;
        let whole = nodes::sizeof_type(alloc, token.word.place, named)?;
        self.operands.expressions.push(whole)?;
        Ok(())
    }
}
