//! The actions on declarations.

ghost use Rattle.std.specs.Prelude.{◌≡◌};
ghost use Rattle.expression_actions.specs.Follows.{Follows};
ghost use Rattle.file_actions.specs.DeclarationRules as rule;
ghost use Rattle.file_actions.specs.Shown.{shown};

use crate::parts::Parts;
use c_syntax::{Declaration, Declarator, Init, Value, builders};
use expression_actions::{Fault, Kept, take};
use sqlite_items::Items;
use std::alloc::Global;
use std::mem;

impl Parts {
    /// What is declared.
    pub fn declarator(&mut self, alloc: Global) -> Result<(), Fault>
        ensures { Follows result (shown self.new) (rule.declarator (shown self.old)) }
    {
        let Kept { word, .. } = take(&mut self.expressions.operands.kept)?;
        let pointer = take(&mut self.expressions.types.pointers)?;
        let dims = take(&mut self.expressions.types.dims)?;
        let dims = builders::dimensions(alloc, dims)?;
        self.declarations.declarators.push(Declarator {
            pointer,
            word,
            dims,
        })?;
        Ok(())
    }

    /// One more that a typedef or a line of fields declares.
    pub fn add_declarator(&mut self) -> Result<(), Fault>
        ensures { Follows result (shown self.new) (rule.add_declarator (shown self.old)) }
    {
        let declarator = take(&mut self.declarations.declarators)?;
        self.declarations.declared.push(declarator)?;
        Ok(())
    }

    /// An initializer that is an expression.
    pub fn cond_value(&mut self) -> Result<(), Fault>
        ensures { Follows result (shown self.new) (rule.cond_value (shown self.old)) }
    {
        let value = take(&mut self.expressions.operands.expressions)?;
        self.declarations.values.push(Value::Expr(value))?;
        Ok(())
    }

    /// Initializers in braces begin.
    pub fn no_values(&mut self, alloc: Global) -> Result<(), Fault>
        ensures { Follows result (shown self.new) (rule.no_values (shown self.old)) }
    {
        self.declarations.braced.push(Vec::new(alloc))?;
        Ok(())
    }

    /// One more initializer in the braces.
    pub fn add_value(&mut self) -> Result<(), Fault>
        ensures { Follows result (shown self.new) (rule.add_value (shown self.old)) }
    {
        let value = take(&mut self.declarations.values)?;
        let mut values = take(&mut self.declarations.braced)?;
        values.push(value)?;
        self.declarations.braced.push(values)?;
        Ok(())
    }

    /// Initializers in braces, at their `{`.
    pub fn braces(&mut self, alloc: Global) -> Result<(), Fault>
        ensures { Follows result (shown self.new) (rule.braces (shown self.old)) }
    {
        let brace = take(&mut self.expressions.operands.kept)?;
        let values = take(&mut self.declarations.braced)?;
        let values = builders::initializers(alloc, values)?;
        let values = Box::new(alloc, values)?;
        self.declarations
            .values
            .push(Value::Braces(brace.word.place, values))?;
        Ok(())
    }

    /// One more that a declaration declares, with its initializer.
    pub fn init_with(&mut self) -> Result<(), Fault>
        ensures { Follows result (shown self.new) (rule.init_with (shown self.old)) }
    {
        let value = take(&mut self.declarations.values)?;
        let declarator = take(&mut self.declarations.declarators)?;
        self.declarations.inits.push(Init {
            declarator,
            value: Some(value),
        })?;
        Ok(())
    }

    /// One more that a declaration declares, with no initializer.
    pub fn init_bare(&mut self) -> Result<(), Fault>
        ensures { Follows result (shown self.new) (rule.init_bare (shown self.old)) }
    {
        let declarator = take(&mut self.declarations.declarators)?;
        self.declarations.inits.push(Init {
            declarator,
            value: None,
        })?;
        Ok(())
    }

    /// A declaration.
    pub fn declaration(&mut self, alloc: Global) -> Result<(), Fault>
        ensures { Follows result (shown self.new) (rule.declaration (shown self.old)) }
    {
        let base = take(&mut self.expressions.types.bases)?.finish();
        let inits = Items::from_vec(mem::replace(&mut self.declarations.inits, Vec::new(alloc)));
        self.declarations
            .declarations
            .push(Declaration { base, inits })?;
        Ok(())
    }
}
