//! The actions on items and their parts.

ghost use Rattle.std.specs.Prelude.{◌≡◌};
ghost use Rattle.expression_actions.specs.Follows.{Follows};
ghost use Rattle.file_actions.specs.ExternalRules as rule;
ghost use Rattle.file_actions.specs.Shown.{shown};

use crate::parts::Parts;
use c_syntax::{Body, Declaration, Enumerator, Field, Item, ItemBase, Param, Params, builders};
use expression_actions::{Fault, Kept, take};
use sqlite_items::Items;
use std::alloc::Global;
use std::mem;

impl Parts {
    /// One more parameter, with a name.
    pub fn named_param(&mut self, alloc: Global) -> Result<(), Fault>
        ensures { Follows result (shown self.new) (rule.named_param (shown self.old)) }
    {
        let base = take(&mut self.expressions.types.bases)?.finish();
        let Kept { word, .. } = take(&mut self.expressions.operands.kept)?;
        let pointer = take(&mut self.expressions.types.pointers)?;
        let dims = take(&mut self.expressions.types.dims)?;
        let dims = builders::dimensions(alloc, dims)?;
        self.externals.params.push(Param {
            base,
            pointer,
            word: Some(word),
            dims,
        })?;
        Ok(())
    }

    /// One more parameter, without a name.
    pub fn bare_param(&mut self, alloc: Global) -> Result<(), Fault>
        ensures { Follows result (shown self.new) (rule.bare_param (shown self.old)) }
    {
        let base = take(&mut self.expressions.types.bases)?.finish();
        let pointer = take(&mut self.expressions.types.pointers)?;
        let dims = take(&mut self.expressions.types.dims)?;
        let dims = builders::dimensions(alloc, dims)?;
        self.externals.params.push(Param {
            base,
            pointer,
            word: None,
            dims,
        })?;
        Ok(())
    }

    /// `()`
    pub fn no_params(&mut self) -> Result<(), Fault>
        ensures { Follows result (shown self.new) (rule.no_params (shown self.old)) }
    {
        self.externals.lists.push(Params::Nothing)?;
        Ok(())
    }

    /// `(void)`
    pub fn lone_void(&mut self) -> Result<(), Fault>
        ensures { Follows result (shown self.new) (rule.lone_void (shown self.old)) }
    {
        take(&mut self.expressions.types.bases)?;
        self.externals.lists.push(Params::Void)?;
        Ok(())
    }

    /// The parameters in parentheses.
    pub fn params(&mut self, alloc: Global) -> Result<(), Fault>
        ensures { Follows result (shown self.new) (rule.params (shown self.old)) }
    {
        let params = Items::from_vec(mem::replace(&mut self.externals.params, Vec::new(alloc)));
        self.externals.lists.push(Params::List(params))?;
        Ok(())
    }

    /// One more line of fields.
    pub fn field(&mut self, alloc: Global) -> Result<(), Fault>
        ensures { Follows result (shown self.new) (rule.field (shown self.old)) }
    {
        let base = take(&mut self.expressions.types.bases)?.finish();
        let declarators = Items::from_vec(mem::replace(
            &mut self.declarations.declared,
            Vec::new(alloc),
        ));
        self.externals.fields.push(Field { base, declarators })?;
        Ok(())
    }

    /// The fields in braces.
    pub fn fields(&mut self, alloc: Global) -> Result<(), Fault>
        ensures { Follows result (shown self.new) (rule.fields (shown self.old)) }
    {
        let fields = Items::from_vec(mem::replace(&mut self.externals.fields, Vec::new(alloc)));
        self.externals.body = Some(Body::Fields(fields));
        Ok(())
    }

    /// One more constant of an enum, with its value.
    pub fn enumerator_with(&mut self) -> Result<(), Fault>
        ensures { Follows result (shown self.new) (rule.enumerator_with (shown self.old)) }
    {
        let Kept { word, .. } = take(&mut self.expressions.operands.kept)?;
        let value = take(&mut self.expressions.operands.expressions)?;
        self.externals.enumerators.push(Enumerator {
            word,
            value: Some(value),
        })?;
        Ok(())
    }

    /// One more constant of an enum, without a value.
    pub fn enumerator_bare(&mut self) -> Result<(), Fault>
        ensures { Follows result (shown self.new) (rule.enumerator_bare (shown self.old)) }
    {
        let Kept { word, .. } = take(&mut self.expressions.operands.kept)?;
        self.externals
            .enumerators
            .push(Enumerator { word, value: None })?;
        Ok(())
    }

    /// The constants in braces.
    pub fn enumerators(&mut self, alloc: Global) -> Result<(), Fault>
        ensures { Follows result (shown self.new) (rule.enumerators (shown self.old)) }
    {
        let enumerators = Items::from_vec(mem::replace(
            &mut self.externals.enumerators,
            Vec::new(alloc),
        ));
        self.externals.body = Some(Body::Enumerators(enumerators));
        Ok(())
    }

    /// A base alone.
    pub fn base_alone(&mut self) -> Result<(), Fault>
        ensures { Follows result (shown self.new) (rule.base_alone (shown self.old)) }
    {
        let base = take(&mut self.expressions.types.bases)?.finish();
        let body = self.externals.body.take();
        self.externals
            .items
            .push(Item::Base(ItemBase { base, body }))?;
        Ok(())
    }

    /// Objects.
    pub fn objects(&mut self) -> Result<(), Fault>
        ensures { Follows result (shown self.new) (rule.objects (shown self.old)) }
    {
        let Declaration { base, inits } = take(&mut self.declarations.declarations)?;
        let body = self.externals.body.take();
        self.externals
            .items
            .push(Item::Objects(ItemBase { base, body }, inits))?;
        Ok(())
    }

    /// Names of types.
    pub fn typedef(&mut self, alloc: Global) -> Result<(), Fault>
        ensures { Follows result (shown self.new) (rule.typedef (shown self.old)) }
    {
        let base = take(&mut self.expressions.types.bases)?.finish();
        let body = self.externals.body.take();
        let declarators = Items::from_vec(mem::replace(
            &mut self.declarations.declared,
            Vec::new(alloc),
        ));
        self.externals
            .items
            .push(Item::Typedef(ItemBase { base, body }, declarators))?;
        Ok(())
    }

    /// A function without its body.
    pub fn prototype(&mut self) -> Result<(), Fault>
        ensures { Follows result (shown self.new) (rule.prototype (shown self.old)) }
    {
        let params = take(&mut self.externals.lists)?;
        let Kept { word, .. } = take(&mut self.expressions.operands.kept)?;
        let base = take(&mut self.expressions.types.bases)?.finish();
        let body = self.externals.body.take();
        self.externals
            .items
            .push(Item::Prototype(ItemBase { base, body }, word, params))?;
        Ok(())
    }

    /// A function.
    pub fn function(&mut self) -> Result<(), Fault>
        ensures { Follows result (shown self.new) (rule.function (shown self.old)) }
    {
        let statement = take(&mut self.statements.statements)?;
        let params = take(&mut self.externals.lists)?;
        let Kept { word, .. } = take(&mut self.expressions.operands.kept)?;
        let base = take(&mut self.expressions.types.bases)?.finish();
        let body = self.externals.body.take();
        self.externals.items.push(Item::Function(
            ItemBase { base, body },
            word,
            params,
            statement,
        ))?;
        Ok(())
    }
}
