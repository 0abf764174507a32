//! The actions on types.

ghost use Rattle.std.specs.Prelude.{◌≡◌};
ghost use Rattle.c_syntax.specs.Views.{dim_view};
ghost use Rattle.expression_actions.specs.TypeRules as rule;
ghost use Rattle.expression_actions.specs.TypeRules.{no_types_read};
ghost use Rattle.expression_actions.specs.Follows.{Follows};
ghost use Rattle.expression_actions.specs.Shown.{types_shown};

use crate::faults::{Fault, take};
use crate::half_bases::HalfBase;
use crate::kept_tokens::word;
use crate::token_words::type_word_of;
use c_syntax::{Dim, Pointer, Specifier, TypeName, builders};
use c_tokens::TokenClass;
use rvt_tree::Place;
use std::alloc::Global;
use value_stack::Stack;

/// What was read of types and has no place in a tree yet.
#[derive(Drop)]
pub struct Types {
    pub bases: Stack<HalfBase>,
    pub pointers: Stack<Option<Pointer>>,
    /// The dimensions of declarators and of types.
    pub dims: Stack<Vec<Dim>>,
    pub names: Stack<TypeName>,
}

impl Types {
    /// Before the first token.
    pub fn new(alloc: Global) -> Types
        ensures { types_shown result ≡ no_types_read }
    {
        Types {
            bases: Stack::new(alloc),
            pointers: Stack::new(alloc),
            dims: Stack::new(alloc),
            names: Stack::new(alloc),
        }
    }

    // ---- bases

    /// A base begins.
    pub fn new_base(&mut self, alloc: Global) -> Result<(), Fault>
        ensures { Follows result (types_shown self.new) (rule.new_base (types_shown self.old)) }
    {
        self.bases.push(HalfBase::new(alloc))?;
        Ok(())
    }

    /// The word `struct` or `enum` at this place.
    pub fn begin(&mut self, place: Place) -> Result<(), Fault>
        ensures { Follows result (types_shown self.new) (rule.begin place (types_shown self.old)) }
    {
        let mut base = take(&mut self.bases)?;
        base.begin(place);
        self.bases.push(base)?;
        Ok(())
    }

    /// `const` in a base.
    pub fn constant(&mut self, place: Place) -> Result<(), Fault>
        ensures { Follows result (types_shown self.new) (rule.constant place (types_shown self.old)) }
    {
        let mut base = take(&mut self.bases)?;
        base.begin(place);
        base.constant = true;
        self.bases.push(base)?;
        Ok(())
    }

    /// A type word.
    pub fn type_word(&mut self, class: TokenClass, place: Place) -> Result<(), Fault>
        ensures { Follows result (types_shown self.new) (rule.type_word class place (types_shown self.old)) }
    {
        let mut base = take(&mut self.bases)?;
        base.begin(place);
        base.words.push(type_word_of(class))?;
        self.bases.push(base)?;
        Ok(())
    }

    /// The name of a typedef.
    pub fn named(&mut self, alloc: Global, text: &[u8], place: Place) -> Result<(), Fault>
        ensures { Follows result (types_shown self.new) (rule.named text.now place (types_shown self.old)) }
    {
        let mut base = take(&mut self.bases)?;
        base.begin(place);
        base.tag = Some(Specifier::Named(word(alloc, text, place)?));
        self.bases.push(base)?;
        Ok(())
    }

    /// The tag of a struct.
    pub fn struct_tag(&mut self, alloc: Global, text: &[u8], place: Place) -> Result<(), Fault>
        ensures { Follows result (types_shown self.new) (rule.struct_tag text.now place (types_shown self.old)) }
    {
        let tag = Some(word(alloc, text, place)?);
        self.tag(Specifier::Struct(tag))
    }

    /// A struct without a tag.
    pub fn no_struct_tag(&mut self) -> Result<(), Fault>
        ensures { Follows result (types_shown self.new) (rule.no_struct_tag (types_shown self.old)) }
    {
        self.tag(Specifier::Struct(None))
    }

    /// The tag of an enum.
    pub fn enum_tag(&mut self, alloc: Global, text: &[u8], place: Place) -> Result<(), Fault>
        ensures { Follows result (types_shown self.new) (rule.enum_tag text.now place (types_shown self.old)) }
    {
        let tag = Some(word(alloc, text, place)?);
        self.tag(Specifier::Enum(tag))
    }

    /// An enum without a tag.
    pub fn no_enum_tag(&mut self) -> Result<(), Fault>
        ensures { Follows result (types_shown self.new) (rule.no_enum_tag (types_shown self.old)) }
    {
        self.tag(Specifier::Enum(None))
    }

    fn tag(&mut self, tag: Specifier) -> Result<(), Fault>
        ensures { Follows result (types_shown self.new) (rule.tag tag (types_shown self.old)) }
    {
        let mut base = take(&mut self.bases)?;
        base.tag = Some(tag);
        self.bases.push(base)?;
        Ok(())
    }

    // ---- pointers

    /// The `*` of a declarator.
    pub fn pointer(&mut self, place: Place) -> Result<(), Fault>
        ensures { Follows result (types_shown self.new) (rule.pointer place (types_shown self.old)) }
    {
        let constant = false;
        self.pointers.push(Some(Pointer { place, constant }))?;
        Ok(())
    }

    pub fn no_pointer(&mut self) -> Result<(), Fault>
        ensures { Follows result (types_shown self.new) (rule.no_pointer (types_shown self.old)) }
    {
        self.pointers.push(None)?;
        Ok(())
    }

    /// `const` after a `*`.
    pub fn pointer_constant(&mut self) -> Result<(), Fault>
        ensures { Follows result (types_shown self.new) (rule.pointer_constant (types_shown self.old)) }
    {
        let pointer = take(&mut self.pointers)?;
        self.pointers.push(constant_pointer(pointer))?;
        Ok(())
    }

    // ---- dimensions and types

    /// The dimensions of a declarator begin.
    pub fn no_dims(&mut self, alloc: Global) -> Result<(), Fault>
        ensures { Follows result (types_shown self.new) (rule.no_dims (types_shown self.old)) }
    {
        self.dims.push(Vec::new(alloc))?;
        Ok(())
    }

    /// One dimension more.
    pub fn add_dim(&mut self, dim: Dim) -> Result<(), Fault>
        ensures { Follows result (types_shown self.new) (rule.add_dim (dim_view dim) (types_shown self.old)) }
    {
        let mut dims = take(&mut self.dims)?;
        dims.push(dim)?;
        self.dims.push(dims)?;
        Ok(())
    }

    /// A type that is named in an expression.
    pub fn type_name(&mut self, alloc: Global) -> Result<(), Fault>
        ensures { Follows result (types_shown self.new) (rule.type_name (types_shown self.old)) }
    {
        let base = take(&mut self.bases)?.finish();
        let pointer = take(&mut self.pointers)?;
        let dims = take(&mut self.dims)?;
        let dims = builders::dimensions(alloc, dims)?;
        self.names.push(TypeName {
            base,
            pointer,
            dims,
        })?;
        Ok(())
    }
}

/// A pointer after whose `*` stands `const`.
fn constant_pointer(pointer: Option<Pointer>) -> Option<Pointer>
    ensures { result ≡ rule.constant_pointer pointer }
{
    let Pointer { place, .. } = pointer?;
    let constant = true;
    Some(Pointer { place, constant })
}
