//! Typedefs (C 6.7.8).

ghost use Rattle.std.specs.Prelude.{◌≡◌, map, OnOk};
ghost use Rattle.c_syntax.specs.Views.{declarator_view};
ghost use Rattle.file_typing.specs.Typedefs.{typed_typedef, typed_typedefs};
ghost use Rattle.typing_base.specs.Follows.{Becomes};
ghost use Rattle.typing_base.specs.Views.{notes_view, qualified_view};
ghost use Rattle.file_state.specs.Indexes.{IsIndexed};
ghost use Rattle.file_state.specs.Views.{file_state_view};

use crate::copies::copied;
use c_syntax::Declarator;
use declarator_types::{Sort, declared_type};
use expression_elaboration::{lengths, pointed};
use file_state::{FileState, unless_declared_in_file, with_name};
use std::alloc::Global;
use typing_base::{Entity, Fault, Notes, QualifiedType};

fn typed_typedef(
    alloc: Global,
    state: &mut FileState,
    base: &QualifiedType,
    declarator: &Declarator,
    notes: &mut Notes,
) -> Result<(), Fault>
    requires indexed { IsIndexed state.old }
    ensures typed { Becomes (λ _. file_state_view state.new) (typed_typedef (file_state_view state.old) (qualified_view base.now) (declarator_view declarator.now) (notes_view notes.old)) result notes.new }
    ensures indexed { OnOk result (IsIndexed state.new) }
{
    let counts = lengths(alloc, state.scope(), &declarator.dims, notes)?;
    let base = copied(alloc, base)?;
    let at = declarator.word.place;
    let whole = pointed(declarator.pointer, base);
    let ty = declared_type(alloc, Sort::Typedef, state.structs(), at, whole, &counts)?;
    unless_declared_in_file(alloc, state, &declarator.word)?;
    with_name(state, &declarator.word.name, Entity::Typedef(ty))?;
    Ok(())
}

/// Names for types.
pub fn typed_typedefs(
    alloc: Global,
    state: &mut FileState,
    base: &QualifiedType,
    declarators: &[Declarator],
    notes: &mut Notes,
) -> Result<(), Fault>
    requires indexed { IsIndexed state.old }
    ensures typed { Becomes (λ _. file_state_view state.new) (typed_typedefs (file_state_view state.old) (qualified_view base.now) (map declarator_view declarators.now) (notes_view notes.old)) result notes.new }
    ensures indexed { OnOk result (IsIndexed state.new) }
{
    let mut rest = declarators;
    'declarators: while let [declarator, others @ ..] = rest {
        typed_typedef(alloc, state, base, declarator, notes)?;
        rest = others;
    }
    Ok(())
}
