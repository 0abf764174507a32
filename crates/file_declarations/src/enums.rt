//! Enums with their constants (C 6.7.2.2).

ghost use Rattle.std.specs.Prelude.{◌≡◌, pos, map, option_map, OnOk, IfOk};
ghost use Rattle.c_syntax.specs.Views.{enumerator_view, expr_view};
ghost use Rattle.file_typing.specs.Enumerations.{enum_defined, typed_constants, value_or};
ghost use Rattle.typing_base.specs.Follows.{Becomes};
ghost use Rattle.typing_base.specs.Views.{notes_view, qualified_view};
ghost use Rattle.file_state.specs.Indexes.{IsIndexed};
ghost use Rattle.file_state.specs.Views.{file_state_view};
ghost use Rattle.file_declarations.specs.Steps.{one_constant};

use c_syntax::{Enumerator, Expr, Word};
use expression_elaboration::constant;
use file_state::{
    FileState, begins_enum, is_int, unless_declared_in_file, with_constant, with_enum,
};
use rvt_num::Kind;
use rvt_tree::CType;
use std::alloc::Global;
use typing_base::{Fault, NamedType, Notes, QualifiedType};

fn value_or(
    alloc: Global,
    state: &FileState,
    next: i128,
    value: &Option<Expr>,
    notes: &mut Notes,
) -> Result<i128, Fault>
    ensures { Becomes (λ value. value) (value_or (file_state_view state.now) next (option_map expr_view value.now) (notes_view notes.old)) result notes.new }
{
    match value {
        None => Ok(next),
        Some(e) => {
            let n = constant(alloc, state.scope(), e, notes)?;
            Ok(n.value())
        }
    }
}

/// The value, and then the name, which is in scope from there on; the value of the next one, unless it has its own.
fn one_constant(
    alloc: Global,
    state: &mut FileState,
    next: i128,
    one: &Enumerator,
    notes: &mut Notes,
) -> Result<i128, Fault>
    requires indexed { IsIndexed state.old }
    ensures typed { Becomes (λ later. (file_state_view state.new, later)) (one_constant (file_state_view state.old) next (enumerator_view one.now) (notes_view notes.old)) result notes.new }
    ensures indexed { OnOk result (IsIndexed state.new) }
{
    let value = value_or(alloc, state, next, &one.value, notes)?;
    is_int(&one.word, value)?;
    unless_declared_in_file(alloc, state, &one.word)?;
    with_constant(state, &one.word, value)?;
    Ok(value + 1)
}

fn typed_constants(
    alloc: Global,
    state: &mut FileState,
    ones: &[Enumerator],
    notes: &mut Notes,
) -> Result<(), Fault>
    requires indexed { IsIndexed state.old }
    ensures typed { Becomes (λ _. file_state_view state.new) (typed_constants (file_state_view state.old) (pos 0) (map enumerator_view ones.now) (notes_view notes.old)) result notes.new }
    ensures indexed { OnOk result (IsIndexed state.new) }
{
    let mut next = 0i128;
    let mut rest = ones;
    'constants: while let [one, others @ ..] = rest {
        let later = one_constant(alloc, state, next, one, notes)?;
        next = later;
        rest = others;
    }
    Ok(())
}

/// An enum with its constants; its tag is known behind the braces.
pub fn enum_defined(
    alloc: Global,
    state: &mut FileState,
    tag: &Option<Word>,
    constant: bool,
    ones: &[Enumerator],
    notes: &mut Notes,
) -> Result<QualifiedType, Fault>
    requires indexed { IsIndexed state.old }
    ensures defined { Becomes (λ type. record { file = file_state_view state.new; type = qualified_view type }) (enum_defined (file_state_view state.old) tag.now constant (map enumerator_view ones.now) (notes_view notes.old)) result notes.new }
    ensures indexed { OnOk result (IsIndexed state.new) }
{
    begins_enum(alloc, state, tag)?;
    typed_constants(alloc, state, ones, notes)?;
    with_enum(state, tag)?;
    Ok(QualifiedType {
        named: NamedType::Type(CType::Word(Kind::I32)),
        constant,
    })
}
