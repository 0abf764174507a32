//! Objects of the file (C 6.7, 6.9.2).

ghost use Rattle.std.specs.Prelude.{◌≡◌, ◌++◌, ◌∷◌, [], map, option_map, IfOk, OnOk};
ghost use Rattle.c_syntax.specs.Views.{init_view, value_view};
ghost use Rattle.std.specs.Prelude.{pos};
ghost use Rattle.rvt_num.specs.declared.values.Value.TheVariants as V;
ghost use Rattle.c_types.specs.Layout.{shape_of};
ghost use Rattle.file_typing.specs.Objects.{initial_contents, object_of, typed_object, typed_objects, with_object_made, with_object_named, zeros};
ghost use Rattle.typing_base.specs.Follows.{Becomes};
ghost use Rattle.typing_base.specs.Views.{notes_view, qualified_view};
ghost use Rattle.declarator_types.specs.Views.{value_type_view};
ghost use Rattle.file_state.specs.Indexes.{IsIndexed};
ghost use Rattle.file_state.specs.Views.{file_state_view, struct_entry_view};

use crate::copies::copied;
use c_syntax::{Init, Word};
use declarator_types::{
    Asked, Sort, ValueType, contents_of, size_of, type_of_declarator, typed_initializer,
};
use file_state::{FileState, cell_kinds, copied_type, unless_declared_in_file, with_name};
use rvt_num::{Kind, Num, Value};
use rvt_tree::{CType, Object};
use sqlite_items::Items;
use std::alloc::{AllocError, Global};
use typing_base::{Entity, Fault, Notes, QualifiedType, Structure, copied_name};

fn zero(kind: Kind) -> Value
    ensures { result ≡ V.Num (record { kind = kind; value = pos 0 }) }
{
    Value::Num(Num::wrapped(kind, 0))
}

/// The contents of an object without an initializer.
fn zeros(alloc: Global, structs: &[Structure], ty: &CType) -> Result<Vec<Value>, AllocError>
    ensures { IfOk result (λ contents. contents.items ≡ zeros (map struct_entry_view structs.now) (shape_of ty.now)) }
{
    let kinds = cell_kinds(alloc, structs, ty)?;
    let mut contents = Vec::new(alloc);
    let mut rest = kinds.as_slice();
    'kinds: while let [kind, others @ ..] = rest {
        contents.push(zero(*kind))?;
        rest = others;
    }
    Ok(contents)
}

fn initial_contents(
    alloc: Global,
    state: &FileState,
    ty: &ValueType,
    value: &Option<c_syntax::Value>,
    notes: &mut Notes,
) -> Result<Vec<Value>, Fault>
    ensures { Becomes (λ contents. contents.items) (initial_contents (file_state_view state.now) (value_type_view ty.now) (option_map value_view value.now) (notes_view notes.old)) result notes.new }
{
    match value {
        None => {
            let zeros = zeros(alloc, state.structs(), &ty.ty)?;
            Ok(zeros)
        }
        Some(i) => {
            let i = typed_initializer(alloc, state.scope(), Asked::Constant, &ty.ty, i, notes)?;
            let zeros = zeros(alloc, state.structs(), &ty.ty)?;
            let contents = contents_of(alloc, &i, &zeros)?;
            Ok(contents)
        }
    }
}

/// An object is in scope from its own initializer on.
fn with_object_named(
    alloc: Global,
    state: &mut FileState,
    word: &Word,
    ty: &ValueType,
) -> Result<(), AllocError>
    requires indexed { IsIndexed state.old }
    ensures named { OnOk result (file_state_view state.new ≡ with_object_named word.now (value_type_view ty.now) (file_state_view state.old)) }
    ensures indexed { OnOk result (IsIndexed state.new) }
{
    let number = state.objects.len();
    if number > 4_294_967_295 {
        return Err(AllocError);
    }
    let copy = copied_type(alloc, &ty.ty)?;
    let entity = Entity::Object(number as u32, copy, ty.constant);
    with_name(state, &word.name, entity)?;
    Ok(())
}

/// Whether its address is taken is known at the end of the file.
fn with_object_made(
    alloc: Global,
    state: &mut FileState,
    word: &Word,
    ty: ValueType,
    contents: Vec<Value>,
) -> Result<(), AllocError>
    requires indexed { IsIndexed state.old }
    ensures made { OnOk result (file_state_view state.new ≡ with_object_made (object_of word.now (value_type_view ty) contents.items) (file_state_view state.old)) }
    ensures indexed { OnOk result (IsIndexed state.new) }
{
    let name = copied_name(alloc, &word.name)?;
    state.objects.push(Object {
        name,
        ty: ty.ty,
        constant: ty.constant,
        addressable: false,
        owner: None,
        initial: Items::from_vec(contents),
    })?;
    Ok(())
}

/// The lengths, the type, the name, and then the initializer.
fn typed_object(
    alloc: Global,
    state: &mut FileState,
    base: &QualifiedType,
    init: &Init,
    notes: &mut Notes,
) -> Result<(), Fault>
    requires indexed { IsIndexed state.old }
    ensures typed { Becomes (λ _. file_state_view state.new) (typed_object (file_state_view state.old) (qualified_view base.now) (init_view init.now) (notes_view notes.old)) result notes.new }
    ensures indexed { OnOk result (IsIndexed state.new) }
{
    let word = &init.declarator.word;
    let base = copied(alloc, base)?;
    let ty = type_of_declarator(alloc, Sort::Object, state.scope(), base, init, notes)?;
    unless_declared_in_file(alloc, state, word)?;
    let size = size_of(state.structs(), &ty.ty)?;
    notes.add_object(word.place, size)?;
    with_object_named(alloc, state, word, &ty)?;
    let contents = initial_contents(alloc, state, &ty, &init.value, notes)?;
    with_object_made(alloc, state, word, ty, contents)?;
    Ok(())
}

/// Objects of one declaration.
pub fn typed_objects(
    alloc: Global,
    state: &mut FileState,
    base: &QualifiedType,
    inits: &[Init],
    notes: &mut Notes,
) -> Result<(), Fault>
    requires indexed { IsIndexed state.old }
    ensures typed { Becomes (λ _. file_state_view state.new) (typed_objects (file_state_view state.old) (qualified_view base.now) (map init_view inits.now) (notes_view notes.old)) result notes.new }
    ensures indexed { OnOk result (IsIndexed state.new) }
{
    let mut rest = inits;
    'objects: while let [init, others @ ..] = rest {
        typed_object(alloc, state, base, init, notes)?;
        rest = others;
    }
    Ok(())
}
