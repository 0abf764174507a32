//! The bodies of structs (C 6.7.2.1).

ghost use Rattle.std.specs.Prelude.{◌≡◌, ◌++◌, length, map, IfOk, OnOk};
ghost use Rattle.std.specs.List.{repeat};
ghost use Rattle.c_types.specs.Layout.{shape_of};
ghost use Rattle.file_typing.specs.Structs.{body_begun, body_ended, cell_kinds, completed, contents_of_struct, has_field, with_field};
ghost use Rattle.std.specs.Prelude.{Some, slice_get};
ghost use Rattle.file_state.specs.Indexes.{IsIndexed};
ghost use Rattle.file_state.specs.Views.{file_state_view, members_view, struct_entry_view};

use crate::entries::Members;
use crate::states::FileState;
use crate::tags::{at, tagged_with};
use c_syntax::Word;
use rvt_num::Kind;
use rvt_tree::{CType, Name};
use std::alloc::{AllocError, Global};
use typing_base::{Field, Structure, copied_name};

/// The body of the file's next struct begins; its number.
pub fn body_begun(state: &mut FileState, tag: &Option<Word>) -> Result<u32, AllocError>
    requires indexed { IsIndexed state.old }
    ensures number { IfOk result (λ number. number ≡ state.old.bodies) }
    ensures begun { OnOk result (file_state_view state.new ≡ body_begun tag.now (file_state_view state.old)) }
    ensures indexed { OnOk result (IsIndexed state.new) }
{
    let number = state.bodies;
    if number == 4_294_967_295 {
        return Err(AllocError);
    }
    tagged_with(state, tag, number)?;
    state.bodies = number + 1;
    Ok(number)
}

fn complete(structure: &mut Structure, members: Members, cells: u32)
    requires { cells ≡ length members.contents.items }
    ensures { struct_entry_view structure.new ≡ completed (Some (struct_entry_view structure.old)) (members_view members) }
{
    structure.fields = members.fields;
    structure.contents = members.contents;
    structure.cells = Some(cells);
}

/// A struct has its body.
#[tactic(auto, using(crate::proofs::Completed::entry_set, crate::proofs::Completed::still_numbered))]
pub fn body_ended(state: &mut FileState, number: u32, members: Members) -> Result<(), AllocError>
    requires indexed { IsIndexed state.old }
    ensures ended { OnOk result (file_state_view state.new ≡ body_ended number (members_view members) (file_state_view state.old)) }
    ensures indexed { OnOk result (IsIndexed state.new) }
{
    let cells = members.contents.len();
    if cells > 4_294_967_295 {
        return Err(AllocError);
    }
    let place = number as usize;
    if place < state.environment.structs.len() {
        complete(&mut state.environment.structs[place], members, cells as u32);
    }
    Ok(())
}

fn push_contents(
    structs: &[Structure],
    number: u32,
    kinds: &mut Vec<Kind>,
) -> Result<(), AllocError>
    ensures { OnOk result (kinds.new.items ≡ kinds.old.items ++ contents_of_struct (slice_get (map struct_entry_view structs.now) number)) }
{
    match at(structs, number as usize) {
        Some(structure) => {
            kinds.extend_from_slice(structure.contents.as_slice())?;
            Ok(())
        }
        None => Ok(()),
    }
}

fn push_repeated(kinds: &mut Vec<Kind>, item: &[Kind], count: u32) -> Result<(), AllocError>
    ensures { OnOk result (kinds.new.items ≡ kinds.old.items ++ repeat count item.now) }
{
    let mut left = count;
    'items: while left > 0 {
        kinds.extend_from_slice(item)?;
        left -= 1;
    }
    Ok(())
}

/// The kinds of the cells of a type of an object or a field, in order.
pub fn cell_kinds(alloc: Global, structs: &[Structure], ty: &CType) -> Result<Vec<Kind>, AllocError>
    ensures { IfOk result (λ kinds. kinds.items ≡ cell_kinds (map struct_entry_view structs.now) (shape_of ty.now)) }
{
    let mut kinds = Vec::new(alloc);
    match ty {
        CType::Word(kind) => {
            kinds.push(*kind)?;
            Ok(kinds)
        }
        CType::Pointer(_, _) => Ok(kinds),
        CType::Array(item, count) => {
            let item = cell_kinds(alloc, structs, item)?;
            push_repeated(&mut kinds, item.as_slice(), *count)?;
            Ok(kinds)
        }
        CType::Struct(number) => {
            push_contents(structs, *number, &mut kinds)?;
            Ok(kinds)
        }
    }
}

/// Whether a field has the name.
pub fn has_field(members: &Members, name: &[u8]) -> bool
    ensures { result ≡ has_field (members_view members.now) name.now }
{
    let mut rest = members.fields.as_slice();
    'fields: while let [field, others @ ..] = rest {
        if field.name.is(name) {
            return true;
        }
        rest = others;
    }
    false
}

/// One more field.
pub fn with_field(
    alloc: Global,
    structs: &[Structure],
    name: &Name,
    ty: CType,
    members: &mut Members,
) -> Result<(), AllocError>
    ensures { OnOk result (members_view members.new ≡ with_field (map struct_entry_view structs.now) name.now (shape_of ty) (members_view members.old)) }
{
    let number = members.fields.len();
    let cell = members.contents.len();
    if number > 4_294_967_295 || cell > 4_294_967_295 {
        return Err(AllocError);
    }
    let name = copied_name(alloc, name)?;
    let kinds = cell_kinds(alloc, structs, &ty)?;
    members.fields.push(Field {
        name,
        ty,
        number: number as u32,
        cell: cell as u32,
    })?;
    members.contents.extend_from_slice(kinds.as_slice())?;
    Ok(())
}
