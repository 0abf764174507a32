//! The structs of both files in one program.

ghost use Rattle.std.specs.Prelude.{◌≡◌, ◌++◌, map, IfOk, OnOk};
ghost use Rattle.joint_programs.specs.Parts.{field_parts, struct_parts};
ghost use Rattle.joint_programs.specs.Views.{view_of};
ghost use Rattle.joint_programs.specs.Structs.{number_across as number_there, field_across as field_there, struct_across as struct_there, joint_structs as structs_of_both};

use crate::sides::Side;
use crate::types::{copy_of, type_across};
use rvt_tree::{CType, Name, StructDef, Structs};
use sqlite_items::Items;
use std::alloc::{AllocError, Global};

/// The structs of ours, and behind them those of theirs.
pub fn joint_structs(alloc: Global, side: &Side) -> Result<Structs, AllocError>
    ensures { IfOk result (λ structs. map struct_parts structs.list ≡ structs_of_both (view_of side.now)) }
{
    let mut list = Vec::new(alloc);
    push_ours(alloc, side.ours.structs.list.as_slice(), &mut list)?;
    push_theirs(alloc, side, &mut list)?;
    Ok(Structs {
        list: Items::from_vec(list),
    })
}

fn push_ours(
    alloc: Global,
    structs: &[StructDef],
    list: &mut Vec<StructDef>,
) -> Result<(), AllocError>
    ensures { OnOk result (map struct_parts list.new.items ≡ map struct_parts list.old.items ++ map struct_parts structs.now) }
{
    let mut left = structs;
    'structs: while let Some((first, rest)) = left.split_first() {
        let copy = struct_copy(alloc, first)?;
        list.push(copy)?;
        left = rest;
    }
    Ok(())
}

fn push_theirs(alloc: Global, side: &Side, list: &mut Vec<StructDef>) -> Result<(), AllocError>
    ensures { OnOk result (map struct_parts list.new.items ≡ map struct_parts list.old.items ++ map (λ s. struct_there (number_there (view_of side.now)) (struct_parts s)) side.now.theirs.now.structs.list) }
{
    let mut left = side.theirs.structs.list.as_slice();
    'structs: while let Some((first, rest)) = left.split_first() {
        let copy = struct_across(alloc, side, first)?;
        list.push(copy)?;
        left = rest;
    }
    Ok(())
}

fn struct_copy(alloc: Global, definition: &StructDef) -> Result<StructDef, AllocError>
    ensures { IfOk result (λ copy. struct_parts copy ≡ struct_parts definition.now) }
{
    let tag = Name::new(alloc, definition.tag.bytes())?;
    let fields = fields_copied(alloc, definition.fields.as_slice())?;
    Ok(StructDef {
        tag,
        tagged: definition.tagged,
        complete: definition.complete,
        fields: Items::from_vec(fields),
    })
}

fn fields_copied(alloc: Global, fields: &[(Name, CType)]) -> Result<Vec<(Name, CType)>, AllocError>
    ensures { IfOk result (λ copies. map field_parts copies.items ≡ map field_parts fields.now) }
{
    let mut copies = Vec::new(alloc);
    let mut left = fields;
    'fields: while let Some((first, rest)) = left.split_first() {
        let copy = field_copy(alloc, first)?;
        copies.push(copy)?;
        left = rest;
    }
    Ok(copies)
}

fn field_copy(alloc: Global, field: &(Name, CType)) -> Result<(Name, CType), AllocError>
    ensures { IfOk result (λ copy. field_parts copy ≡ field_parts field.now) }
{
    let name = Name::new(alloc, field.0.bytes())?;
    let ty = copy_of(alloc, &field.1)?;
    Ok((name, ty))
}

fn struct_across(
    alloc: Global,
    side: &Side,
    definition: &StructDef,
) -> Result<StructDef, AllocError>
    ensures { IfOk result (λ copy. struct_parts copy ≡ struct_there (number_there (view_of side.now)) (struct_parts definition.now)) }
{
    let tag = Name::new(alloc, definition.tag.bytes())?;
    let fields = fields_across(alloc, side, definition.fields.as_slice())?;
    Ok(StructDef {
        tag,
        tagged: definition.tagged,
        complete: definition.complete,
        fields: Items::from_vec(fields),
    })
}

fn fields_across(
    alloc: Global,
    side: &Side,
    fields: &[(Name, CType)],
) -> Result<Vec<(Name, CType)>, AllocError>
    ensures { IfOk result (λ copies. map field_parts copies.items ≡ map (field_there (number_there (view_of side.now))) (map field_parts fields.now)) }
{
    let mut copies = Vec::new(alloc);
    let mut left = fields;
    'fields: while let Some((first, rest)) = left.split_first() {
        let copy = field_across(alloc, side, first)?;
        copies.push(copy)?;
        left = rest;
    }
    Ok(copies)
}

fn field_across(
    alloc: Global,
    side: &Side,
    field: &(Name, CType),
) -> Result<(Name, CType), AllocError>
    ensures { IfOk result (λ copy. field_parts copy ≡ field_there (number_there (view_of side.now)) (field_parts field.now)) }
{
    let name = Name::new(alloc, field.0.bytes())?;
    let ty = type_across(alloc, side, &field.1)?;
    Ok((name, ty))
}
