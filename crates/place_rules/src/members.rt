//! `s.f` and `p->f` (C 6.5.2.3).

ghost use Rattle.std.specs.Prelude.{◌≡◌, map, option_map, slice_get};
ghost use Rattle.expression_typing.specs.Entities.{field_in, fields_of};
ghost use Rattle.expression_typing.specs.StructMembers.{field_named, member_of, arrow_of};
ghost use Rattle.typing_base.specs.Views.{field_view, operand_view, structures_view};
ghost use Rattle.typing_base.specs.Follows.{Gives, GivesOperand};

use crate::operands::place_type;
use c_syntax::Word;
use rvt_tree::{Lvalue, Place, Pointee};
use std::alloc::Global;
use typing_base::{
    Cause, Fault, Field, Operand, PlaceType, Structure, broken, copied_name, pointee_cells,
    wrong_type,
};

/// The fields of a struct, and none where there is no such struct.
fn fields_of<'t>(structs: &'t [Structure], number: u32) -> &'t [Field]
    ensures { map field_view result.now ≡ fields_of (slice_get (structures_view structs.now) number) }
{
    match structs.get(number as usize) {
        Some(structure) => structure.fields.as_slice(),
        None => &[],
    }
}

fn field_in<'t>(fields: &'t [Field], name: &[u8]) -> Option<&'t Field>
    ensures { option_map (λ field. field_view field.now) result ≡ field_in (map field_view fields.now) name.now }
{
    let mut rest = fields;
    while let [field, others @ ..] = rest {
        if field.name.is(name) {
            return Some(field);
        }
        rest = others;
    }
    None
}

/// The field of this name.
fn field_named<'t>(
    alloc: Global,
    structs: &'t [Structure],
    number: u32,
    word: &Word,
) -> Result<&'t Field, Fault>
    ensures { Gives (λ field. field_view field.now) (field_named (structures_view structs.now) number word.now) result }
{
    match field_in(fields_of(structs, number), word.name.bytes()) {
        Some(field) => Ok(field),
        None => {
            let name = copied_name(alloc, &word.name)?;
            Err(broken(Cause::UnknownName(name), word.place))
        }
    }
}

/// A member of a struct.
pub fn member_of<'t>(
    alloc: Global,
    structs: &'t [Structure],
    at: Place,
    word: &Word,
    operand: Operand<'t>,
) -> Result<Operand<'t>, Fault>
    ensures { GivesOperand (member_of (structures_view structs.now) at word.now (operand_view operand.entry)) result }
{
    match operand {
        Operand::Place(ty, fixed, aggregate) => match ty {
            PlaceType::Struct(number) => {
                let field = field_named(alloc, structs, number, word)?;
                let aggregate = Box::new(alloc, aggregate)?;
                let member = Lvalue::Member(aggregate, field.number, field.cell);
                Ok(Operand::Place(place_type(&field.ty), fixed, member))
            }
            _ => Err(wrong_type(at)),
        },
        _ => Err(wrong_type(at)),
    }
}

/// A member of a struct that is pointed to, and complete.
pub fn arrow_of<'t>(
    alloc: Global,
    structs: &'t [Structure],
    at: Place,
    word: &Word,
    operand: Operand<'t>,
) -> Result<Operand<'t>, Fault>
    ensures { GivesOperand (arrow_of (structures_view structs.now) at word.now (operand_view operand.entry)) result }
{
    match operand {
        Operand::Pointer(pointee, to_constant, pointer) => match pointee {
            Pointee::Struct(number) => {
                pointee_cells(structs, at, Pointee::Struct(number))?;
                let field = field_named(alloc, structs, number, word)?;
                let pointer = Box::new(alloc, pointer)?;
                let member = Lvalue::Arrow(pointer, number, field.number, field.cell);
                Ok(Operand::Place(place_type(&field.ty), to_constant, member))
            }
            Pointee::Word(_) => Err(wrong_type(at)),
        },
        _ => Err(wrong_type(at)),
    }
}
