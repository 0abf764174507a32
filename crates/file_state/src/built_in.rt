//! The names that are declared before the first line of a file (C 7.18 to 7.20).

ghost use Rattle.std.specs.Prelude.{◌≡◌, ◌∷◌, ◌++◌, [], codes, map, pos, neg_ℤ, IfOk, OnOk};
ghost use Rattle.rvt_num.specs.Wrapping.{wrapped};
ghost use Rattle.rvt_num.specs.declared.kinds.Kind.TheVariants as K;
ghost use Rattle.expression_typing.specs.BuiltIn.{built_in_constants, built_in_names, built_in_types, constant_name_of, greatest_of, least_of, type_name_of};
ghost use Rattle.expression_typing.specs.Entities.{a_constant, the_null};
ghost use Rattle.typing_base.specs.Views.{binding_view};

use name_scopes::Scopes;
use rvt_num::{Kind, Num};
use rvt_tree::CType;
use std::alloc::{AllocError, Global};
use typing_base::{Entity, NamedType, QualifiedType};

fn name_type(names: &mut Scopes<Entity>, name: &[u8], kind: Kind) -> Result<(), AllocError>
    ensures { OnOk result (map binding_view names.new ≡ type_name_of name.now kind ∷ map binding_view names.old) }
{
    let ty = QualifiedType {
        named: NamedType::Type(CType::Word(kind)),
        constant: false,
    };
    names.declare(name, Entity::Typedef(ty))?;
    Ok(())
}

fn name_constant(
    names: &mut Scopes<Entity>,
    name: &[u8],
    kind: Kind,
    value: i128,
) -> Result<(), AllocError>
    ensures { OnOk result (map binding_view names.new ≡ record { name = name.now; entity = a_constant (wrapped kind value) } ∷ map binding_view names.old) }
{
    names.declare(name, Entity::Constant(Num::wrapped(kind, value)))?;
    Ok(())
}

fn name_sizes(names: &mut Scopes<Entity>) -> Result<(), AllocError>
    ensures { OnOk result (map binding_view names.new ≡ type_name_of (codes "size_t") K.U64 ∷ type_name_of (codes "bool") K.Bool ∷ map binding_view names.old) }
{
    name_type(names, b"bool", Kind::Bool)?;
    name_type(names, b"size_t", Kind::U64)?;
    Ok(())
}

fn name_short_types(names: &mut Scopes<Entity>) -> Result<(), AllocError>
    ensures { OnOk result (map binding_view names.new ≡ type_name_of (codes "int8_t") K.I8 ∷ type_name_of (codes "uint8_t") K.U8 ∷ type_name_of (codes "int16_t") K.I16 ∷ type_name_of (codes "uint16_t") K.U16 ∷ map binding_view names.old) }
{
    name_type(names, b"uint16_t", Kind::U16)?;
    name_type(names, b"int16_t", Kind::I16)?;
    name_type(names, b"uint8_t", Kind::U8)?;
    name_type(names, b"int8_t", Kind::I8)?;
    Ok(())
}

fn name_long_types(names: &mut Scopes<Entity>) -> Result<(), AllocError>
    ensures { OnOk result (map binding_view names.new ≡ type_name_of (codes "int32_t") K.I32 ∷ type_name_of (codes "uint32_t") K.U32 ∷ type_name_of (codes "int64_t") K.I64 ∷ type_name_of (codes "uint64_t") K.U64 ∷ map binding_view names.old) }
{
    name_type(names, b"uint64_t", Kind::U64)?;
    name_type(names, b"int64_t", Kind::I64)?;
    name_type(names, b"uint32_t", Kind::U32)?;
    name_type(names, b"int32_t", Kind::I32)?;
    Ok(())
}

fn name_truth(names: &mut Scopes<Entity>) -> Result<(), AllocError>
    ensures { OnOk result (map binding_view names.new ≡ constant_name_of (codes "true") K.I32 (pos 1) ∷ constant_name_of (codes "false") K.I32 (pos 0) ∷ record { name = codes "NULL"; entity = the_null } ∷ map binding_view names.old) }
{
    names.declare(b"NULL", Entity::Null)?;
    name_constant(names, b"false", Kind::I32, 0)?;
    name_constant(names, b"true", Kind::I32, 1)?;
    Ok(())
}

fn name_limits_of_8(names: &mut Scopes<Entity>) -> Result<(), AllocError>
    ensures { OnOk result (map binding_view names.new ≡ least_of (codes "INT8_MIN") K.I8 ∷ greatest_of (codes "INT8_MAX") K.I8 ∷ greatest_of (codes "UINT8_MAX") K.U8 ∷ map binding_view names.old) }
{
    name_constant(names, b"UINT8_MAX", Kind::I32, 0xff)?;
    name_constant(names, b"INT8_MAX", Kind::I32, 0x7f)?;
    name_constant(names, b"INT8_MIN", Kind::I32, -0x80)?;
    Ok(())
}

fn name_limits_of_16(names: &mut Scopes<Entity>) -> Result<(), AllocError>
    ensures { OnOk result (map binding_view names.new ≡ least_of (codes "INT16_MIN") K.I16 ∷ greatest_of (codes "INT16_MAX") K.I16 ∷ greatest_of (codes "UINT16_MAX") K.U16 ∷ map binding_view names.old) }
{
    name_constant(names, b"UINT16_MAX", Kind::I32, 0xffff)?;
    name_constant(names, b"INT16_MAX", Kind::I32, 0x7fff)?;
    name_constant(names, b"INT16_MIN", Kind::I32, -0x8000)?;
    Ok(())
}

fn name_limits_of_32(names: &mut Scopes<Entity>) -> Result<(), AllocError>
    ensures { OnOk result (map binding_view names.new ≡ least_of (codes "INT32_MIN") K.I32 ∷ greatest_of (codes "INT32_MAX") K.I32 ∷ greatest_of (codes "UINT32_MAX") K.U32 ∷ map binding_view names.old) }
{
    name_constant(names, b"UINT32_MAX", Kind::U32, 0xffff_ffff)?;
    name_constant(names, b"INT32_MAX", Kind::I32, 0x7fff_ffff)?;
    name_constant(names, b"INT32_MIN", Kind::I32, -0x8000_0000)?;
    Ok(())
}

fn name_limits_of_64(names: &mut Scopes<Entity>) -> Result<(), AllocError>
    ensures { OnOk result (map binding_view names.new ≡ least_of (codes "INT64_MIN") K.I64 ∷ greatest_of (codes "INT64_MAX") K.I64 ∷ greatest_of (codes "UINT64_MAX") K.U64 ∷ greatest_of (codes "SIZE_MAX") K.U64 ∷ map binding_view names.old) }
{
    name_constant(names, b"SIZE_MAX", Kind::U64, 0xffff_ffff_ffff_ffff)?;
    name_constant(names, b"UINT64_MAX", Kind::U64, 0xffff_ffff_ffff_ffff)?;
    name_constant(names, b"INT64_MAX", Kind::I64, 0x7fff_ffff_ffff_ffff)?;
    name_constant(names, b"INT64_MIN", Kind::I64, -0x8000_0000_0000_0000)?;
    Ok(())
}

fn name_constants(names: &mut Scopes<Entity>) -> Result<(), AllocError>
    ensures { OnOk result (map binding_view names.new ≡ built_in_constants ++ map binding_view names.old) }
{
    name_limits_of_64(names)?;
    name_limits_of_32(names)?;
    name_limits_of_16(names)?;
    name_limits_of_8(names)?;
    name_truth(names)?;
    Ok(())
}

fn name_types(names: &mut Scopes<Entity>) -> Result<(), AllocError>
    ensures { OnOk result (map binding_view names.new ≡ built_in_types ++ map binding_view names.old) }
{
    name_long_types(names)?;
    name_short_types(names)?;
    name_sizes(names)?;
    Ok(())
}

/// The names before the first line of a file.
pub fn built_in_names(alloc: Global) -> Result<Scopes<Entity>, AllocError>
    ensures { IfOk result (λ names. map binding_view names ≡ built_in_names) }
{
    let mut names = Scopes::new(alloc);
    name_constants(&mut names)?;
    name_types(&mut names)?;
    Ok(names)
}
