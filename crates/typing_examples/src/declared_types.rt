use declarator_types::{Sort, ValueType, adjusted, declared_type, value_type};
use rvt_num::Kind;
use rvt_tree::{CType, Place, Pointee};
use std::alloc::Global;
use std::test::Fail;
use typing_base::{Break, Cause, Fault, NamedType, QualifiedType, Structure};

fn place() -> Place {
    Place { line: 1, column: 1 }
}

fn word() -> QualifiedType {
    QualifiedType {
        named: NamedType::Type(CType::Word(Kind::I32)),
        constant: false,
    }
}

/// Arrays of `int`.
fn declared(alloc: Global, sort: Sort, lengths: &[Option<i128>]) -> Result<QualifiedType, Fault> {
    let structs: Vec<Structure> = Vec::new(alloc);
    declared_type(alloc, sort, structs.as_slice(), place(), word(), lengths)
}

/// The lengths that the type has, of at most two.
fn lengths_of(ty: &QualifiedType) -> (u32, u32) {
    match &ty.named {
        NamedType::Type(CType::Array(rows, count)) => match &**rows {
            CType::Array(_, columns) => (*count, *columns),
            _ => (*count, 0),
        },
        _ => (0, 0),
    }
}

fn has_too_many_cells(outcome: &Result<QualifiedType, Fault>) -> bool {
    matches!(
        outcome,
        Err(Fault::Broken(Break {
            cause: Cause::TooManyCells,
            ..
        }))
    )
}

#[test]
fn at_most_4096_cells(rt: HostRuntime) -> Result<(), Fail> {
    let ty = declared(rt.alloc(), Sort::Local, &[Some(64), Some(64)])?;
    assert!(rt; lengths_of(&ty) == (64, 64));
    let outcome = declared(rt.alloc(), Sort::Local, &[Some(64), Some(65)]);
    assert!(rt; has_too_many_cells(&outcome));
    Ok(())
}

#[test]
fn an_array_as_a_parameter(rt: HostRuntime) -> Result<(), Fail> {
    let ty = declared(rt.alloc(), Sort::Parameter, &[None])?;
    let ty = value_type(place(), ty)?;
    let ValueType { ty, constant } = adjusted(ty);
    assert!(rt; !constant);
    assert!(rt; matches!(ty, CType::Pointer(Pointee::Word(Kind::I32), false)));
    Ok(())
}
