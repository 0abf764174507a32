use crate::twins;
use rvt_num::{Kind, Num, Value};
use rvt_tree::{CType, Function, Name, Object, Program, Stmt, StructDef, Structs, Table};
use sqlite_items::Items;
use std::alloc::{AllocError, Global};
use std::test::Fail;

fn function(alloc: Global, name: &[u8]) -> Result<Function, AllocError> {
    Ok(Function {
        name: Name::new(alloc, name)?,
        params: Items::new(alloc),
        result: None,
        locals: Items::new(alloc),
        body: Some(Stmt::Return),
    })
}

/// `struct S { int x; }`
fn structs(alloc: Global) -> Result<Structs, AllocError> {
    let mut fields = Items::new(alloc);
    fields.push((Name::new(alloc, b"x")?, CType::Word(Kind::I32)))?;
    let mut list = Items::new(alloc);
    list.push(StructDef {
        tag: Name::new(alloc, b"S")?,
        tagged: true,
        complete: true,
        fields,
    })?;
    Ok(Structs { list })
}

/// An object of type `struct S`.
fn object(
    alloc: Global,
    name: &[u8],
    constant: bool,
    owner: Option<u32>,
    content: i128,
) -> Result<Object, AllocError> {
    let mut initial = Items::new(alloc);
    initial.push(Value::Num(Num::wrapped(Kind::I32, content)))?;
    Ok(Object {
        name: Name::new(alloc, name)?,
        ty: CType::Struct(0),
        constant,
        addressable: true,
        owner,
        initial,
    })
}

/// Two functions, a constant, and a local of the function that is called `f`.
fn program(
    alloc: Global,
    names: &[&[u8]],
    owner: u32,
    content: i128,
) -> Result<Program, AllocError> {
    let mut functions = Items::new(alloc);
    for name in names {
        functions.push(function(alloc, name)?)?;
    }
    let mut objects = Items::new(alloc);
    objects.push(object(alloc, b"limit", true, None, content)?)?;
    objects.push(object(alloc, b"local", false, Some(owner), 0)?)?;
    Ok(Program {
        structs: structs(alloc)?,
        functions,
        table: Table { objects },
    })
}

#[test]
fn functions_in_another_order(rt: HostRuntime) -> Result<(), Fail> {
    let alloc = rt.alloc();
    let old = program(alloc, &[b"f", b"g"], 0, 7)?;
    let new = program(alloc, &[b"g", b"f"], 1, 7)?;
    let Some(twins) = twins(alloc, &old, &new)? else {
        return Err(Fail::from("the tables differ"));
    };
    assert!(rt; twins.functions.as_slice() == [Some(1), Some(0)].as_slice());
    assert!(rt; twins.objects.as_slice() == [Some(0), Some(1)].as_slice());
    assert!(rt; twins.structs.as_slice() == [Some(0)].as_slice());
    Ok(())
}

#[test]
fn a_constant_with_another_content(rt: HostRuntime) -> Result<(), Fail> {
    let alloc = rt.alloc();
    let old = program(alloc, &[b"f", b"g"], 0, 7)?;
    let new = program(alloc, &[b"f", b"g"], 0, 8)?;
    assert!(rt; twins(alloc, &old, &new)?.is_none());
    Ok(())
}
