use crate::tables::{with_map, without_map};
use std::test::Fail;

#[test]
fn order_and_names(rt: HostRuntime) -> Result<(), Fail> {
    let alloc = rt.alloc();
    without_map(alloc, "", "", "")?;
    without_map(alloc, "int a; int b;", "int b; int a;", "a b ")?;
    without_map(alloc, "int a;", "int b; int a; int c;", "a new:b new:c ")?;
    without_map(alloc, "int a; int b;", "int b;", "old:a b ")?;
    without_map(
        alloc,
        "int a; int b; int c;",
        "int d; int c; int a;",
        "a old:b c new:d ",
    )?;
    without_map(alloc, "int a;", "int a = 3;", "a ")?;
    Ok(())
}

#[test]
fn types_and_const(rt: HostRuntime) -> Result<(), Fail> {
    let alloc = rt.alloc();
    without_map(alloc, "int a;", "long a;", "old:a new:a ")?;
    without_map(alloc, "int a;", "const int a = 1;", "old:a new:a ")?;
    without_map(alloc, "const int a = 1;", "const int a = 2;", "a ")?;
    without_map(alloc, "int a[3];", "int a[4];", "old:a new:a ")?;
    without_map(alloc, "int a[2][3];", "int a[2][3];", "a ")?;
    without_map(alloc, "typedef int word; word a;", "enum e { A } a;", "a ")?;
    Ok(())
}

#[test]
fn matched_by_the_map(rt: HostRuntime) -> Result<(), Fail> {
    let alloc = rt.alloc();
    with_map(alloc, "int a;", "int b;", "global a b\n", "a ")?;
    with_map(
        alloc,
        "int a; int b;",
        "int a; int b;",
        "global a b\n",
        "a old:b new:a ",
    )?;
    with_map(
        alloc,
        "int a; int b;",
        "int a; int b;",
        "global b a\nglobal a b\n",
        "a b ",
    )?;
    Ok(())
}
