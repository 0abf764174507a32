use crate::tables::without_map;
use std::test::Fail;

#[test]
fn objects_of_equal_structs(rt: HostRuntime) -> Result<(), Fail> {
    let alloc = rt.alloc();
    let old = "struct S { int x; }; struct S s;";
    without_map(alloc, old, old, "s ")?;
    without_map(
        alloc,
        old,
        "struct S { int y; }; struct S s;",
        "old:s new:s ",
    )?;
    without_map(
        alloc,
        old,
        "struct T { int x; }; struct T s;",
        "old:s new:s ",
    )?;
    without_map(
        alloc,
        old,
        "struct S { long x; }; struct S s;",
        "old:s new:s ",
    )?;
    Ok(())
}

#[test]
fn structs_without_tags(rt: HostRuntime) -> Result<(), Fail> {
    let alloc = rt.alloc();
    let old = "typedef struct { int x; } Q; Q s;";
    without_map(alloc, old, "typedef struct { int x; } Q, R; R s;", "s ")?;
    without_map(
        alloc,
        old,
        "typedef struct { int x; } R; R s;",
        "old:s new:s ",
    )?;
    without_map(
        alloc,
        old,
        "struct Q { int x; }; struct Q s;",
        "old:s new:s ",
    )?;
    Ok(())
}

#[test]
fn structs_that_hold_structs(rt: HostRuntime) -> Result<(), Fail> {
    let alloc = rt.alloc();
    let old = "struct S { int x; }; struct T { struct S s[2]; }; struct T t;";
    let other =
        "struct R { int z; }; struct S { int x; }; struct T { struct S s[2]; }; struct T t;";
    without_map(alloc, old, other, "t ")?;
    let changed = "struct S { int x; int y; }; struct T { struct S s[2]; }; struct T t;";
    without_map(alloc, old, changed, "old:t new:t ")?;
    Ok(())
}
