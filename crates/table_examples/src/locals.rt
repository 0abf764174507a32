use crate::tables::{with_map, without_map};
use std::test::Fail;

#[test]
fn locals_whose_address_is_taken(rt: HostRuntime) -> Result<(), Fail> {
    let alloc = rt.alloc();
    let taken = "int f(void) { int x = 1; int *p = &x; return *p; }";
    without_map(alloc, taken, taken, "f.x ")?;
    without_map(
        alloc,
        taken,
        "int f(void) { int x = 1; return x; }",
        "old:f.x ",
    )?;
    let wider = "int f(void) { long x = 1; long *p = &x; return *p == 1; }";
    without_map(alloc, taken, wider, "old:f.x new:f.x ")?;
    let parameter = "int f(int x) { int *p = &x; return *p; }";
    without_map(alloc, parameter, parameter, "f.x ")?;
    let array = "int f(void) { int a[2]; int *p = a; return *p; }";
    without_map(alloc, array, array, "f.a ")?;
    let indexed = "int f(void) { int a[2]; a[1] = 3; return a[1]; }";
    without_map(alloc, indexed, indexed, "")?;
    Ok(())
}

#[test]
fn declarations_of_one_name(rt: HostRuntime) -> Result<(), Fail> {
    let alloc = rt.alloc();
    let both =
        "int f(void) { { int x = 1; int *p = &x; *p = 2; } { int x = 3; int *q = &x; return *q; } }";
    let second = "int f(void) { { int x = 1; x = 2; } { int x = 3; int *q = &x; return *q; } }";
    let one = "int f(void) { { int x = 3; int *q = &x; return *q; } }";
    without_map(alloc, both, both, "f.x f.x.2 ")?;
    without_map(alloc, second, second, "f.x.2 ")?;
    without_map(alloc, both, second, "old:f.x f.x.2 ")?;
    without_map(alloc, one, second, "old:f.x new:f.x.2 ")?;
    Ok(())
}

#[test]
fn locals_of_paired_functions(rt: HostRuntime) -> Result<(), Fail> {
    let alloc = rt.alloc();
    let f = "int f(void) { int x = 1; int *p = &x; return *p; }";
    let g = "int g(void) { int x = 1; int *p = &x; return *p; }";
    without_map(alloc, f, g, "old:f.x new:g.x ")?;
    with_map(alloc, f, g, "function f g\n", "f.x ")?;
    let old =
        "int a; int f(void) { int y; int x; int *p = &x; p = &y; return *p; } int g(int z) { int *q = &z; return *q; }";
    let new =
        "int g(int z) { int w; int *q = &z; q = &w; return *q; } int f(void) { int x; int *p = &x; return *p; } int b;";
    without_map(alloc, old, new, "old:a new:b old:f.y f.x g.z new:g.w ")?;
    Ok(())
}

#[test]
fn functions_of_reserved_names(rt: HostRuntime) -> Result<(), Fail> {
    let alloc = rt.alloc();
    let extra = "int extra(void) { int x = 1; int *p = &x; return *p; }";
    let map = "int map(void) { int x = 1; int *p = &x; return *p; }";
    without_map(alloc, extra, extra, "extra().x ")?;
    without_map(alloc, extra, map, "old:extra().x new:map().x ")?;
    with_map(alloc, extra, map, "function extra map\n", "extra().x ")?;
    Ok(())
}
