use crate::desks::{compare, compare_under};
use std::test::Fail;

#[test]
fn a_mapped_pair_is_a_twin(rt: HostRuntime) -> Result<(), Fail> {
    let old =
        b"int g; int f(int n) { int s = 0; while (n > 0) { s += g; n--; } return s; } int k(int x) { return f(x); } void z(void) {}";
    let new =
        b"int other; int g; int h(int n) { int s = 0; while (n > 0) { s += g; n--; } return s; } int k(int x) { return h(x); } void y(void) {}";
    let (status, text) = compare_under(rt.alloc(), old, new, b"# names\nfunction f h\n")?;
    assert_eq!(rt;
        text.as_str(),
        "f -> h: fully equivalent, twin\nf -> h loop 1: fully equivalent, twin\nk: fully equivalent, twin\nonly old: z\nonly new: y\npairs 3 full 3 partial 0 different 0 unknown 0\n"
    );
    assert_eq!(rt; status, 0);
    Ok(())
}

#[test]
fn without_the_map_they_are_none(rt: HostRuntime) -> Result<(), Fail> {
    let old = b"int f(int n) { return n; }";
    let new = b"int h(int n) { return n; }";
    let (status, text) = compare(rt.alloc(), old, new)?;
    assert_eq!(rt;
        text.as_str(),
        "only old: f\nonly new: h\npairs 0 full 0 partial 0 different 0 unknown 0\n"
    );
    assert_eq!(rt; status, 0);
    Ok(())
}

#[test]
fn refused_lines_of_the_map(rt: HostRuntime) -> Result<(), Fail> {
    let old = b"int a; int f(void) { return a; }";
    let new = b"long b; int f(void) { return 1; } int h(void) { return 2; }";
    let (status, text) = compare_under(rt.alloc(), old, new, b"\nfunction f  h\n")?;
    assert_eq!(rt; text.as_str(), "names.map:2: bad line\n");
    assert_eq!(rt; status, 3);
    let (_, text) = compare_under(rt.alloc(), old, new, b"function f h\nfunction f h\n")?;
    assert_eq!(rt; text.as_str(), "names.map:2: name twice\n");
    let (_, text) = compare_under(rt.alloc(), old, new, b"global a b\nfunction f q\n")?;
    assert_eq!(rt; text.as_str(), "names.map:2: no such name\n");
    let (_, text) = compare_under(rt.alloc(), old, new, b"global a b\n")?;
    assert_eq!(rt; text.as_str(), "names.map:1: types differ\n");
    Ok(())
}

#[test]
fn a_cycle_through_both_files(rt: HostRuntime) -> Result<(), Fail> {
    let old =
        b"int g(int n); int f(int n) { int x = n; int *p = &x; return *p + g(n); } int g(int n) { return n; }";
    let new = b"int f(int n) { return n; } int g(int n) { return f(n); }";
    let (status, text) = compare(rt.alloc(), old, new)?;
    assert_eq!(rt;
        text.as_str(),
        "f: address of a local on a call cycle of the two files\n"
    );
    assert_eq!(rt; status, 3);
    Ok(())
}

#[test]
fn too_many_cells(rt: HostRuntime) -> Result<(), Fail> {
    let mut map = Vec::new(rt.alloc());
    for i in 0..17u32 {
        map.extend_from_slice(format!(in rt.alloc(); "object a{i} i32 4096\n")?.as_bytes())?;
    }
    let file = b"int f(void) { return 1; }";
    let (status, text) = compare_under(rt.alloc(), file, file, &map)?;
    assert_eq!(rt; text.as_str(), "the table of objects is too large\n");
    assert_eq!(rt; status, 3);
    Ok(())
}
