use c_programs::read_program;
use function_pairs::{FunctionPairs, function_pairs};
use joint_objects::FunctionPartners;
use joint_twins::joint_twins;
use rvt_tree::Program;
use std::alloc::Global;
use std::test::Fail;
use version_map::{Map, read_map};

fn program(alloc: Global, text: &str) -> Result<Program, Fail> {
    match read_program(alloc, text.as_bytes()) {
        Ok(program) => Ok(program),
        Err(_) => Err(Fail::from("the file is refused")),
    }
}

fn map_in(alloc: Global, text: &str) -> Result<Map, Fail> {
    let bytes = text.as_bytes();
    if bytes.len() > 1_048_576 {
        return Err(Fail::from("the map is too long"));
    }
    match read_map(alloc, bytes) {
        Ok(map) => Ok(map),
        Err(_) => Err(Fail::from("the map is refused")),
    }
}

/// The twin of each function of the old file.
fn twins(alloc: Global, old: &str, new: &str, map: &str) -> Result<Vec<Option<u32>>, Fail> {
    let old = program(alloc, old)?;
    let new = program(alloc, new)?;
    let map = map_in(alloc, map)?;
    let FunctionPairs { of_old, of_new } = function_pairs(
        alloc,
        old.functions.as_slice(),
        new.functions.as_slice(),
        map.functions.as_slice(),
    )?;
    let functions = FunctionPartners { of_old, of_new };
    let Ok(found) = joint_twins(alloc, old, new, &functions, &map) else {
        return Err(Fail::from("there are no joint programs"));
    };
    match &found.twins {
        Some(twins) => Ok(Vec::from_slice(alloc, twins.functions.as_slice())?),
        None => Err(Fail::from("the programs don't stand over one table")),
    }
}

#[test]
fn objects_and_functions_in_another_order(rt: HostRuntime) -> Result<(), Fail> {
    let old = "int limit = 3; int count;
int up(int by) { count = count + by; return count; }
int half(int n) { int x = n; int *p = &x; *p = *p / 2; return x; }
";
    let new = "int seen; int count; int limit = 3;
int half(int n) { int x = n; int *p = &x; *p = *p / 2; return x; }
int mark(void) { seen = 1; return seen; }
int up(int by) { count = count + by; return count; }
";
    let twins = twins(rt.alloc(), old, new, "")?;
    assert!(rt; twins.as_slice() == [Some(2), Some(0)].as_slice());
    Ok(())
}

#[test]
fn structs_in_another_order(rt: HostRuntime) -> Result<(), Fail> {
    let old = "struct S { int x; }; struct T { struct S s; int y; };
int of_s(struct S *p) { return p->x; }
int of_t(struct T *p) { return p->s.x + p->y; }
";
    let new = "struct R { int x; }; struct S { int x; }; struct T { int y; };
int of_r(struct R *p) { return p->x; }
int of_s(struct S *p) { return p->x; }
int of_t(struct T *p) { return p->y; }
";
    let twins = twins(rt.alloc(), old, new, "")?;
    assert!(rt; twins.as_slice() == [Some(1), None].as_slice());
    Ok(())
}

#[test]
fn callers_of_a_changed_function(rt: HostRuntime) -> Result<(), Fail> {
    let old = "int g(int x) { return x + 1; }
int f(int x) { return g(x); }
int h(int x) { if (x > 0) return h(x - 1); return x * 2; }
";
    let new = "int g(int x) { return x + 2; }
int f(int x) { return g(x); }
int h(int x) { if (x > 0) return h(x - 1); return x * 2; }
";
    let twins = twins(rt.alloc(), old, new, "")?;
    assert!(rt; twins.as_slice() == [None, None, Some(2)].as_slice());
    Ok(())
}

#[test]
fn names_that_the_map_matches(rt: HostRuntime) -> Result<(), Fail> {
    let alloc = rt.alloc();
    let old = "int a; int f(void) { a = a + 1; return a; }";
    let new = "int b; int g(void) { b = b + 1; return b; }";
    let by_map = twins(alloc, old, new, "function f g\nglobal a b\n")?;
    assert!(rt; by_map.as_slice() == [Some(0)].as_slice());
    let two_objects = twins(alloc, old, new, "function f g\n")?;
    assert!(rt; two_objects.as_slice() == [None].as_slice());
    Ok(())
}

#[test]
fn a_struct_that_is_named_before_its_body(rt: HostRuntime) -> Result<(), Fail> {
    let file = "struct T;
struct S { int x; };
struct T { struct S s; int y; };
int of_t(struct T *p) { return p->s.x + p->y; }
";
    let twins = twins(rt.alloc(), file, file, "")?;
    assert!(rt; twins.as_slice() == [Some(0)].as_slice());
    Ok(())
}
