use crate::tables::{with_map, without_map};
use std::test::Fail;

#[test]
fn arrays_for_pointers_to_kinds(rt: HostRuntime) -> Result<(), Fail> {
    let alloc = rt.alloc();
    let one = "int f(int *p) { return *p; }";
    without_map(alloc, one, one, "extra.i32.1 ")?;
    let two = "int f(int *p, const int *q) { return *p + *q; } int g(int *p) { return *p; }";
    without_map(alloc, two, two, "extra.i32.1 extra.i32.2 ")?;
    without_map(alloc, one, two, "extra.i32.1 extra.i32.2 ")?;
    let kinds =
        "void f(unsigned long *a, char *b, unsigned *c, _Bool *d) { *a = 1; *b = 2; *c = 3; *d = 1; }";
    without_map(
        alloc,
        kinds,
        "short g(short *p) { return *p; }",
        "extra.bool.1 extra.i8.1 extra.i16.1 extra.u32.1 extra.u64.1 ",
    )?;
    Ok(())
}

#[test]
fn arrays_for_pointers_to_structs(rt: HostRuntime) -> Result<(), Fail> {
    let alloc = rt.alloc();
    let old = "struct S { int x; }; int f(struct S *p) { return p->x; }";
    let new = "struct T { int x; }; int f(struct T *p) { return p->x; }";
    without_map(alloc, old, old, "extra.struct.S.1 ")?;
    without_map(
        alloc,
        old,
        new,
        "old:extra.struct.S.1 new:extra.struct.T.1 ",
    )?;
    let typedef = "typedef struct { int x; } Q; int f(Q *p, Q *q) { return p->x + q->x; }";
    without_map(
        alloc,
        typedef,
        typedef,
        "extra.typedef.Q.1 extra.typedef.Q.2 ",
    )?;
    let incomplete = "struct S; int f(struct S *p) { return 1; }";
    without_map(alloc, incomplete, incomplete, "")?;
    let bodies =
        "struct A; struct B { int x; }; struct A { int y; }; int f(struct A *p, struct B *q, int *r) { return p->y + q->x + *r; }";
    without_map(
        alloc,
        bodies,
        bodies,
        "extra.i32.1 extra.struct.B.1 extra.struct.A.1 ",
    )?;
    Ok(())
}

#[test]
fn arrays_of_the_map(rt: HostRuntime) -> Result<(), Fail> {
    let alloc = rt.alloc();
    let map = "object buffer u8 4\n# another\nobject words i32 16\n";
    with_map(alloc, "", "", map, "map.buffer map.words ")?;
    let old = "int words; int f(int *p) { int x = *p; int *q = &x; return *q + words; }";
    let new = "int more; int f(int *p) { return *p + more; }";
    with_map(
        alloc,
        old,
        new,
        map,
        "old:words new:more old:f.x extra.i32.1 map.buffer map.words ",
    )?;
    Ok(())
}
