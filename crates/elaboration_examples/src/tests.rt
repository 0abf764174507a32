use c_elab::elaborate;
use c_source::read;
use rvt_tree::{Fault, Place};
use std::alloc::Global;
use std::test::Fail;

// Files that gcc -std=c11 -fsyntax-only takes, too.
const ACCEPTED: &[&[u8]] = &[
    b"int a0[4096], a1[4096], a2[4096], a3[4096], a4[4096], a5[4096], a6[4096], a7[4096], a8[4096], a9[4096], a10[4096], a11[4096], a12[4096], a13[4096], a14[4096], a15[4096];",
    b"int f(void) { int a[4096]; return a[0]; }",
    b"",
    b"int x;",
    b"int x = 3, y[2] = { 1 };",
    b"enum e { A = 3, B }; unsigned char f(long x) { return x + B; }",
    b"typedef int T; T f(T a) { T b = a; return b; }",
    b"struct S { int x; }; struct S s = { 1 }; int f(struct S *p) { return p->x + s.x; }",
    b"struct S; int f(struct S *p) { return p == 0; } struct S { int x; };",
    b"struct S { int x; }; struct T { struct S s; int a[2]; }; struct T t = { { 1 }, { 2 } };",
    b"int f(int n) { return n <= 1 ? 1 : n * f(n - 1); }",
    b"int f(int n); int g(int n) { return n ? f(n - 1) : 0; } int f(int n) { return g(n); }",
    b"int f(int n) { int s = 0; for (int i = 0; i < n; i++) s += i; return s; }",
    b"int f(int n) { int i, s; for (i = 0, s = 0; i < n; i++) s += i; return s; }",
    b"int f(int n) { while (n > 0) { n--; if (n == 3) break; if (n == 4) continue; n -= 2; } return n; }",
    b"int f(int n) { do n--; while (n > 0); return n; }",
    b"int f(int n) { switch (n) { case 1: case 2: return 1; case 3: { n++; break; } default: break; } return n; }",
    b"int f(int n) { switch (n) { case -1: n = 3; break; case 1 + 1: ; } return n; }",
    b"int f(int *p, int n) { int s = 0; for (int i = 0; i < n; ++i) s += p[i]; return s; }",
    b"int g(int *p) { return *p; } int f(int n) { int a = n; return g(&a); }",
    b"int g(int *p) { return *p; } int f(void) { int a[3] = { 1, 2, 3 }; return g(a) + g(&a[1]) + g(a + 2); }",
    b"int a[2][3] = { { 1, 2, 3 }, { 4 } }; int f(int i, int j) { return a[i][j]; }",
    b"const int t[4] = { 1, 2, 4, 8 }; int f(int i) { return t[i & 3]; }",
    b"int f(const int *p) { const int *q = p; q++; return *q; }",
    b"int f(int *p) { const int *q = p; return q != p; }",
    b"int f(int * const p) { *p = 1; (*p)++; p[0] -= 2; return *p; }",
    b"void g(int *p) { *p = 1; } void f(void) { int a; g(&a); (void)a; }",
    b"#include <stdint.h>\n#include <stdbool.h>\n#include <stddef.h>\nbool f(uint8_t a, int64_t b, size_t c) { return a && b || !c; }",
    b"#include <stddef.h>\nint f(int *p) { int *q = NULL; return p == NULL || q == p || p == 0; }",
    b"#define N 4\nint a[N]; int f(void) { return a[N - 1]; }",
    b"int f(int a) { int b = a; { int a = b + 1; b = a; } return b; }",
    b"int x; int f(void) { int x = 3; return x; }",
    b"int f(int f) { return f; }",
    b"unsigned long f(int a) { return sizeof a + sizeof(int) + sizeof(long[3]) + sizeof(a + 1L); }",
    b"int a[sizeof(int) * 2]; enum { N = sizeof(a) / sizeof(int) };",
    b"int f(unsigned char a, signed char b) { return (a << 3) + ~b + -a + +b + !a; }",
    b"long f(int a, unsigned b) { return (long)a * (short)b % 7; }",
    b"int f(int a) { return (char)(unsigned char)(a >> 2) ^ (a | 3) & 5; }",
    b"static int f(int a) { return a; } static inline int g(int a) { return f(a); } extern int h(int a);",
    b"int f(int a, int b) { return a < b ? a : b >= 3 ? b : a == b; }",
    b"typedef struct { int a, b; } P; P p = { 1, 2 }; int f(P *q) { return q->a - p.b; }",
    b"typedef unsigned char B; typedef B V[3]; V v; int f(V w) { return v[1] + w[2]; }",
    b"struct A { int a; } x; struct B { struct A a[2]; } y; int f(int i) { y.a[i].a = x.a; return y.a[1].a; }",
    b"int f(int); int f(int a) { return a; }",
    b"void f(void) { ; { } { ; } return; }",
    b"int f(void) { int a = { 3 }; return a; }",
    b"long x = 1 ? 2 : 3; unsigned y = -1; int z = 'a' + 07 + 0x1F;",
    b"int f(int n) { return n ? *(&n) : 0; }",
    b"int f(void) { const int a = 2; int b[2] = { a, a + 1 }; return b[1]; }",
    b"int f(int a) { for (;;) { if (a) return 1; a = 1; } }",
    b"enum E { A, B = 5, C }; enum E e = C; int f(enum E x) { return x == B; }",
    b"struct S { int x; }; int f(struct S *p, struct S *q) { (*p).x = 1; p[0].x += q->x; return p != q; }",
    b"int f(int *p) { int *q = p ? p : 0; p += 2; p -= 1; p++; --p; return q == p; }",
    b"int f(void); int f(void); int x, y;",
];

// An `@` stands before the token at which a file is refused.

// Incomplete types, at the declared name or the `sizeof`.
const INCOMPLETE_TYPES: &[&[u8]] = &[
    b"struct S; struct S @a;",
    b"struct S; struct S @a[2];",
    b"int @a[];",
    b"int f(void) { int @a[]; return 0; }",
    b"struct S { int x; struct S @s; };",
    b"struct S { int @a[]; };",
    b"typedef int @T[];",
    b"struct S; unsigned long f(void) { return @sizeof(struct S); }",
    b"struct S; int f(void) { struct S @s; return 0; }",
];

// More than 4,096 cells, at the declared name or the `sizeof`.
const TOO_MANY_CELLS: &[&[u8]] = &[
    b"int @a[4097];",
    b"int @a[64][65];",
    b"struct S { int a[4000]; int @b[97]; };",
    b"int f(void) { int @a[5000]; return 0; }",
    b"unsigned long f(void) { return @sizeof(int[4097]); }",
    b"typedef int @T[4097];",
    b"struct S { int a[4096]; }; struct S @b[2];",
];

// Unknown names, tags and fields, and the word that the refusal names.
const UNKNOWN_NAMES: &[(&[u8], &[u8])] = &[
    (b"int f(int a) { return @b; }", b"b"),
    (b"int f(int a) { return @g(a); }", b"g"),
    (
        b"struct S { int x; }; int f(struct S *p) { return p->@y; }",
        b"y",
    ),
    (
        b"struct S { int x; }; struct S s; int f(void) { return s.@y; }",
        b"y",
    ),
    (b"int f(struct @S *p);", b"S"),
    (b"int f(void) { enum @E e; return 0; }", b"E"),
    (b"int f(void) { int x = @y; return x; }", b"y"),
    (b"int f(int a) { { int b = a; } return @b; }", b"b"),
    (
        b"int f(int n) { for (int i = 0; i < n; i++) ; return @i; }",
        b"i",
    ),
    (b"int x = @y; int y = 3;", b"y"),
    (b"void f(int a) { a = @b; }", b"b"),
    (b"void f(int a) { @b = a; }", b"b"),
    (b"int f(int a) { return f(@b); }", b"b"),
    (b"unsigned long f(int a) { return sizeof(@b); }", b"b"),
    (b"enum E { A = @B, B };", b"B"),
    (b"int a[@N];", b"N"),
    (
        b"int f(int a) { switch (a) { case @A: return 1; } return 0; }",
        b"A",
    ),
    (b"int f(int a) { return a + @b * c; }", b"b"),
    (b"int f(int a) { return a ? 1 : @b; }", b"b"),
    (
        b"int f(int a) { do { int b = a; } while (@b); return a; }",
        b"b",
    ),
    (b"int a[3]; int f(void) { return a[@b]; }", b"b"),
    (
        b"int g(void) { return @f(); } int f(void) { return 1; }",
        b"f",
    ),
    (b"int f(int *p) { return @b * p; }", b"b"),
    (b"int f(int *p) { return p * @b; }", b"b"),
    (b"int f(int *p) { return -p[@b]; }", b"b"),
    (b"int g(int a); int f(void) { return g(1, @b); }", b"b"),
    (b"void f(const int *p) { *p = @b; }", b"b"),
    (b"int f(int a) { if (a) return @d; return e; }", b"d"),
    (
        b"int g(int a); int f(void) { return g(1); } int x = @y;",
        b"y",
    ),
];

// Second declarations of a name, and the word that the refusal names.
const DECLARED_TWICE: &[(&[u8], &[u8])] = &[
    (b"int x; int @x;", b"x"),
    (b"int f(int a, int @a) { return a; }", b"a"),
    (b"int f(int a) { int @a; return 0; }", b"a"),
    (b"int f(void) { int a; int @a; return 0; }", b"a"),
    (b"struct S { int x; }; struct @S { int y; };", b"S"),
    (b"struct S { int x; int @x; };", b"x"),
    (b"enum E { A }; enum @E { B };", b"E"),
    (b"enum { A, @A };", b"A"),
    (
        b"int f(int a) { return a; } int @f(int a) { return a; }",
        b"f",
    ),
    (b"int f(void); int @f;", b"f"),
    (b"int f; int @f(void);", b"f"),
    (b"enum { A }; int @A;", b"A"),
    (
        b"int f(int a) { switch (a) { case 1: break; @case 1: break; } return 0; }",
        b"case",
    ),
    (
        b"int f(int a) { switch (a) { default: break; @default: break; } return 0; }",
        b"default",
    ),
    (
        b"int f(int a) { switch (a) { case 1: @case 1: break; } return 0; }",
        b"case",
    ),
    (
        b"int f(unsigned char a) { switch (a) { case 1: break; @case 4294967297: break; } return 0; }",
        b"case",
    ),
    (b"void f(void) { for (int i = 0, @i = 1; ; ) ; }", b"i"),
    (b"struct S { int x; }; enum @S { A };", b"S"),
    (b"struct S { int x, y, @x; };", b"x"),
    (b"int f(int a); int @f = 3;", b"f"),
];

// Wrong types: at the operator, the first token of what is converted, or the declared name.
const WRONG_TYPES: &[&[u8]] = &[
    b"void @x;",
    b"int @a[0];",
    b"int @a[-1];",
    b"void @a[2];",
    b"typedef void V; V @x;",
    b"struct S { void @x; };",
    b"int f(void) { void @x; return 0; }",
    b"int f(void @x);",
    b"int f(int a) { return @&a; }",
    b"int f(int *p) { return @p; }",
    b"int f(int *p) { return @-p; }",
    b"int f(int *p) { return @~p; }",
    b"int f(int *p) { return p @* 2; }",
    b"int f(int *p) { return (2 @- p) == p; }",
    b"int f(int *p) { return 1 @<< p; }",
    b"int f(int *p) { return p @| 1; }",
    b"int f(int *p, unsigned *q) { return p @== q; }",
    b"int f(int *p) { return p @== 1; }",
    b"int f(int *p, int a) { return (a @? p : a) == p; }",
    b"struct S { int x; }; struct S s; int f(void) { return s @+ 1; }",
    b"struct S { int x; }; struct S s; int f(void) { return @s; }",
    b"struct S { int x; }; struct S s; int f(void) { if (@s) return 1; return 0; }",
    b"struct S { int x; }; struct S s; int f(void) { return @!s; }",
    b"struct S { int x; }; struct S s; int f(void) { return 1 @&& s; }",
    b"int f(int a) { return a@[1]; }",
    b"int f(int *p) { return p@[p]; }",
    b"int f(int a) { return @*a; }",
    b"int f(int a) { return a@.x; }",
    b"int f(int a) { return a@->x; }",
    b"struct S { int x; }; int f(struct S *p) { return p@.x; }",
    b"struct S { int x; }; struct S s; int f(void) { return s@->x; }",
    b"int f(int a) { return @a(1); }",
    b"int f(void) { return @&1 == 0; }",
    b"int f(int *p) { return *@&p == 0; }",
    b"int f(void) { @return; }",
    b"void f(int a) { @return a; }",
    b"void f(void) { @break; }",
    b"void f(void) { @continue; }",
    b"int f(int a) { switch (a) { case 1: @continue; } return 0; }",
    b"void g(void) { } int f(void) { return @g(); }",
    b"void g(void) { } int f(void) { return 1 @+ g(); }",
    b"int f(@int) { return 0; }",
    b"int f(int a); long @f(int a);",
    b"int f(int a); int @f(long a) { return a; }",
    b"int f(int a); int @f(void);",
    b"int f(int a); int @f(const int *a);",
    b"int x[2] = { 1, 2, @3 };",
    b"struct S { int a; } s = { 1, @2 };",
    b"int x[2][2] = { { 1 }, @2 };",
    b"int x = { 1, @2 };",
    b"int x[2] = @1;",
    b"enum { A = 2147483647, @B };",
    b"enum { @A = 2147483648 };",
    b"int f(int *p) { switch (@p) { case 1: return 1; } return 0; }",
    b"#include <stdbool.h>\nbool f(int *p) { return @p; }",
    b"int f(const int *p) { int *q = @p; return *q; }",
    b"int g(int *p) { return *p; } int f(const int *p) { return g(@p); }",
    b"struct S { int x; }; struct S s; int f(void) { return @(int)s; }",
    b"struct S; void f(struct S *p) { p@->x = 1; }",
    b"struct S; int f(struct S *p) { return p @+ 1 == p; }",
    b"void f(int *p) { p @*= 2; }",
    b"void f(int *p) { p @+= p; }",
    b"struct S { int x; }; struct S s; void f(void) { s@++; }",
    b"int g(int *p) { return *p; } int f(void) { return g(@1); }",
    b"int g(int *p) { return *p; } int f(long *p) { return g(@p); }",
    b"struct S { int x; }; int g(int *p) { return *p; } int f(struct S *p) { return g(@p); }",
    b"int g(int a) { return a; } int f(int *p) { return g(@p); }",
    b"int f(int *p) { while (p @> 1) return 1; return 0; }",
];

// Wrong numbers of arguments, at the called name.
const NUMBERS_OF_ARGUMENTS: &[&[u8]] = &[
    b"int g(int a, int b) { return a; } int f(void) { return @g(1); }",
    b"int g(int a, int b) { return a; } int f(void) { return @g(1, 2, 3); }",
    b"int g(void) { return 1; } int f(void) { return @g(1); }",
    b"int g(int a) { return a; } void f(void) { @g(); }",
    b"int f(int a) { return f(@f(), 1); }",
];

// Writes to `const`, at the first token of what is written.
const WRITES_TO_CONST: &[&[u8]] = &[
    b"const int x = 1; void f(void) { @x = 2; }",
    b"void f(const int *p) { @*p = 1; }",
    b"struct S { int a; }; void f(const struct S *p) { @p->a = 1; }",
    b"void f(const int a[2]) { @a[0] = 1; }",
    b"void f(const int a) { @a++; }",
    b"const int a[2] = { 1, 2 }; void f(int i) { @a[i] += 1; }",
    b"void f(int * const p) { @p++; }",
    b"struct S { int a[2]; }; const struct S s = { { 1 } }; void f(void) { @s.a[1] = 3; }",
    b"void f(const int *p) { @(*p)++; }",
    b"void f(const int *p) { ++@*p; }",
    b"void f(void) { const int a = 1; @a -= 1; }",
];

// Addresses of locals in functions on call cycles.
const ADDRESSES_ON_CYCLES: &[&[u8]] = &[
    b"int f(int n); int g(int *p) { return f(*p - 1); } int f(int n) { int a = n; return n ? g(@&a) : 0; }",
    b"int g(int *p) { return *p; } int f(int n) { int a[2]; a[0] = n; if (n) return f(n - 1); return g(@a); }",
    b"int f(int n) { return n ? *@&n : f(n + 1); }",
];

// Calls of functions without a body, which come behind everything else.
const WITHOUT_BODIES: &[(&[u8], &[u8])] = &[
    (b"int g(int a); int f(void) { return @g(1); }", b"g"),
    (
        b"int g(int a); int h(int a); int f(void) { return @h(1) + g(2); }",
        b"h",
    ),
    (
        b"int h(int n); int f(int n) { int *p = &n; return n ? f(*p) : @h(n); }",
        b"h",
    ),
    (
        b"int g(int a); int f(void) { return @g(1); } int h(void) { return g(2); }",
        b"g",
    ),
];

// Limits: cells of the locals of a function, and of objects, at the declared name.
const LIMITS: &[&[u8]] = &[
    b"int f(void) { int a[4096]; int @b; return 0; }",
    b"int f(int a[3], int b) { int c[4094]; int @d; return b; }",
    b"int a0[4096], a1[4096], a2[4096], a3[4096], a4[4096], a5[4096], a6[4096], a7[4096], a8[4096], a9[4096], a10[4096], a11[4096], a12[4096], a13[4096], a14[4096], a15[4096]; int @b;",
    b"int a0[4096], a1[4096], a2[4096], a3[4096], a4[4096], a5[4096], a6[4096], a7[4096], a8[4096], a9[4096], a10[4096], a11[4096], a12[4096], a13[4096], a14[4096], a15[4096]; int f(int @x) { return *&x; }",
];

// Constant expressions that are none, or trap, at their first token.
const NO_CONSTANTS: &[&[u8]] = &[
    b"int y; int x = @y;",
    b"int g(void) { return 1; } int x = @g();",
    b"int x; int a[@x];",
    b"int f(int a) { switch (a) { case @a: return 1; } return 0; }",
    b"enum { A = @1 / 0 };",
    b"int x = @1 << 32;",
    b"int f(int n) { int a[@n]; return 0; }",
    b"unsigned long f(int n) { return sizeof(int[@n]); }",
    b"int y; struct S { int a; } s = { @y };",
    b"int x = @2 + (1 % 0);",
    b"const int n = 3; int a[@n];",
];

// Forms of C that the profile leaves out.
const NOT_IN_PROFILE: &[&[u8]] = &[
    b"int *@p;",
    b"int *@a[3];",
    b"struct S { int *@p; };",
    b"struct S { int a; }; struct S @f(void);",
    b"struct S { int a; }; int f(struct S @s);",
    b"struct S { int a; }; int f(@struct S);",
    b"int f(void *@p);",
    b"typedef int *P; int f(P *@p);",
    b"typedef int A[3]; int f(A *@p);",
    b"int f(int @a[2][3]);",
    b"int f(int *@a[2]);",
    b"int f(int @a[2][]);",
    b"long f(int *p) { return (@long)p; }",
    b"int f(int a) { return *(@int *)a; }",
    b"int f(int *p, int *q) { return p @- q; }",
    b"int f(int *p, int *q) { return p @< q; }",
    b"int a[3]; int f(void) { return @&a == 0; }",
    b"struct S { int x; }; struct S s; unsigned long f(void) { return @sizeof s; }",
    b"unsigned long f(int *p) { return @sizeof p; }",
    b"struct S { int x; }; struct S s, t; void f(void) { s = @t; }",
    b"struct S { int x; }; struct S s; void f(void) { struct S t = @s; }",
    b"int a[2][3]; int g(int *p) { return *p; } int f(void) { return g(@a); }",
    b"int g(int a) { return a; } int f(void) { return @g + 1; }",
    b"int f(int a) { switch (a) { case 1: a = 2; @case 2: break; } return a; }",
    b"int f(int a) { switch (a) { default: a++; @case 2: break; } return a; }",
    b"int f(void) { int *@p[2]; return 0; }",
];

fn is_accepted(alloc: Global, text: &[u8]) -> bool {
    match read(alloc, text) {
        Ok(file) => elaborate(alloc, file.items.as_slice()).is_ok(),
        Err(_) => false,
    }
}

// The text without its first `@`, and the place at which that stands.
fn marked(alloc: Global, text: &[u8]) -> Result<(Vec<u8>, Place), Fail> {
    let mut plain = Vec::new(alloc);
    let mut here = Place { line: 1, column: 1 };
    let mut place = None;
    for byte in text {
        if *byte == b'@' && place.is_none() {
            place = Some(here);
            continue;
        }
        plain.push(*byte)?;
        if *byte == b'\n' {
            here = Place {
                line: here.line.wrapping_add(1),
                column: 1,
            };
        } else {
            here.column = here.column.wrapping_add(1);
        }
    }
    Ok((plain, place.unwrap_or(Place { line: 0, column: 0 })))
}

// Whether the text without its first `@` is refused where that stands, for this cause.
fn is_refused_at(alloc: Global, text: &[u8], cause: u16, word: &[u8]) -> Result<bool, Fail> {
    let (plain, place) = marked(alloc, text)?;
    let file = match read(alloc, &plain) {
        Ok(file) => file,
        Err(_) => return Ok(false),
    };
    match elaborate(alloc, file.items.as_slice()) {
        Ok(_) => Ok(false),
        Err(Fault::Memory) => Ok(false),
        Err(Fault::Refused(refusal)) => Ok(
            refusal.cause == cause && refusal.place == place && refusal.word.is(word),
        ),
    }
}

#[test]
fn accepted_files(rt: HostRuntime) -> Result<(), Fail> {
    let alloc = rt.alloc();
    for text in ACCEPTED {
        assert!(rt; is_accepted(alloc, text));
    }
    Ok(())
}

#[test]
fn incomplete_types(rt: HostRuntime) -> Result<(), Fail> {
    let alloc = rt.alloc();
    for text in INCOMPLETE_TYPES {
        assert!(rt; is_refused_at(alloc, text, 21, b"")?);
    }
    Ok(())
}

#[test]
fn too_many_cells(rt: HostRuntime) -> Result<(), Fail> {
    let alloc = rt.alloc();
    for text in TOO_MANY_CELLS {
        assert!(rt; is_refused_at(alloc, text, 22, b"")?);
    }
    Ok(())
}

#[test]
fn unknown_names(rt: HostRuntime) -> Result<(), Fail> {
    let alloc = rt.alloc();
    for (text, word) in UNKNOWN_NAMES {
        assert!(rt; is_refused_at(alloc, text, 31, word)?);
    }
    Ok(())
}

#[test]
fn declared_twice(rt: HostRuntime) -> Result<(), Fail> {
    let alloc = rt.alloc();
    for (text, word) in DECLARED_TWICE {
        assert!(rt; is_refused_at(alloc, text, 32, word)?);
    }
    Ok(())
}

#[test]
fn wrong_types(rt: HostRuntime) -> Result<(), Fail> {
    let alloc = rt.alloc();
    for text in WRONG_TYPES {
        assert!(rt; is_refused_at(alloc, text, 33, b"")?);
    }
    Ok(())
}

#[test]
fn numbers_of_arguments(rt: HostRuntime) -> Result<(), Fail> {
    let alloc = rt.alloc();
    for text in NUMBERS_OF_ARGUMENTS {
        assert!(rt; is_refused_at(alloc, text, 34, b"")?);
    }
    Ok(())
}

#[test]
fn writes_to_const(rt: HostRuntime) -> Result<(), Fail> {
    let alloc = rt.alloc();
    for text in WRITES_TO_CONST {
        assert!(rt; is_refused_at(alloc, text, 35, b"")?);
    }
    Ok(())
}

#[test]
fn addresses_on_cycles(rt: HostRuntime) -> Result<(), Fail> {
    let alloc = rt.alloc();
    for text in ADDRESSES_ON_CYCLES {
        assert!(rt; is_refused_at(alloc, text, 36, b"")?);
    }
    Ok(())
}

#[test]
fn without_bodies(rt: HostRuntime) -> Result<(), Fail> {
    let alloc = rt.alloc();
    for (text, word) in WITHOUT_BODIES {
        assert!(rt; is_refused_at(alloc, text, 37, word)?);
    }
    Ok(())
}

#[test]
fn limits(rt: HostRuntime) -> Result<(), Fail> {
    let alloc = rt.alloc();
    for text in LIMITS {
        assert!(rt; is_refused_at(alloc, text, 38, b"")?);
    }
    Ok(())
}

#[test]
fn no_constants(rt: HostRuntime) -> Result<(), Fail> {
    let alloc = rt.alloc();
    for text in NO_CONSTANTS {
        assert!(rt; is_refused_at(alloc, text, 39, b"")?);
    }
    Ok(())
}

#[test]
fn not_in_profile(rt: HostRuntime) -> Result<(), Fail> {
    let alloc = rt.alloc();
    for text in NOT_IN_PROFILE {
        assert!(rt; is_refused_at(alloc, text, 40, b"")?);
    }
    Ok(())
}
