use c_lexer::Place;
use c_source::{Refused, read};
use std::alloc::Global;
use std::test::Fail;

// Files that gcc -std=c11 -fsyntax-only takes, too.
const ACCEPTED: &[&[u8]] = &[
    b"",
    b"int f(int a) { return 0; }",
    b"typedef int T; T f(T a) { return a; }",
    b"typedef unsigned long int U, *P, V[3]; int f(void) { V v; return v[0]; }",
    b"struct s { int a, *p; const char c[4]; };",
    b"struct s { int a; } x, *y;",
    b"typedef struct { int a; } T; T t = { 1 };",
    b"typedef struct t { struct u *next; short const int b; } T; const T t[2] = { { 0, 1 }, { 0 }, };",
    b"enum e { A, B = 3, C, }; enum { D = C + 1 };",
    b"static inline int f(void) { return 1; } extern int g(int); static int x = 3, y;",
    b"int f(int a[], int b[3], const int *p, int * const restrict q);",
    b"long unsigned int long a; int const long unsigned b; char signed c; short int unsigned d;",
    b"int f(void) { int i, j; for (i = 0, j = 1; i < 3; i++, j--) ; return 0; }",
    b"int f(void) { for (int i = 0, j = 1; i < j; ++i) { continue; } for (;;) break; return 0; }",
    b"int f(int a) { do a -= 2; while (a > 0); while (a < 9) a <<= 1; return a; }",
    b"int f(int a) { switch (a) { case 1: case 2: return 1; case -3: { a++; } break; default: break; } return 0; }",
    b"int f(int a) { switch (a) { } return 0; }",
    b"struct s { int a; }; void f(int *p, struct s *q) { *p = 1; (void)*p; (*p)++; ++*p; p[1] += 2; q->a ^= 1; (*q).a |= 2; }",
    b"int f(int a) { return sizeof (int) - 1 + sizeof a + sizeof (a) + sizeof -a; }",
    b"int f(int a[3]) { return (unsigned char)(int)a[1] * (a)[2]; }",
    b"int a[2][2] = { { 1, 2 }, { 3 }, };",
    b"int f(int a, int b) { if (a) if (b) return 1; else return 2; return 3; }",
    b"int f(int a) { if (a == 1) return 1; else if (a == 2) return 2; else { return 3; } }",
    b"int f(int a, int b) { return a ? b ? 1 : 2 : a || b && a | b ^ a & b == a < b << a + b * -a; }",
    b"int f(int a) { return a >= 1 != a <= 2 > ~a >> !a % 3 / 2; }",
    b"typedef int T; int f(T T_, unsigned const U) { int x = (T)T_; return x; }",
    b"int f(register int a) { register int b = a; return b; }",
    b"int x; struct s; struct s { struct s *p; }; typedef struct s S; S h;",
    b"#include <stdint.h>\n#include <stdbool.h>\n#include <stddef.h>\nuint8_t f(size_t n, bool b) { return b ? (uint8_t)n : UINT8_MAX; } int64_t g; bool t = true; int *p = NULL;",
    b"#define N 3 /* three */\n# define M (-1) // minus one\nint a[N]; int f(void) { return M; }",
    b"int f(int a) { { } ; { int b; { int c = a; b = c; } } return '\\n' + '\\x41' + '\\101' + 0x1fu + 017l; }",
    b"int f(void) { return ((((((((((1)))))))))); }",
    b"void g(void); void f(void) { g(); (void)0; }",
    b"int f(int a, int b) { int c[2] = { f(a, f(b, 1)), (a) }; return c[f(a, b)]; }",
];

// An `@` stands before the token that is refused, or at the end of the file; beside it is what the refusal names.
const UNEXPECTED: &[(&[u8], &[u8])] = &[
    (b"int f( @{", b"{"),
    (b"int f(int a@", b""),
    (b"int f(int a) { return a@", b""),
    (b"int @3;", b"3"),
    (b"int f(int a) { return 1 @}", b"}"),
    (b"long @char x;", b"char"),
    (b"int f(int *p) { (void @*) p; }", b"*"),
    (b"typedef struct S S; struct @S x;", b"S"),
    (b"int f(void) { enum e @{ A } x; }", b"{"),
    (b"struct @{ int a; } x;", b"{"),
    (b"void f(struct s @{ int a; } x);", b"{"),
    (b"int f(void) { return sizeof (enum e @{ A }); }", b"{"),
    (b"void f(void) { @case 1: ; }", b"case"),
    (b"void f(void) { @else ; }", b"else"),
    (b"int a[3] = { @};", b"}"),
    (b"int a[3] = { 1, @, 2 };", b","),
    (b"int f(@a, b) { return 0; }", b"a"),
    (b"int f(int a, @) { return 0; }", b")"),
    (b"@f(int a) { return 0; }", b"f"),
    (b"int *f@(int a) { return 0; }", b"("),
    (b"int @(*p)(int);", b"("),
    (b"int *@*p;", b"*"),
    (b"struct s { int a @: 3; };", b":"),
    (b"int f(int a) { return a ? @: 1; }", b":"),
    (b"void f(int a, int b) { a = b @= 1; }", b"="),
    (b"int f(int a) { return f(a @= 1); }", b"="),
    (b"void f(int a) { if (a @= 1) ; }", b"="),
    (b"void f(int a) { a@, a; }", b","),
    (b"int f(int a) { return a@, a; }", b","),
    (b"void f(int i) { i++ @+ 1; }", b"+"),
    (b"int f(int i) { return i@++; }", b"++"),
    (b"void f(int i) { while (i@--) ; }", b"--"),
    (b"int x, @int y;", b"int"),
    (b"int f(void) { return sizeof (int)@[3]; }", b"["),
    (
        b"struct s { int a; }; void f(void) { (struct s)@{ 1 }; }",
        b"{",
    ),
    (b"extern int x@;", b";"),
    (b"@register int x;", b"register"),
    (b"void f(void) { @inline int x; }", b"inline"),
    (b"int f(void) @__attribute__((pure));", b"__attribute__"),
    (b"void f(void) { x@: ; }", b":"),
    (b"void f(void) { @default: ; }", b"default"),
    (b"void f(int a) { switch (a) { @int x; } }", b"int"),
    (b"void f(int a) { switch (a) @a; }", b"a"),
    (b"void f(int a) { do a++; while (a) @}", b"}"),
    (b"void f(int a) { if (a) @int x; }", b"int"),
    (b"@;", b";"),
    (b"int f(int a) { int b; b = @; }", b";"),
    (b"typedef int T@() ;", b"("),
    (b"typedef int T; int @T;", b"T"),
    (b"typedef int T; void f(void) { int @T; }", b"T"),
    (b"int f(void) { } @}", b"}"),
    (b"unsigned @signed a;", b"signed"),
    (b"void @unsigned a;", b"unsigned"),
    (b"int f(int a) { return (int) @; }", b";"),
    (b"enum @;", b";"),
    (b"enum e { @};", b"}"),
    (b"enum e { A = @};", b"}"),
    (b"int a[2@;", b";"),
    (b"int f(int a) { for (a = 0@) ; }", b")"),
    (b"int f(int a) { for (a = 0; a < 1; a++@; ) ; }", b";"),
];

// The same for tokens that the profile leaves out.
const LEFT_OUT: &[(&[u8], &[u8])] = &[
    (b"void f(void) { @goto x; }", b"goto"),
    (b"@volatile int x;", b"volatile"),
    (b"@union u { int a; };", b"union"),
    (b"@float f(void);", b"float"),
    (b"@double x;", b"double"),
    (b"void f(void) { @static int x; }", b"static"),
    (b"void f(void) { @extern int x; }", b"extern"),
    (b"void f(void) { @typedef int T; }", b"typedef"),
    (b"int f(int a, @...);", b"..."),
    (b"int f(void) { return @\"text\"; }", b"\"text\""),
    (b"int f(void) { switch (1) { case 1 @... 3: ; } }", b"..."),
    (b"@_Static_assert(1, \"\");", b"_Static_assert"),
    (b"@_Noreturn void f(void);", b"_Noreturn"),
    (b"void f(void) { @auto int x; }", b"auto"),
    (b"unsigned @_Complex x;", b"_Complex"),
    (b"int f(void) { return @_Alignof(int); }", b"_Alignof"),
];

fn is_read(alloc: Global, text: &[u8]) -> bool {
    match read(alloc, text) {
        Ok(_) => true,
        Err(_) => false,
    }
}

// Whether the text without its first `@` is refused where that stands.
fn is_refused_at(alloc: Global, text: &[u8], cause: u16, word: &[u8]) -> Result<bool, Fail> {
    let mut plain = Vec::new(alloc);
    let mut column = 0;
    for byte in text {
        if *byte == b'@' && column == 0 {
            column = plain.len() + 1;
        } else {
            plain.push(*byte)?;
        }
    }
    match read(alloc, &plain) {
        Ok(_) => Ok(false),
        Err(Refused::Memory) => Ok(false),
        Err(Refused::Source(refusal)) => Ok(
            refusal.cause == cause
                && refusal.place == Place { line: 1, column }
                && refusal.word.is(word),
        ),
    }
}

#[test]
fn accepted_files(rt: HostRuntime) -> Result<(), Fail> {
    let alloc = rt.alloc();
    for text in ACCEPTED {
        assert!(rt; is_read(alloc, text));
    }
    Ok(())
}

#[test]
fn unexpected_tokens(rt: HostRuntime) -> Result<(), Fail> {
    let alloc = rt.alloc();
    for (text, word) in UNEXPECTED {
        assert!(rt; is_refused_at(alloc, text, 11, word)?);
    }
    Ok(())
}

#[test]
fn tokens_that_are_left_out(rt: HostRuntime) -> Result<(), Fail> {
    let alloc = rt.alloc();
    for (text, word) in LEFT_OUT {
        assert!(rt; is_refused_at(alloc, text, 13, word)?);
    }
    Ok(())
}

// `front`, so many times `part`, and `back`.
fn repeated(
    alloc: Global,
    front: &[u8],
    part: &[u8],
    times: usize,
    back: &[u8],
) -> Result<Vec<u8>, Fail> {
    let mut text = Vec::new(alloc);
    text.extend_from_slice(front)?;
    for _ in 0..times {
        text.extend_from_slice(part)?;
    }
    text.extend_from_slice(back)?;
    Ok(text)
}

// The function's block and the brackets are levels, 100 of them at most.
#[test]
fn levels(rt: HostRuntime) -> Result<(), Fail> {
    let alloc = rt.alloc();
    let open = repeated(alloc, b"int f(int x) { return ", b"(", 99, b"x")?;
    assert!(rt; is_read(alloc, &repeated(alloc, &open, b")", 99, b"; }")?));
    let deeper = repeated(alloc, b"int f(int x) { return ", b"(", 99, b"@(x")?;
    assert!(rt;
        is_refused_at(
            alloc,
            &repeated(alloc, &deeper, b")", 100, b"; }")?,
            12,
            b"("
        )?
    );
    assert!(rt;
        is_read(
            alloc,
            &repeated(alloc, b"int f(int x) { return x", b"+x", 99, b"; }")?
        )
    );
    let sums = repeated(alloc, b"int f(int x) { return x", b"+x", 99, b"@+x; }")?;
    assert!(rt; is_refused_at(alloc, &sums, 12, b"+")?);
    // suffixes and casts open no level that stays open
    assert!(rt;
        is_read(
            alloc,
            &repeated(alloc, b"int f(int x) { return x", b".f", 1000, b"; }")?
        )
    );
    assert!(rt;
        is_read(
            alloc,
            &repeated(alloc, b"int f(int x) { return ", b"(int)", 1000, b"x; }")?
        )
    );
    Ok(())
}

#[test]
fn other_refusals(rt: HostRuntime) -> Result<(), Fail> {
    let alloc = rt.alloc();
    assert!(rt; is_refused_at(alloc, b"int f(int a) { return @08; }", 3, b"")?);
    assert!(rt; is_refused_at(alloc, b"int f(void) { return @'ab'; }", 4, b"")?);
    assert!(rt; is_refused_at(alloc, b"@#pragma once", 5, b"")?);
    assert!(rt; is_refused_at(alloc, b"@#define N x", 6, b"")?);
    assert!(rt; is_refused_at(alloc, b"int a; @/* *", 2, b"")?);
    assert!(rt; is_refused_at(alloc, b"int a; @\"", 1, b"")?);
    Ok(())
}
