use c_grammar::{Cause, Fault, steps};
use c_lexer::{Place, Tokens, lex};
use std::alloc::Global;
use std::test::Fail;

// Whether the text, which has one line, is a file, or is refused at a column.
fn is_said(alloc: Global, text: &[u8], refusal: Option<(usize, Cause, &[u8])>) -> bool {
    let Ok(Tokens { list, end }) = lex(alloc, text) else {
        return false;
    };
    match steps(alloc, text, &list, end) {
        Ok(_) => refusal.is_none(),
        Err(Fault::Memory) => false,
        Err(Fault::Refused(place, cause, word)) => match refusal {
            Some((column, why, token)) => {
                place == (Place { line: 1, column }) && cause == why && word.is(token)
            }
            None => false,
        },
    }
}

fn is_file(alloc: Global, text: &[u8]) -> bool {
    is_said(alloc, text, None)
}

fn is_refused(alloc: Global, text: &[u8], column: usize, cause: Cause, token: &[u8]) -> bool {
    is_said(alloc, text, Some((column, cause, token)))
}

#[test]
fn files(rt: HostRuntime) -> Result<(), Fail> {
    let alloc = rt.alloc();
    assert!(rt; is_file(alloc, b""));
    assert!(rt;
        is_file(
            alloc,
            b"typedef int T; T f(T a) { if (a) return 1; else if (a - 1) return (T) a; else return f(a) * 2; }"
        )
    );
    assert!(rt;
        is_file(
            alloc,
            b"int f(size_t a) { for (int i = 0; i < 3; i++) a += 1; switch (a) { case 1: case 2: ; default: } return 0; }"
        )
    );
    Ok(())
}

#[test]
fn refusals(rt: HostRuntime) -> Result<(), Fail> {
    let alloc = rt.alloc();
    assert!(rt; is_refused(alloc, b"int f( {", 8, Cause::Unexpected, b"{"));
    assert!(rt;
        is_refused(
            alloc,
            b"void f(void) { goto x; }",
            16,
            Cause::NotInProfile,
            b"goto"
        )
    );
    assert!(rt;
        is_refused(
            alloc,
            b"void f(void) { static int x; }",
            16,
            Cause::NotInProfile,
            b"static"
        )
    );
    assert!(rt;
        is_refused(
            alloc,
            b"typedef int T; int f(int a) { int T; }",
            35,
            Cause::Unexpected,
            b"T"
        )
    );
    assert!(rt;
        is_refused(
            alloc,
            b"int f(void) { return \"x\"; }",
            22,
            Cause::NotInProfile,
            b"\"x\""
        )
    );
    assert!(rt; is_refused(alloc, b"int f(", 7, Cause::UnexpectedEnd, b""));
    Ok(())
}
