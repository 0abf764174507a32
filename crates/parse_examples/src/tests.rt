use crate::{Action, Class, read_lists};
use c_parser::{Cause, Fault, Step, Token};
use std::alloc::Global;
use std::test::Fail;

// `T` stands for typedef, `I` for if, `E` for else, and each other letter for a name.
fn token(byte: u8) -> Token<Class> {
    let class = match byte {
        b'(' => Class::LeftParen,
        b')' => Class::RightParen,
        b',' => Class::Comma,
        b';' => Class::Semicolon,
        b'T' => Class::Typedef,
        b'I' => Class::If,
        b'E' => Class::Else,
        _ => Class::Name,
    };
    Token {
        class,
        name: byte as u32,
    }
}

fn tokens(alloc: Global, text: &[u8]) -> Result<Vec<Token<Class>>, Fail> {
    let mut out = Vec::new(alloc);
    for byte in text {
        out.push(token(*byte))?;
    }
    Ok(out)
}

// A taken token is a point.
fn shown(step: Step<Action>) -> u8 {
    match step {
        Step::Token => b'.',
        Step::Make(Action::Item) => b'I',
        Step::Make(Action::Typedef) => b'T',
        Step::Make(Action::List) => b'L',
        Step::Make(Action::IfElse) => b'E',
        Step::Make(Action::If) => b'F',
        Step::Make(Action::End) => b'e',
        Step::Make(Action::Member) => b'm',
        Step::Make(Action::Type) => b't',
    }
}

fn steps(alloc: Global, text: &[u8]) -> Result<Vec<u8>, Fail> {
    let mut out = Vec::new(alloc);
    match read_lists(alloc, &tokens(alloc, text)?) {
        Ok(steps) => {
            for step in &steps {
                out.push(shown(*step))?;
            }
            Ok(out)
        }
        Err(_) => Err("no file")?,
    }
}

fn fault(alloc: Global, text: &[u8]) -> Result<Fault, Fail> {
    match read_lists(alloc, &tokens(alloc, text)?) {
        Ok(_) => Err("a file")?,
        Err(fault) => Ok(fault),
    }
}

#[test]
fn lists_in_lists(rt: HostRuntime) -> Result<(), Fail> {
    let alloc = rt.alloc();
    assert_eq!(rt; steps(alloc, b"();")?.as_slice(), b"..e.LI".as_slice());
    assert_eq!(rt;
        steps(alloc, b"(a,(b),());")?.as_slice(),
        b"..m...m.em...em.e.LI".as_slice()
    );
    assert_eq!(rt;
        steps(alloc, b"();();")?.as_slice(),
        b"..e.LI..e.LI".as_slice()
    );
    Ok(())
}

// A name counts as a typedef name from the end of its declaration on.
#[test]
fn declared_names(rt: HostRuntime) -> Result<(), Fail> {
    let alloc = rt.alloc();
    assert_eq!(rt;
        steps(alloc, b"Ta;(a,b);")?.as_slice(),
        b"...TI..tm..m.e.LI".as_slice()
    );
    assert_eq!(rt;
        steps(alloc, b"Tb;Ta;(b,a);")?.as_slice(),
        b"...TI...TI..tm..tm.e.LI".as_slice()
    );
    assert_eq!(rt;
        fault(alloc, b"Ta;Ta;")?,
        Fault::Refused(4, Cause::Unexpected)
    );
    Ok(())
}

// An else belongs to the nearest if.
#[test]
fn dangling_else(rt: HostRuntime) -> Result<(), Fail> {
    let alloc = rt.alloc();
    assert_eq!(rt; steps(alloc, b"I();")?.as_slice(), b"...e.LFI".as_slice());
    assert_eq!(rt;
        steps(alloc, b"II();E();")?.as_slice(),
        b"....e.L...e.LEFI".as_slice()
    );
    assert_eq!(rt;
        steps(alloc, b"II();E();E();")?.as_slice(),
        b"....e.L...e.LE...e.LEI".as_slice()
    );
    Ok(())
}

#[test]
fn first_refused_token(rt: HostRuntime) -> Result<(), Fail> {
    let alloc = rt.alloc();
    assert_eq!(rt; fault(alloc, b";")?, Fault::Refused(0, Cause::Unexpected));
    assert_eq!(rt;
        fault(alloc, b"(a,);")?,
        Fault::Refused(3, Cause::Unexpected)
    );
    assert_eq!(rt;
        fault(alloc, b"(a b,,);")?,
        Fault::Refused(2, Cause::Unexpected)
    );
    assert_eq!(rt;
        fault(alloc, b"(a);)")?,
        Fault::Refused(4, Cause::Unexpected)
    );
    assert_eq!(rt;
        fault(alloc, b"();E();")?,
        Fault::Refused(3, Cause::Unexpected)
    );
    Ok(())
}

#[test]
fn early_end(rt: HostRuntime) -> Result<(), Fail> {
    let alloc = rt.alloc();
    assert_eq!(rt; fault(alloc, b"")?, Fault::Refused(0, Cause::UnexpectedEnd));
    assert_eq!(rt;
        fault(alloc, b"(a")?,
        Fault::Refused(2, Cause::UnexpectedEnd)
    );
    assert_eq!(rt;
        fault(alloc, b"(a)")?,
        Fault::Refused(3, Cause::UnexpectedEnd)
    );
    assert_eq!(rt;
        fault(alloc, b"I")?,
        Fault::Refused(1, Cause::UnexpectedEnd)
    );
    assert_eq!(rt;
        fault(alloc, b"I();E")?,
        Fault::Refused(5, Cause::UnexpectedEnd)
    );
    Ok(())
}

fn repeated(alloc: Global, parts: &[(&[u8], u8)]) -> Result<Vec<u8>, Fail> {
    let mut out = Vec::new(alloc);
    for (part, times) in parts {
        for _ in 0..*times {
            out.extend_from_slice(part)?;
        }
    }
    Ok(out)
}

#[test]
fn hundred_levels(rt: HostRuntime) -> Result<(), Fail> {
    let alloc = rt.alloc();
    let deep = repeated(alloc, &[(b"(", 100), (b")", 100), (b";", 1)])?;
    assert_eq!(rt; steps(alloc, &deep)?.len(), 201 + 100 + 99 + 2);
    let deeper = repeated(alloc, &[(b"(", 101), (b")", 101), (b";", 1)])?;
    assert_eq!(rt; fault(alloc, &deeper)?, Fault::Refused(100, Cause::TooDeep));
    // the levels of a part are closed at its end
    let twice = repeated(
        alloc,
        &[
            (b"(", 100),
            (b")", 99),
            (b",", 1),
            (b"(", 99),
            (b")", 100),
            (b";", 1),
        ],
    )?;
    assert_eq!(rt; steps(alloc, &twice)?.is_empty(), false);
    // an if opens a level too
    let mixed = repeated(alloc, &[(b"I", 60), (b"(", 41)])?;
    assert_eq!(rt; fault(alloc, &mixed)?, Fault::Refused(100, Cause::TooDeep));
    // a token that no number of levels would let stand is unexpected
    let wrong = repeated(alloc, &[(b"(", 100), (b";", 1)])?;
    assert_eq!(rt;
        fault(alloc, &wrong)?,
        Fault::Refused(100, Cause::Unexpected)
    );
    Ok(())
}
