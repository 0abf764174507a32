//! Texts as the grammar reads them.

use c_syntax::{Expr, Infix, Suffixes};
use c_tokens::{Punctuator, TokenClass};
use expression_actions::{Fault, Operands, take};
use rvt_tree::Place;
use std::alloc::Global;

/// The first line, at this column.
fn at(column: u32) -> Place {
    Place { line: 1, column }
}

/// `a.b - c[d]`
fn difference(alloc: Global, operands: &mut Operands) -> Result<(), Fault> {
    operands.keep(alloc, TokenClass::Word, b"a", at(1))?;
    operands.name()?;
    operands.keep(alloc, TokenClass::Punct(Punctuator::Dot), b".", at(2))?;
    operands.keep(alloc, TokenClass::Word, b"b", at(3))?;
    operands.dot(alloc)?;
    operands.keep(alloc, TokenClass::Punct(Punctuator::Minus), b"-", at(5))?;
    operands.keep(alloc, TokenClass::Word, b"c", at(7))?;
    operands.name()?;
    operands.keep(
        alloc,
        TokenClass::Punct(Punctuator::LeftBracket),
        b"[",
        at(8),
    )?;
    operands.keep(alloc, TokenClass::Word, b"d", at(9))?;
    operands.name()?;
    operands.index(alloc)?;
    operands.binary(alloc)
}

#[test]
fn a_difference_is_read(rt: HostRuntime) {
    let alloc = rt.alloc();
    let mut operands = Operands::new(alloc);
    assert!(rt; difference(alloc, &mut operands).is_ok());
    let Ok(Expr::Binary(operator, place, left, right)) = take(&mut operands.expressions) else {
        panic!(rt; "no difference")
    };
    assert_eq!(rt; operator, Infix::Subtract);
    assert_eq!(rt; place, at(5));
    let Expr::Postfix(_, suffixes) = Box::into_inner(left) else {
        panic!(rt; "no member")
    };
    assert!(rt; matches!(&*suffixes, Suffixes::Dot(_, _, _)));
}
