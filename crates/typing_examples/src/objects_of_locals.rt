use local_objects::{has_room, objects_of_locals, resolve};
use rvt_tree::builders::{actions, block, statements, variable};
use rvt_tree::{Act, Acts, Bump, Lvalue, Stmt, Stmts, Variable};
use std::alloc::{AllocError, Global};
use std::test::Fail;

fn variable_of(act: &Act) -> Option<Variable> {
    match act {
        Act::Assign(Lvalue::Variable(variable), _) => Some(*variable),
        Act::Bump(_, Lvalue::Variable(variable)) => Some(*variable),
        _ => None,
    }
}

/// What a declaration declares, what an action changes, and what the last part of a `for` changes first.
fn named(statement: &Stmt) -> Option<Variable> {
    match statement {
        Stmt::Declare(variable) => Some(*variable),
        Stmt::Act(act) => variable_of(act),
        Stmt::For(_, _, _, Acts::More(act, _), _) => variable_of(act),
        _ => None,
    }
}

fn all_named(alloc: Global, body: &Stmt) -> Result<Vec<Option<Variable>>, AllocError> {
    let mut found = Vec::new(alloc);
    if let Stmt::Block(list) = body {
        let mut rest = &**list;
        while let Stmts::More(statement, more) = rest {
            found.push(named(statement))?;
            rest = &**more;
        }
    }
    Ok(found)
}

fn bump(number: u32) -> Act {
    Act::Bump(Bump::UpAfter, Lvalue::Variable(Variable::Local(number)))
}

// int a, b, c; of which b and c are objects: { int b; a = b; b = a; for (;; c++) ; }
fn small_body(alloc: Global) -> Result<Stmt, AllocError> {
    let mut items = Vec::new(alloc);
    items.push(Stmt::Declare(Variable::Local(1)))?;
    let value = variable(alloc, Variable::Local(1))?;
    items.push(Stmt::Act(Act::Assign(Lvalue::Variable(Variable::Local(0)), value)))?;
    let value = variable(alloc, Variable::Local(0))?;
    items.push(Stmt::Act(Act::Assign(Lvalue::Variable(Variable::Local(1)), value)))?;
    let mut last = Vec::new(alloc);
    last.push(bump(2))?;
    let last = actions(alloc, last)?;
    let first = Box::new(alloc, Stmts::End)?;
    let empty = Box::new(alloc, Stmt::Empty)?;
    items.push(Stmt::For(1, first, None, last, empty))?;
    let list = statements(alloc, items)?;
    block(alloc, list)
}

#[test]
fn a_small_body(rt: HostRuntime) -> Result<(), Fail> {
    let alloc = rt.alloc();
    let is_object = [false, true, true];
    assert!(rt; has_room(&is_object, 7));
    let objects = objects_of_locals(alloc, &is_object, 7)?;
    assert_eq!(rt; objects.len(), 3);
    assert!(rt; objects[0].is_none());
    assert!(rt; objects[1] == Some(7));
    assert!(rt; objects[2] == Some(8));
    let mut body = small_body(alloc)?;
    resolve(&mut body, objects.as_slice());
    let found = all_named(alloc, &body)?;
    assert_eq!(rt; found.len(), 4);
    assert!(rt; found[0] == Some(Variable::Object(7)));
    assert!(rt; found[1] == Some(Variable::Local(0)));
    assert!(rt; found[2] == Some(Variable::Object(7)));
    assert!(rt; found[3] == Some(Variable::Object(8)));
    Ok(())
}

#[test]
fn a_long_block(rt: HostRuntime) -> Result<(), Fail> {
    let alloc = rt.alloc();
    let mut items = Vec::new(alloc);
    for _ in 0..60_000 {
        items.push(Stmt::Act(bump(1)))?;
    }
    let list = statements(alloc, items)?;
    let mut body = block(alloc, list)?;
    resolve(&mut body, &[None, Some(5)]);
    let found = all_named(alloc, &body)?;
    assert_eq!(rt; found.len(), 60_000);
    for variable in found.iter() {
        assert!(rt; *variable == Some(Variable::Object(5)));
    }
    Ok(())
}

#[test]
fn the_last_numbers(rt: HostRuntime) -> Result<(), Fail> {
    assert!(rt; has_room(&[true, false], u32::MAX - 1));
    assert!(rt; !has_room(&[true, true], u32::MAX - 1));
    Ok(())
}
