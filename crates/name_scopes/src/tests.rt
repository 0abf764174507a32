use crate::Scopes;
use std::alloc::{AllocError, Global};
use std::test::Fail;

#[derive(Drop)]
enum Meaning {
    Object(u32),
    Fields(Vec<u8>),
}

fn is(scopes: &Scopes<u32>, name: &[u8], value: u32) -> bool {
    match scopes.look_up(name) {
        Some(found) => *found == value,
        None => false,
    }
}

#[test]
fn a_hidden_name_comes_back(rt: HostRuntime) -> Result<(), Fail> {
    let mut scopes: Scopes<u32> = Scopes::new(rt.alloc());
    scopes.declare(b"x", 1)?;
    scopes.declare(b"y", 2)?;
    let height = scopes.height();
    scopes.declare(b"x", 3)?;
    assert!(rt; is(&scopes, b"x", 3));
    assert!(rt; is(&scopes, b"y", 2));
    scopes.leave(height);
    assert!(rt; is(&scopes, b"x", 1));
    assert!(rt; is(&scopes, b"y", 2));
    assert!(rt; scopes.look_up(b"z").is_none());
    Ok(())
}

#[test]
fn a_block_is_apart(rt: HostRuntime) -> Result<(), Fail> {
    let mut scopes: Scopes<u32> = Scopes::new(rt.alloc());
    scopes.declare(b"x", 1)?;
    let height = scopes.height();
    assert!(rt; !scopes.is_declared_since(height, b"x"));
    assert!(rt; scopes.is_declared_since(0, b"x"));
    scopes.declare(b"y", 2)?;
    assert!(rt; scopes.is_declared_since(height, b"y"));
    scopes.leave(height);
    assert!(rt; !scopes.is_declared_since(0, b"y"));
    assert!(rt; scopes.height() == 1);
    Ok(())
}

fn fields(alloc: Global, scopes: &mut Scopes<Meaning>) -> Result<(), AllocError> {
    scopes.declare(b"s", Meaning::Fields(Vec::from_slice(alloc, b"xy")?))?;
    scopes.declare(b"n", Meaning::Object(7))?;
    Ok(())
}

#[test]
fn values_may_own_memory(rt: HostRuntime) -> Result<(), Fail> {
    let alloc = rt.alloc();
    let mut scopes: Scopes<Meaning> = Scopes::new(alloc);
    fields(alloc, &mut scopes)?;
    fields(alloc, &mut scopes)?;
    scopes.leave(2);
    match scopes.look_up(b"s") {
        Some(Meaning::Fields(names)) => assert!(rt; names.as_slice() == b"xy".as_slice()),
        _ => assert!(rt; false),
    }
    match scopes.look_up(b"n") {
        Some(Meaning::Object(number)) => assert!(rt; *number == 7),
        _ => assert!(rt; false),
    }
    Ok(())
}

// a thousand blocks one in another, with a hundred names each, all of which are met again in each block
fn fill(scopes: &mut Scopes<u32>) -> Result<(), AllocError> {
    for _block in 0..1000u32 {
        for name in 0..100u32 {
            scopes.declare(&name.to_le_bytes(), name)?;
        }
    }
    Ok(())
}

#[test]
fn many_names(rt: HostRuntime) -> Result<(), Fail> {
    let mut scopes: Scopes<u32> = Scopes::new(rt.alloc());
    fill(&mut scopes)?;
    assert!(rt; scopes.height() == 100_000);
    for block in 0..1000usize {
        scopes.leave(100_000 - 100 * block);
        assert!(rt; is(&scopes, &7u32.to_le_bytes(), 7));
    }
    scopes.leave(0);
    assert!(rt; scopes.look_up(&7u32.to_le_bytes()).is_none());
    Ok(())
}
