ghost use Rattle.std.specs.Prelude.{◌<◌, ◌-◌, ◌^◌, length};

use crate::{MapFault, read_map};
use rvt_num::Kind;
use std::alloc::Global;
use std::test::Fail;

fn is_accepted(alloc: Global, text: &[u8]) -> bool
    requires { length text.now < 2 ^ 32 - 1 }
{
    read_map(alloc, text).is_ok()
}

fn is_refused(alloc: Global, text: &[u8], line: u32, cause: u16) -> bool
    requires { length text.now < 2 ^ 32 - 1 }
{
    match read_map(alloc, text) {
        Err(MapFault::Refused(at, why)) => at == line && why == cause,
        _ => false,
    }
}

#[test]
fn what_a_map_says(rt: HostRuntime) -> Result<(), Fail> {
    let text = b"# renamed\nfunction f g\n\nglobal G G\nobject buffer u8 16";
    let Ok(map) = read_map(rt.alloc(), text) else {
        assert!(rt; false);
        return Ok(());
    };
    match map.functions.as_slice() {
        [pair] => assert!(rt; pair.line == 2 && pair.old.is(b"f") && pair.new.is(b"g")),
        _ => assert!(rt; false),
    }
    match map.globals.as_slice() {
        [pair] => assert!(rt; pair.line == 4 && pair.old.is(b"G") && pair.new.is(b"G")),
        _ => assert!(rt; false),
    }
    match map.objects.as_slice() {
        [object] => {
            assert!(rt; object.line == 5 && object.name.is(b"buffer"));
            assert!(rt; object.kind == Kind::U8 && object.count == 16);
        }
        _ => assert!(rt; false),
    }
    Ok(())
}

#[test]
fn lines_that_are_none(rt: HostRuntime) -> Result<(), Fail> {
    let alloc = rt.alloc();
    assert!(rt; is_refused(alloc, b"functoin f g", 1, 41));
    assert!(rt; is_refused(alloc, b"\nfunction f  g\n", 2, 41));
    assert!(rt; is_refused(alloc, b"function f g h", 1, 41));
    assert!(rt; is_refused(alloc, b"function f g\r\n", 1, 41));
    assert!(rt; is_refused(alloc, b"global int G", 1, 41));
    assert!(rt; is_refused(alloc, b"object a i32 4097", 1, 41));
    assert!(rt; is_refused(alloc, b"object a i32 08", 1, 41));
    assert!(rt; is_refused(alloc, b"object a int 8", 1, 41));
    assert!(rt; is_accepted(alloc, b"object a i32 4096"));
    assert!(rt; is_accepted(alloc, b""));
    Ok(())
}

#[test]
fn names_that_stand_twice(rt: HostRuntime) -> Result<(), Fail> {
    let alloc = rt.alloc();
    assert!(rt; is_refused(alloc, b"function f g\nfunction f h", 2, 42));
    assert!(rt; is_refused(alloc, b"global G H\nglobal K H\nbad", 2, 42));
    assert!(rt; is_refused(alloc, b"bad\nobject a u8 1\nobject a u8 1", 1, 41));
    assert!(rt;
        is_accepted(
            alloc,
            b"function f g\nfunction g f\nglobal f g\nobject f u8 1"
        )
    );
    Ok(())
}
