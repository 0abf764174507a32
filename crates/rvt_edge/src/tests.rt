//! What no clause says: that calls succeed, and that files and standard output are the real ones.

use crate::{Desk, DeskFault, Failed, FolderDesk, MemoryDesk, MemorySink, OutSink, Sink};
use std::fmt::Display;
use std::test::Fail;
use std::{fs, io};

#[test]
fn a_desk_in_memory_keeps_files(rt: HostRuntime) -> Result<(), Fail> {
    let alloc = rt.alloc();
    let mut desk = MemoryDesk::new(alloc, [3].to_vec(alloc)?);
    desk.save(alloc, "old.c", b"first")?;
    desk.save(alloc, "old.c", b"int f")?;
    assert_eq!(rt; desk.save(alloc, "new.c", b"third"), Err(DeskFault::Failed));
    let mut bytes = b"> ".to_vec(alloc)?;
    desk.read(alloc, "old.c", 2, &mut bytes)?;
    assert_eq!(rt; bytes.as_slice(), b"> int".as_slice());
    let absent = desk.read(alloc, "new.c", 2, &mut bytes);
    assert_eq!(rt; absent, Err(DeskFault::Failed));
    assert_eq!(rt; bytes.as_slice(), b"> int".as_slice());
    Ok(())
}

#[test]
fn a_sink_in_memory_fails_where_told_and_past_its_room(rt: HostRuntime) -> Result<(), Fail> {
    let alloc = rt.alloc();
    let mut sink = MemorySink::new(alloc, 5, [2].to_vec(alloc)?)?;
    for (piece, want) in [
        (b"ab".as_slice(), Ok(())),
        (b"".as_slice(), Ok(())),
        (b"xyz".as_slice(), Err(Failed)),
        (b"c".as_slice(), Ok(())),
        (b"def".as_slice(), Err(Failed)),
    ] {
        assert_eq!(rt; sink.put(piece), want, "at {piece:?}");
    }
    assert_eq!(rt; sink.bytes(), b"abcde".as_slice());
    Ok(())
}

#[test]
fn a_desk_of_a_folder_has_real_files(rt: HostRuntime) -> Result<(), Fail> {
    let alloc = rt.alloc();
    let name = "rvt_edge_saved.txt";
    let mut content = Vec::new(alloc);
    for i in 0..5000u32 {
        content.push((i % 251) as u8)?;
    }
    let mut desk = FolderDesk::new(&rt);
    desk.save(alloc, name, &content)?;
    let whole = fs::read(&rt, name)?;
    assert_eq!(rt; whole, content);
    let mut bytes = Vec::new(alloc);
    desk.read(alloc, name, 5000, &mut bytes)?;
    assert_eq!(rt; bytes, content);
    bytes.clear();
    desk.read(alloc, name, 4998, &mut bytes)?;
    content.truncate(4999);
    assert_eq!(rt; bytes, content);
    fs::remove_file(&rt, name)?;
    let no_folder = desk.save(alloc, "no_such_folder/saved.txt", b"");
    assert_eq!(rt; no_folder, Err(DeskFault::Failed));
    let gone = desk.read(alloc, name, 9, &mut bytes);
    assert_eq!(rt; gone, Err(DeskFault::Failed));
    assert_eq!(rt; bytes, content);
    Ok(())
}

/// A device that takes two bytes a write, and nothing of a single byte.
struct Pairs;

impl Print for Pairs {
    fn print<D: Display + Drop>(&self, _: D) -> io::Result<()> {
        Ok(())
    }

    fn println<D: Display + Drop>(&self, _: D) -> io::Result<()> {
        Ok(())
    }

    fn write_all(&self, _: &[u8]) -> io::Result<()> {
        Ok(())
    }

    fn write_some(&self, bytes: &[u8]) -> io::Result<usize> {
        if bytes.len() < 2 { Ok(0) } else { Ok(2) }
    }
}

#[test]
fn standard_output_takes_a_piece_and_a_device_may_not(rt: HostRuntime) -> Result<(), Fail> {
    let mut out = OutSink::new(&rt);
    out.put(b"a piece\n")?;
    out.put(b"")?;
    let mut device = OutSink::new(&Pairs);
    device.put(b"even")?;
    assert_eq!(rt; device.put(b"uneven!"), Err(Failed));
    assert_eq!(rt; device.put(b""), Ok(()));
    Ok(())
}
