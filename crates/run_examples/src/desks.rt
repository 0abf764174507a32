//! Runs of the top call over files in memory.

use rvt_edge::{Desk, MemoryDesk, MemorySink};
use rvt_run::rvt;
use std::alloc::Global;
use std::test::Fail;

/// The status and the text of these words, over a desk with these files.
pub fn run(
    alloc: Global,
    files: &[(&str, &[u8])],
    words: &[&str],
    fail_puts: Vec<u32>,
) -> Result<(u8, String), Fail> {
    let mut desk = MemoryDesk::new(alloc, Vec::new(alloc));
    for (name, content) in files {
        if desk.save(alloc, name, content).is_err() {
            return Err(Fail::from("the desk refused"));
        }
    }
    let mut given = Vec::new(alloc);
    for word in words {
        given.push(String::from_str(alloc, word)?)?;
    }
    let Ok(mut sink) = MemorySink::new(alloc, 1000, fail_puts) else {
        return Err(Fail::from("no sink"));
    };
    let status = rvt(alloc, &given, &mut desk, &mut sink);
    let mut text = String::new(alloc);
    for byte in sink.bytes() {
        text.push(char::from(*byte))?;
    }
    Ok((status, text))
}

/// The same of `compare` with these two files.
pub fn compare(alloc: Global, old: &[u8], new: &[u8]) -> Result<(u8, String), Fail> {
    run(
        alloc,
        &[("old.c", old), ("new.c", new)],
        &["compare", "old.c", "new.c"],
        Vec::new(alloc),
    )
}

/// The same with this map.
pub fn compare_under(
    alloc: Global,
    old: &[u8],
    new: &[u8],
    map: &[u8],
) -> Result<(u8, String), Fail> {
    run(
        alloc,
        &[("old.c", old), ("new.c", new), ("names.map", map)],
        &["compare", "old.c", "--map", "names.map", "new.c"],
        Vec::new(alloc),
    )
}
