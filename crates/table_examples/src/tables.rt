//! From the text of two files and a map to the printed names of their table.

use c_programs::read_program;
use function_pairs::{FunctionPairs, function_pairs};
use joint_names::printed_name;
use joint_objects::{FunctionPartners, joint_table};
use rvt_tree::Program;
use std::alloc::Global;
use std::test::Fail;
use version_map::{Map, read_map};

fn program(alloc: Global, text: &str) -> Result<Program, Fail> {
    match read_program(alloc, text.as_bytes()) {
        Ok(program) => Ok(program),
        Err(_) => Err(Fail::from("the file is refused")),
    }
}

fn map_in(alloc: Global, text: &str) -> Result<Map, Fail> {
    let bytes = text.as_bytes();
    if bytes.len() > 1_048_576 {
        return Err(Fail::from("the map is too long"));
    }
    match read_map(alloc, bytes) {
        Ok(map) => Ok(map),
        Err(_) => Err(Fail::from("the map is refused")),
    }
}

/// The names of the objects in the table's order, each with a space behind it.
fn names(alloc: Global, old: &str, new: &str, map: &str) -> Result<Vec<u8>, Fail> {
    let old = program(alloc, old)?;
    let new = program(alloc, new)?;
    let map = map_in(alloc, map)?;
    let FunctionPairs { of_old, of_new } = function_pairs(
        alloc,
        old.functions.as_slice(),
        new.functions.as_slice(),
        map.functions.as_slice(),
    )?;
    let functions = FunctionPartners { of_old, of_new };
    let table = joint_table(alloc, &old, &new, &functions, &map)?;
    let mut text = Vec::new(alloc);
    for object in table.as_slice() {
        let name = printed_name(alloc, &old, &new, &map, *object)?;
        text.extend_from_slice(name.bytes())?;
        text.push(b' ')?;
    }
    Ok(text)
}

/// Passes where the table of two files and a map has these names.
pub fn with_map(alloc: Global, old: &str, new: &str, map: &str, wanted: &str) -> Result<(), Fail> {
    let text = names(alloc, old, new, map)?;
    if text.as_slice() == wanted.as_bytes() {
        Ok(())
    } else {
        Err(Fail::from(wanted))
    }
}

pub fn without_map(alloc: Global, old: &str, new: &str, wanted: &str) -> Result<(), Fail> {
    with_map(alloc, old, new, "", wanted)
}
