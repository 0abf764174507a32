use call_cycles::{FunctionNotes, Memory, address_on_cycle, missing_body};
use rvt_tree::{Name, Place, Variable};
use std::alloc::Global;
use std::test::Fail;
use typing_base::{Call, Taken};

fn at(line: u32, column: u32) -> Place {
    Place { line, column }
}

fn local_at(place: Place) -> Taken {
    Taken {
        variable: Variable::Local(0),
        place,
    }
}

fn object_at(place: Place) -> Taken {
    Taken {
        variable: Variable::Object(0),
        place,
    }
}

#[derive(Drop)]
struct Function {
    calls: Vec<Call>,
    taken: Vec<Taken>,
}

// A function on a line of its own, with a body in which these functions are called and these addresses are taken.
fn defined(
    alloc: Global,
    line: u32,
    called: &[u32],
    addresses: &[Taken],
) -> Result<Function, Memory> {
    let mut calls = Vec::new(alloc);
    for function in called {
        let name = match Name::new(alloc, b"f") {
            Ok(name) => name,
            Err(_) => return Err(Memory),
        };
        let call = Call {
            function: *function,
            name,
            place: at(line, 1),
        };
        match calls.push(call) {
            Ok(()) => {}
            Err(_) => return Err(Memory),
        }
    }
    let taken = match Vec::from_slice(alloc, addresses) {
        Ok(taken) => taken,
        Err(_) => return Err(Memory),
    };
    Ok(Function { calls, taken })
}

fn notes_of(alloc: Global, functions: &[Function]) -> Result<Vec<FunctionNotes<'_>>, Memory> {
    let mut notes = Vec::new(alloc);
    for function in functions {
        let note = FunctionNotes {
            defined: true,
            calls: function.calls.as_slice(),
            taken: function.taken.as_slice(),
        };
        match notes.push(note) {
            Ok(()) => {}
            Err(_) => return Err(Memory),
        }
    }
    Ok(notes)
}

fn address_sought(alloc: Global, functions: &[Function]) -> Result<Option<Place>, Memory> {
    let list = notes_of(alloc, functions)?;
    let notes = list.as_slice();
    if notes.len() > 100 {
        return Err(Memory);
    }
    match missing_body(notes) {
        Some(_) => return Err(Memory),
        None => {}
    }
    address_on_cycle(alloc, notes)
}

#[test]
fn earlier_line_of_a_function_that_calls_itself(rt: HostRuntime) -> Result<(), Fail> {
    let alloc = rt.alloc();
    let taken = [local_at(at(3, 5)), local_at(at(2, 9))];
    let mut functions = Vec::new(alloc);
    functions.push(defined(alloc, 2, &[0], taken.as_slice())?)?;
    let found = address_sought(alloc, functions.as_slice())?;
    assert_eq!(rt; found, Some(at(2, 9)));
    Ok(())
}

// The first function calls into a cycle of three, of which the second takes addresses of an object and of a local.
#[test]
fn local_in_the_second_of_three(rt: HostRuntime) -> Result<(), Fail> {
    let alloc = rt.alloc();
    let outside = [local_at(at(1, 4))];
    let inside = [object_at(at(3, 1)), local_at(at(3, 8))];
    let mut functions = Vec::new(alloc);
    functions.push(defined(alloc, 1, &[1], outside.as_slice())?)?;
    functions.push(defined(alloc, 2, &[2], &[])?)?;
    functions.push(defined(alloc, 3, &[3], inside.as_slice())?)?;
    functions.push(defined(alloc, 4, &[1], &[])?)?;
    let found = address_sought(alloc, functions.as_slice())?;
    assert_eq!(rt; found, Some(at(3, 8)));
    Ok(())
}

#[test]
fn no_cycle_and_a_missing_body(rt: HostRuntime) -> Result<(), Fail> {
    let alloc = rt.alloc();
    let taken = [local_at(at(1, 4))];
    let mut functions = Vec::new(alloc);
    functions.push(defined(alloc, 1, &[1], taken.as_slice())?)?;
    functions.push(defined(alloc, 2, &[], taken.as_slice())?)?;
    let found = address_sought(alloc, functions.as_slice())?;
    assert_eq!(rt; found, None);
    functions.push(defined(alloc, 3, &[0, 3], &[])?)?;
    let notes = notes_of(alloc, functions.as_slice())?;
    let missing = match missing_body(notes.as_slice()) {
        Some(call) => call.function,
        None => 0,
    };
    assert_eq!(rt; missing, 3);
    Ok(())
}
