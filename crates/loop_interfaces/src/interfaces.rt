//! The interfaces of the loops of a function.

ghost use Rattle.std.specs.Prelude.{◌≡◌, ◌↔◌, ℕ, IfOk, IsTrue, map};
ghost use Rattle.std.specs.List.Sorted.{IsNonDecreasing};
ghost use Rattle.rvt_tree.specs.Views.{stmt_view};
ghost use Rattle.c_meaning.specs.Interfaces.{StandsIn};
ghost use Rattle.loop_interfaces.specs.Loops.{loops_of, number_of as number_carried};
ghost use Rattle.loop_interfaces.specs.NameOrder.{AreInNameOrder, AreOthers, AreInterfaces, IsLoopInterface};

use crate::declared::add_inside_loop;
use crate::locals::name_at;
use crate::loops::add_loops;
use crate::named::add_in_loop;
use rvt_tree::{Function, Stmt};
use std::alloc::{AllocError, Global};

/// A loop's number, and the locals of its interface by their numbers, in the order of their names.
#[derive(Drop)]
pub struct LoopInterface {
    pub number: u32,
    pub locals: Vec<u32>,
}

/// The interface of each loop of a function, in the order of the source.
pub fn loop_interfaces(alloc: Global, function: &Function) -> Result<Vec<LoopInterface>, AllocError>
    ensures { IfOk result (λ interfaces. AreInterfaces function.now (loops_of function.now) interfaces.items) }
{
    let loops = loops(alloc, function)?;
    let mut interfaces = Vec::new(alloc);
    'loops: for statement in loops.as_slice() {
        let locals = interface_of(alloc, function, *statement)?;
        let number = number_of(*statement);
        interfaces.push(LoopInterface { number, locals })?;
    }
    Ok(interfaces)
}

/// The numbers that the loops of a function carry, in the order of the source.
pub fn loop_numbers(alloc: Global, function: &Function) -> Result<Vec<u32>, AllocError>
    ensures { IfOk result (λ numbers. numbers.items ≡ map number_carried (loops_of function.now)) }
{
    let loops = loops(alloc, function)?;
    let mut numbers = Vec::new(alloc);
    'loops: for statement in loops.as_slice() {
        numbers.push(number_of(*statement))?;
    }
    Ok(numbers)
}

fn loops<'a>(alloc: Global, function: &'a Function) -> Result<Vec<&'a Stmt>, AllocError>
    ensures { IfOk result (λ loops. map (λ s. stmt_view s.now) loops.items ≡ loops_of function.now) }
{
    let mut loops = Vec::new(alloc);
    if let Some(body) = &function.body {
        add_loops(body, &mut loops)?;
    }
    Ok(loops)
}

fn number_of(statement: &Stmt) -> u32
    ensures { result ≡ number_carried (stmt_view statement.now) }
{
    match statement {
        Stmt::While(number, _, _) => *number,
        Stmt::DoWhile(number, _, _) => *number,
        Stmt::For(number, _, _, _, _) => *number,
        Stmt::Block(_) => 0,
        Stmt::Empty => 0,
        Stmt::Act(_) => 0,
        Stmt::Declare(_) => 0,
        Stmt::DeclareWith(_, _) => 0,
        Stmt::Break => 0,
        Stmt::Continue => 0,
        Stmt::Return => 0,
        Stmt::ReturnValue(_) => 0,
        Stmt::If(_, _) => 0,
        Stmt::IfElse(_, _, _) => 0,
        Stmt::Switch(_, _) => 0,
    }
}

fn interface_of(
    alloc: Global,
    function: &Function,
    statement: &Stmt,
) -> Result<Vec<u32>, AllocError>
    ensures { IfOk result (λ locals. IsLoopInterface function.now (stmt_view statement.now) locals.items) }
{
    let mut named = Vec::new(alloc);
    add_in_loop(statement, &mut named)?;
    let mut declared = Vec::new(alloc);
    add_inside_loop(statement, &mut declared)?;
    declared.sort()?;
    let outside = others(alloc, &named, &declared)?;
    let locals = in_name_order(alloc, function, &outside)?;
    Ok(locals)
}

/// The numbers that don't stand in a rising list.
fn others(alloc: Global, numbers: &[u32], rising: &[u32]) -> Result<Vec<u32>, AllocError>
    requires { IsNonDecreasing rising.now }
    ensures { IfOk result (λ others. AreOthers others.items numbers.now rising.now) }
{
    let mut others = Vec::new(alloc);
    for number in numbers {
        if is_among(rising, *number) {
            continue;
        }
        others.push(*number)?;
    }
    Ok(others)
}

fn is_among(rising: &[u32], number: u32) -> bool
    requires { IsNonDecreasing rising.now }
    ensures { IsTrue result ↔ StandsIn number rising.now }
{
    let found = rising.binary_search(&number);
    found.is_ok()
}

/// These locals in the order of their names, each once.
fn in_name_order(
    alloc: Global,
    function: &Function,
    numbers: &[u32],
) -> Result<Vec<u32>, AllocError>
    ensures members { IfOk result (λ locals. (number : ℕ) → StandsIn number locals.items ↔ StandsIn number numbers.now) }
    ensures order { IfOk result (λ locals. AreInNameOrder function.now locals.items) }
{
    let mut keys = Vec::new(alloc);
    'numbers: for number in numbers {
        keys.push((name_at(function, *number), *number))?;
    }
    keys.sort()?;
    keys.dedup();
    let mut locals = Vec::new(alloc);
    'keys: for key in keys.as_slice() {
        locals.push(key.1)?;
    }
    Ok(locals)
}
