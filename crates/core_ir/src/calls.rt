ghost use Rattle.std.specs.Prelude.{◌≡◌, ◌+◌, ◌++◌, length, slice_get, None, IfOk, OnOk};
ghost use Rattle.core_ir.specs.Calls.{calls_in, unit_calls, calls_in_all};

use crate::cores::Core;
use crate::units::Code;
use std::alloc::Global;

/// There is too little memory.
#[derive(Clone, Copy, Debug, PartialEq, Eq)]
pub struct Memory;

/// The `k`-th unit that a unit's body calls, in order, from 0.
pub fn calls_of(core: &Core, unit: u32, k: u32) -> Option<u32>
    ensures { result ≡ slice_get (unit_calls core.now unit) k }
{
    let unit = core.units.get(unit as usize)?;
    let mut left = k;
    call_in(&unit.body, &mut left)
}

// The call that is `left` calls further on; where the code has fewer, they are taken off.
#[cycle(calls)]
fn call_in(code: &Code, left: &mut u32) -> Option<u32>
    ensures call { result ≡ slice_get (calls_in code.now) left.old }
    ensures none { result ≡ None → left.new + length (calls_in code.now) ≡ left.old }
{
    match code {
        Code::Seq(parts) => call_in_all(parts.as_slice(), left),
        Code::Call(unit, _, _) => {
            if *left == 0 {
                return Some(*unit);
            }
            *left -= 1;
            None
        }
        Code::If(_, yes, no) => match call_in(yes.get(), left) {
            Some(unit) => Some(unit),
            None => call_in(no.get(), left),
        },
        _ => None,
    }
}

#[cycle(calls)]
fn call_in_all(parts: &[Code], left: &mut u32) -> Option<u32>
    ensures call { result ≡ slice_get (calls_in_all parts.now) left.old }
    ensures none { result ≡ None → left.new + length (calls_in_all parts.now) ≡ left.old }
{
    for part in parts {
        if let Some(unit) = call_in(part, left) {
            return Some(unit);
        }
    }
    None
}

/// All units that a unit's body calls, in order, by one walk.
pub fn all_calls(alloc: Global, core: &Core, unit: u32) -> Result<Vec<u32>, Memory>
    ensures { IfOk result (λ calls. calls.items ≡ unit_calls core.now unit) }
{
    let mut calls = Vec::new(alloc);
    match core.units.get(unit as usize) {
        None => {}
        Some(unit) => push_calls(&unit.body, &mut calls)?,
    }
    Ok(calls)
}

#[cycle(walk)]
fn push_calls(code: &Code, calls: &mut Vec<u32>) -> Result<(), Memory>
    ensures { OnOk result (calls.new.items ≡ calls.old.items ++ calls_in code.now) }
{
    match code {
        Code::Seq(parts) => push_all_calls(parts.as_slice(), calls),
        Code::Call(unit, _, _) => {
            match calls.push(*unit) {
                Ok(()) => {}
                Err(_) => return Err(Memory),
            }
            Ok(())
        }
        Code::If(_, yes, no) => {
            push_calls(yes.get(), calls)?;
            push_calls(no.get(), calls)?;
            Ok(())
        }
        _ => Ok(()),
    }
}

#[cycle(walk)]
fn push_all_calls(parts: &[Code], calls: &mut Vec<u32>) -> Result<(), Memory>
    ensures { OnOk result (calls.new.items ≡ calls.old.items ++ calls_in_all parts.now) }
{
    for part in parts {
        push_calls(part, calls)?;
    }
    Ok(())
}
