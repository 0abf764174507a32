//! How code grows.

ghost use Rattle.std.specs.Prelude.{◌≡◌, ◌<◌, suc, ◌+◌, [], ◌∷◌, ◌++◌, List, length, IfOk, OnOk};
ghost use Rattle.c_code.specs.declared.instructions.Instruction.{Instruction};
ghost use Rattle.c_code.specs.declared.instructions.Instruction.TheVariants as I;
ghost use Rattle.c_code.specs.declared.instructions.When.TheVariants as W;

use crate::instructions::{Instruction, When};
use std::alloc::AllocError;

/// One more instruction.
pub fn put(code: &mut Vec<Instruction>, instruction: Instruction) -> Result<(), AllocError>
    ensures { OnOk result (code.new.items ≡ code.old.items ++ instruction ∷ []) }
{
    code.push(instruction)?;
    Ok(())
}

/// The next slot. Want of memory where there are 2^32 of them.
pub fn next(slot: u32) -> Result<u32, AllocError>
    ensures { IfOk result (λ next. next ≡ suc slot) }
{
    sum(slot, 1)
}

/// Want of memory where the sum is 2^32 or more.
pub fn sum(a: u32, b: u32) -> Result<u32, AllocError>
    ensures { IfOk result (λ sum. sum ≡ a + b) }
{
    match a.checked_add(b) {
        Some(sum) => Ok(sum),
        None => Err(AllocError),
    }
}

/// Room for a jump that is made once it is known how far it goes. Gives its place.
pub fn leave_room(code: &mut Vec<Instruction>) -> Result<usize, AllocError>
    ensures room { OnOk result (code.new.items ≡ code.old.items ++ I.Finish ∷ []) }
    ensures place { IfOk result (λ at. at ≡ length code.old.items) }
{
    let at = code.len();
    put(code, Instruction::Finish)?;
    Ok(at)
}

/// The jump over all that stands behind its room.
pub fn jump_over(code: &mut Vec<Instruction>, at: usize, when: When)
    requires { at < length code.old.items }
    ensures same_length { length code.new.items ≡ length code.old.items }
    ensures jump { (before block : List Instruction) (room : Instruction) → code.old.items ≡ before ++ room ∷ block → at ≡ length before → code.new.items ≡ before ++ I.Jump when (suc (length block)) ∷ block }
{
    let length = code.len() - at;
    code[at] = Instruction::Jump(when, length);
}

/// The first of two blocks, which stands behind its room, is passed over where the value in a slot does not hold; behind
/// it comes room for the jump over the second. Gives the place of that.
pub fn begin_second(code: &mut Vec<Instruction>, at: usize, slot: u32) -> Result<usize, AllocError>
    requires { at < length code.old.items }
    ensures first { OnOk result ((before first : List Instruction) (room : Instruction) → code.old.items ≡ before ++ room ∷ first → at ≡ length before → code.new.items ≡ before ++ I.Jump (W.Unless slot) (suc (length (first ++ I.Finish ∷ []))) ∷ (first ++ I.Finish ∷ [])) }
    ensures place { IfOk result (λ second. second ≡ length code.old.items) }
    ensures longer { OnOk result (length code.new.items ≡ suc (length code.old.items)) }
{
    let second = leave_room(code)?;
    jump_over(code, at, When::Unless(slot));
    Ok(second)
}
