//! A flag for each number.

ghost use Rattle.std.specs.Prelude.{◌≡◌, ◌<◌, ◌||◌, ◌^◌, ℕ, length, nat_eq, OnOk};
ghost use Rattle.local_objects.specs.ObjectTables.{is_flagged};

use std::alloc::AllocError;

/// Whether a number's flag is set; one that is not there is not.
pub fn is_flagged(flags: &[bool], number: usize) -> bool
    ensures { result ≡ is_flagged flags.now number }
{
    number < flags.len() && flags[number]
}

/// Sets the flag of a number.
#[tactic(auto, using(crate::proofs::FlagLists::flag_set))]
pub fn set_flag(flags: &mut Vec<bool>, number: u32) -> Result<(), AllocError>
    ensures { OnOk result ((k : ℕ) → is_flagged flags.new.items k ≡ is_flagged flags.old.items k || nat_eq number k) }
{
    let number = number as usize;
    make_room(flags, number)?;
    flags[number] = true;
    Ok(())
}

// Gives the flag a place: one that is not there is false.
fn make_room(flags: &mut Vec<bool>, number: usize) -> Result<(), AllocError>
    requires { number < 2 ^ 32 }
    ensures room { OnOk result (number < length flags.new.items) }
    ensures same { (k : ℕ) → is_flagged flags.new.items k ≡ is_flagged flags.old.items k }
{
    while flags.len() <= number {
        flags.push(false)?;
    }
    Ok(())
}
