ghost use Rattle.std.specs.Prelude.{◌≡◌, ◌+◌, IfOk, OnOk};
ghost use Rattle.sym_spots.specs.Aims.{moved, with_aim};

use aig_build::Lit;
use rvt_num::Memory;

/// A cell of an object, or a register.
#[derive(Clone, Copy)]
pub enum Target {
    Cell(u32, u64),
    Register(u64),
}

/// A place where a spot may be, and the literal that is true where it is there.
#[derive(Clone, Copy)]
pub struct Aim {
    pub lit: Lit,
    pub target: Target,
}

/// The place some cells or registers further on. One past 64 bits is want of memory.
pub fn moved(target: Target, count: u64) -> Result<Target, Memory>
    ensures { IfOk result (λ r. r ≡ moved target count) }
{
    match target {
        Target::Cell(object, cell) => {
            let cell = sum(cell, count)?;
            Ok(Target::Cell(object, cell))
        }
        Target::Register(register) => {
            let register = sum(register, count)?;
            Ok(Target::Register(register))
        }
    }
}

/// One more aim, unless it is certain that the spot is not there.
pub fn push_aim(aims: &mut Vec<Aim>, lit: Lit, target: Target) -> Result<(), Memory>
    ensures { OnOk result (aims.new.items ≡ with_aim aims.old.items lit target) }
{
    if lit == Lit::constant(false) {
        return Ok(());
    }
    match aims.push(Aim { lit, target }) {
        Ok(()) => Ok(()),
        Err(_) => Err(Memory),
    }
}

/// The sum, where it fits.
pub fn sum(a: u64, b: u64) -> Result<u64, Memory>
    ensures { IfOk result (λ r. r ≡ a + b) }
{
    match a.checked_add(b) {
        Some(sum) => Ok(sum),
        None => Err(Memory),
    }
}
