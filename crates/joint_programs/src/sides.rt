//! Two files as one of them sees them.

ghost use Rattle.std.specs.Prelude.{◌≡◌, ◌+◌, ℕ, List, Option, get_or, length, unwrap_or, None, IfOk};
ghost use Rattle.joint_programs.specs.Views.{view_of};
ghost use Rattle.joint_programs.specs.Structs.{number_across as number_there};
ghost use Rattle.joint_programs.specs.Objects.{function_across};

use rvt_tree::Program;
use std::alloc::AllocError;

/// Our program and theirs; for each struct of theirs the equal one of ours, and for each function of theirs its partner.
#[derive(Clone, Copy)]
pub struct Side<'a> {
    pub ours: &'a Program,
    pub theirs: &'a Program,
    pub structs: &'a [Option<u32>],
    pub functions: &'a [Option<u32>],
}

/// The partner of the one of this number.
fn partner_of(partners: &[Option<u32>], number: u32) -> Option<u32>
    ensures { result ≡ get_or partners.now number None }
{
    let place = number as usize;
    if place < partners.len() {
        partners[place]
    } else {
        None
    }
}

/// The sum, if there can be so many things.
pub fn sum(a: usize, b: u32) -> Result<u32, AllocError>
    ensures { IfOk result (λ sum. sum ≡ a + b) }
{
    let b = b as usize;
    if a > u32::MAX as usize || b > u32::MAX as usize - a {
        return Err(AllocError);
    }
    Ok((a + b) as u32)
}

/// The number in our program of a struct of theirs.
pub fn number_across(side: &Side, number: u32) -> Result<u32, AllocError>
    ensures { IfOk result (λ other. other ≡ number_there (view_of side.now) number) }
{
    match partner_of(side.structs, number) {
        Some(ours) => Ok(ours),
        None => sum(side.ours.structs.list.len(), number),
    }
}

/// The partner of the function of theirs.
pub fn owner_across(side: &Side, owner: Option<u32>) -> Option<u32>
    ensures { result ≡ function_across (view_of side.now) owner }
{
    match owner {
        Some(function) => partner_of(side.functions, function),
        None => None,
    }
}
