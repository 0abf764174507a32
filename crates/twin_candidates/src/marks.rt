//! Marks for the types to which pointers may point.

ghost use Rattle.std.specs.Prelude.{◌≡◌, ◌||◌, ℕ, get_or, nat_eq, false, IfOk, OnOk};
ghost use Rattle.rvt_tree.specs.declared.types.Pointee.{Pointee as PointeeType};
ghost use Rattle.c_types.specs.Layout.{same_pointee};
ghost use Rattle.twin_candidates.specs.Marks.{place_of, marked};

use rvt_num::Kind;
use rvt_tree::Pointee;
use std::alloc::{AllocError, Global};

/// By the places of kinds and by the numbers of structs; what lies beyond the end isn't marked.
#[derive(Drop)]
pub struct Marks {
    words: Vec<bool>,
    structs: Vec<bool>,
}

fn place_of(kind: Kind) -> usize
    ensures { result ≡ place_of kind }
{
    let sign = if kind.is_signed() { 1 } else { 0 };
    kind.width() as usize * 2 + sign
}

fn set(marks: &mut Vec<bool>, place: usize) -> Result<(), AllocError>
    ensures { OnOk result ((n : ℕ) → get_or marks.new.items n false ≡ (nat_eq n place || get_or marks.old.items n false)) }
{
    'longer: while marks.len() <= place {
        marks.push(false)?;
    }
    marks[place] = true;
    Ok(())
}

fn is_set(marks: &[bool], place: usize) -> bool
    ensures { result ≡ get_or marks.now place false }
{
    if place < marks.len() {
        marks[place]
    } else {
        false
    }
}

impl Marks {
    pub fn new(alloc: Global) -> Marks
        ensures { (pointee : PointeeType) → marked result pointee ≡ false }
    {
        Marks {
            words: Vec::new(alloc),
            structs: Vec::new(alloc),
        }
    }

    pub fn mark(&mut self, pointee: Pointee) -> Result<(), AllocError>
        ensures { OnOk result ((other : PointeeType) → marked self.new other ≡ (same_pointee other pointee || marked self.old other)) }
    {
        match pointee {
            Pointee::Word(kind) => set(&mut self.words, place_of(kind))?,
            Pointee::Struct(number) => set(&mut self.structs, number as usize)?,
        }
        Ok(())
    }

    pub fn is_marked(&self, pointee: Pointee) -> bool
        ensures { result ≡ marked self.now pointee }
    {
        match pointee {
            Pointee::Word(kind) => is_set(&self.words, place_of(kind)),
            Pointee::Struct(number) => is_set(&self.structs, number as usize),
        }
    }
}
