ghost use Rattle.std.specs.Prelude.{◌≡◌, ◌≤◌, ◌<◌, ◌++◌, ◌∷◌, [], ℕ, length, Option, Some, None, option_map, IfOk, IfErr, IfSome, OnOk, IfNone};
ghost use Rattle.rvt_tree.specs.declared.types.CType.{CType};
ghost use Rattle.c_types.specs.Layout.{plan_of};
ghost use Rattle.c_layout.specs.declared.sizes.Mark.TheVariants.{Open, Sized};
ghost use Rattle.c_layout.specs.Causes.{HasFew, IsRefusal};
ghost use Rattle.c_layout.specs.Sizes.{limited, size_of_plan, size_with, struct_in, types_of, At, Agrees, counted, numbers, IsWalk, LastNeeds, LastIsCounted, NewWasNew, SameFirst, IsHopeless, IsStuck, new_count, steps_left};

use crate::TypeFault;
use rvt_tree::{CType, Name, StructDef, Structs};
use std::alloc::Global;

/// How far the walk is with a struct.
#[derive(Clone, Copy)]
pub enum Mark {
    New,
    /// It lies on the way from the first struct to the last.
    Open,
    /// How many cells it has, at most 4,097.
    Sized(u32),
}

/// A struct whose fields are being counted.
#[derive(Clone, Copy)]
pub struct Frame {
    pub number: u32,
    /// The field that comes next.
    pub next: usize,
    /// How many cells the fields before it have, at most 4,097.
    pub size: u32,
}

/// A walk through the structs in a type, each counted after those that it contains.
#[derive(Drop)]
pub struct Walk {
    /// By the structs' numbers.
    pub marks: Vec<Mark>,
    pub frames: Vec<Frame>,
}

fn limited_to(cells: u64) -> u32
    ensures { result ≡ limited cells }
{
    cells.min(4097) as u32
}

/// How many cells a type has, or the struct that must be counted first.
fn size_in(ty: &CType, marks: &[Mark]) -> Result<u32, u32>
    ensures size { IfOk result (λ size. (known : ℕ → Option ℕ) → Agrees marks.now known → size_with known ty.now ≡ Some size) }
    ensures wants { IfErr result (λ number. struct_in ty.now ≡ Some number) }
    ensures uncounted { IfErr result (λ number. (size : ℕ) → At marks.now number (Sized size) → ⊥) }
{
    match ty {
        CType::Word(_) | CType::Pointer(_, _) => Ok(1),
        CType::Array(element, count) => {
            let size = size_in(element, marks)?;
            Ok(limited_to(*count as u64 * size as u64))
        }
        CType::Struct(number) => match marks.get(*number as usize) {
            Some(Mark::Sized(size)) => Ok(*size),
            _ => Err(*number),
        },
    }
}

/// Counts fields up to one that holds a struct to be counted first.
fn count_fields(fields: &[(Name, CType)], frame: &mut Frame, marks: &[Mark]) -> Option<u32>
    requires few { frame.old.size ≤ 4097 }
    ensures same { frame.new.number ≡ frame.old.number }
    ensures few { frame.new.size ≤ 4097 }
    ensures counts { (known : ℕ → Option ℕ) → Agrees marks.now known → counted known frame.new (types_of fields.now) ≡ counted known frame.old (types_of fields.now) }
    ensures wants { IfSome result (λ number. (place : ℕ) × (ty : CType) × At (types_of fields.now) place ty × (struct_in ty ≡ Some number)) }
    ensures uncounted { IfSome result (λ number. (size : ℕ) → At marks.now number (Sized size) → ⊥) }
    ensures all { IfNone result (length fields.now ≤ frame.new.next) }
{
    'fields: while frame.next < fields.len() {
        match size_in(&fields[frame.next].1, marks) {
            Ok(size) => {
                frame.size = limited_to(frame.size as u64 + size as u64);
                frame.next += 1;
            }
            Err(number) => return Some(number),
        }
    }
    None
}

impl Walk {
    /// Begins to count a struct that isn't counted.
    fn enter(&mut self, structs: &Structs, number: u32) -> Result<(), TypeFault>
        requires walk { IsWalk structs.now self.old.marks.items self.old.frames.items }
        requires uncounted { (size : ℕ) → At self.old.marks.items number (Sized size) → ⊥ }
        requires needed { LastNeeds structs.now self.old.frames.items number }
        ensures walk { OnOk result (IsWalk structs.now self.new.marks.items self.new.frames.items) }
        ensures entered { OnOk result (self.new.frames.items ≡ self.old.frames.items ++ record { number = number; next = 0; size = 0 } ∷ []) }
        ensures less { OnOk result (new_count self.new.marks.items < new_count self.old.marks.items) }
        ensures seen { OnOk result (NewWasNew self.old.marks.items self.new.marks.items) }
        ensures open { OnOk result (At self.new.marks.items number Open) }
        ensures fault { IfErr result (IsHopeless structs.now number) }
    {
        let mark = match self.marks.get(number as usize) {
            Some(mark) => *mark,
            None => return Err(TypeFault::Incomplete),
        };
        match mark {
            Mark::New => {}
            Mark::Open => return Err(TypeFault::Incomplete),
            Mark::Sized(_) => return Err(TypeFault::Incomplete),
        }
        match structs.list.get(number as usize) {
            Some(definition) => {
                if !definition.complete {
                    return Err(TypeFault::Incomplete);
                }
            }
            None => return Err(TypeFault::Incomplete),
        }
        self.marks[number as usize] = Mark::Open;
        let frame = Frame {
            number,
            next: 0,
            size: 0,
        };
        self.frames.push(frame)?;
        Ok(())
    }

    /// Counts on in the last struct, up to a field that holds a struct to be counted first.
    fn count_on(&mut self, structs: &Structs) -> Option<u32>
        requires walk { IsWalk structs.now self.old.marks.items self.old.frames.items }
        requires some { 0 < length self.old.frames.items }
        ensures walk { IsWalk structs.now self.new.marks.items self.new.frames.items }
        ensures marks { self.new.marks.items ≡ self.old.marks.items }
        ensures numbers { numbers self.new.frames.items ≡ numbers self.old.frames.items }
        ensures needed { IfSome result (LastNeeds structs.now self.new.frames.items) }
        ensures uncounted { IfSome result (λ number. (size : ℕ) → At self.new.marks.items number (Sized size) → ⊥) }
        ensures counted { IfNone result (LastIsCounted structs.now self.new.marks.items self.new.frames.items) }
    {
        let last = self.frames.len() - 1;
        let mut frame = self.frames[last];
        let definition = &structs.list.as_slice()[frame.number as usize];
        let wanted = count_fields(
            definition.fields.as_slice(),
            &mut frame,
            self.marks.as_slice(),
        );
        self.frames[last] = frame;
        wanted
    }

    /// Counts on in the last struct, and begins one in it or ends with it.
    fn step(&mut self, structs: &Structs) -> Result<(), TypeFault>
        requires walk { IsWalk structs.now self.old.marks.items self.old.frames.items }
        requires some { 0 < length self.old.frames.items }
        ensures walk { OnOk result (IsWalk structs.now self.new.marks.items self.new.frames.items) }
        ensures less { OnOk result (steps_left self.new.marks.items self.new.frames.items < steps_left self.old.marks.items self.old.frames.items) }
        ensures seen { OnOk result (NewWasNew self.old.marks.items self.new.marks.items) }
        ensures first { OnOk result (SameFirst self.old.frames.items self.new.frames.items) }
        ensures fault { IfErr result (IsStuck structs.now self.old.frames.items) }
    {
        match self.count_on(structs) {
            Some(number) => {
                self.enter(structs, number)?;
                Ok(())
            }
            None => {
                let frame = self.frames[self.frames.len() - 1];
                self.marks[frame.number as usize] = Mark::Sized(frame.size);
                self.frames.pop();
                Ok(())
            }
        }
    }
}

/// How many cells a type has, at most 4,097.
fn size_of(alloc: Global, ty: &CType, structs: &Structs) -> Result<u32, TypeFault>
    ensures size { IfOk result (λ size. option_map size_of_plan (plan_of structs.now ty.now) ≡ Some size) }
    ensures refusal { IfErr result (IsRefusal (plan_of structs.now ty.now)) }
{
    let number = match size_in(ty, &[]) {
        Ok(size) => return Ok(size),
        Err(number) => number,
    };
    let marks = vec![in alloc; Mark::New; structs.list.len()]?;
    let mut walk = Walk {
        marks,
        frames: Vec::new(alloc),
    };
    walk.enter(structs, number)?;
    'steps: while !walk.frames.is_empty() {
        walk.step(structs)?;
    }
    match size_in(ty, walk.marks.as_slice()) {
        Ok(size) => Ok(size),
        Err(_) => Err(TypeFault::Incomplete),
    }
}

/// Refuses a type that has no layout.
pub fn check(alloc: Global, ty: &CType, structs: &Structs) -> Result<(), TypeFault>
    ensures few { OnOk result (HasFew (plan_of structs.now ty.now)) }
    ensures refusal { IfErr result (IsRefusal (plan_of structs.now ty.now)) }
{
    let size = size_of(alloc, ty, structs)?;
    if size > 4096 {
        return Err(TypeFault::TooManyCells);
    }
    Ok(())
}
