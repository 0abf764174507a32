//! Which values begin at each cell of an object.

ghost use Rattle.std.specs.Prelude.{◌≡◌, ℕ, [], get_or, nat_eq, ◌&&◌, ◌||◌, IfOk, OnOk};
ghost use Rattle.rvt_tree.specs.declared.types.Pointee.{Pointee};
ghost use Rattle.c_types.specs.Layout.{plan_of, begins_in, starts_of, shape_of, is_of_pointee, same_kind, same_pointee};
ghost use Rattle.c_meaning.specs.Stores.{objects_of};
ghost use Rattle.c_places.specs.Starts.{pointee_of, is_among, AreStarts, AreAllStarts};

use crate::rows::{add, row};
use c_layout::{TypeFault, layout};
use c_types::Cells;
use rvt_num::Kind;
use rvt_tree::{CType, Pointee, Program, Structs};
use sqlite_items::Items;
use std::alloc::{AllocError, Global};

/// What a pointer to a value of the type points to, where there are such pointers.
fn pointee_of(ty: &CType) -> Option<Pointee>
    ensures { result ≡ pointee_of ty.now }
{
    match ty {
        CType::Word(kind) => Some(Pointee::Word(*kind)),
        CType::Struct(number) => Some(Pointee::Struct(*number)),
        CType::Pointer(_, _) => None,
        CType::Array(_, _) => None,
    }
}

fn is_same_kind(a: Kind, b: Kind) -> bool
    ensures { result ≡ same_kind a b }
{
    a.width() == b.width() && a.is_signed() == b.is_signed()
}

fn is_same(a: Pointee, b: Pointee) -> bool
    ensures { result ≡ same_pointee a b }
{
    match a {
        Pointee::Word(a) => match b {
            Pointee::Word(b) => is_same_kind(a, b),
            Pointee::Struct(_) => false,
        },
        Pointee::Struct(a) => match b {
            Pointee::Word(_) => false,
            Pointee::Struct(b) => a == b,
        },
    }
}

/// Whether the pointee is one of these.
pub fn is_among(pointee: Pointee, here: &[Pointee]) -> bool
    ensures { result ≡ is_among pointee here.now }
{
    for other in here {
        if is_same(pointee, *other) {
            return true;
        }
    }
    false
}

/// By cell, what values begin there to which pointers may point.
pub fn starts_in(alloc: Global, plan: &Cells) -> Result<Vec<Items<Pointee>>, AllocError>
    ensures { IfOk result (λ rows. (pointee : Pointee) (cell : ℕ) → is_among pointee (get_or rows.items cell []) ≡ begins_in pointee cell (starts_of plan.now.starts.items)) }
{
    let mut rows = Vec::new(alloc);
    for (what, cell) in &plan.starts {
        add_start(alloc, &mut rows, what, *cell)?;
    }
    Ok(rows)
}

fn add_start(
    alloc: Global,
    rows: &mut Vec<Items<Pointee>>,
    what: &CType,
    at: u32,
) -> Result<(), AllocError>
    ensures { OnOk result ((pointee : Pointee) (cell : ℕ) → is_among pointee (get_or rows.new.items cell []) ≡ (is_among pointee (get_or rows.old.items cell []) || (nat_eq cell at && is_of_pointee pointee (shape_of what.now)))) }
{
    match pointee_of(what) {
        Some(pointee) => {
            add(alloc, rows, at, pointee)?;
            Ok(())
        }
        None => Ok(()),
    }
}

/// By cell, what begins there in a value of the type; nothing where the type is incomplete.
/// Want of memory also where it has more than 4,096 cells.
fn starts_of_type(
    alloc: Global,
    ty: &CType,
    structs: &Structs,
) -> Result<Vec<Items<Pointee>>, AllocError>
    ensures { IfOk result (λ rows. AreStarts rows.items (plan_of structs.now ty.now)) }
{
    match layout(alloc, ty, structs) {
        Ok(plan) => {
            let rows = starts_in(alloc, &plan)?;
            Ok(rows)
        }
        Err(TypeFault::Incomplete) => Ok(Vec::new(alloc)),
        Err(_) => Err(AllocError),
    }
}

/// By object and cell, what begins there.
pub fn all_starts(
    alloc: Global,
    program: &Program,
) -> Result<Vec<Items<Items<Pointee>>>, AllocError>
    ensures { IfOk result (λ rows. AreAllStarts program.now rows.items (objects_of program.now)) }
{
    let mut out = Vec::new(alloc);
    for object in program.table.objects.as_slice() {
        let starts = starts_of_type(alloc, &object.ty, &program.structs)?;
        let starts = Items::from_vec(starts);
        out.push(starts)?;
    }
    Ok(out)
}
