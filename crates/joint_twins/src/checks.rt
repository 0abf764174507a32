//! What is asked of the numbers of structs and of partners.

ghost use Rattle.std.specs.Prelude.{◌↔◌, map, IsTrue};
ghost use Rattle.rvt_tree.specs.Same.{ArePaired};
ghost use Rattle.c_types.specs.Layout.{shape_of};
ghost use Rattle.joint_programs.specs.Parts.{field_parts};
ghost use Rattle.joint_laws.specs.Premises.{HoldsBelow, HoldBelow, AreInOrder, IsNumbered as HoldsOnlyBefore};
ghost use Rattle.joint_twins.specs.Checks.{HoldAll, TurnsAt, AllTurn, TurnBothWays};

use rvt_tree::{CType, Name, Object, Program, StructDef};

/// Whether an object of this type holds only structs whose numbers are below this one.
fn holds_below(ty: &CType, number: usize) -> bool
    ensures { IsTrue result ↔ HoldsBelow number (shape_of ty.now) }
{
    match ty {
        CType::Word(_) => true,
        CType::Pointer(_, _) => true,
        CType::Array(element, _) => holds_below(element, number),
        CType::Struct(structure) => (*structure as usize) < number,
    }
}

fn fields_hold(fields: &[(Name, CType)], number: usize) -> bool
    ensures { IsTrue result ↔ HoldBelow number (map field_parts fields.now) }
{
    let mut left = fields;
    'fields: while let Some((first, rest)) = left.split_first() {
        if !holds_below(&first.1, number) {
            return false;
        }
        left = rest;
    }
    true
}

/// Whether each struct holds only structs that stand before it.
fn are_in_order(structs: &[StructDef]) -> bool
    ensures { IsTrue result ↔ AreInOrder structs.now }
{
    for number in 0..structs.len() {
        if !fields_hold(structs[number].fields.as_slice(), number) {
            return false;
        }
    }
    true
}

/// Whether each object holds only the first so many structs.
fn objects_hold(objects: &[Object], count: usize) -> bool
    ensures { IsTrue result ↔ HoldAll count objects.now }
{
    for number in 0..objects.len() {
        if !holds_below(&objects[number].ty, count) {
            return false;
        }
    }
    true
}

/// Whether structs and objects hold only structs that stand before them.
pub fn is_numbered(program: &Program) -> bool
    ensures { IsTrue result ↔ HoldsOnlyBefore program.now }
{
    let structs = program.structs.list.as_slice();
    if !are_in_order(structs) {
        return false;
    }
    objects_hold(program.table.objects.as_slice(), structs.len())
}

/// Whether each is the partner of its partner, seen from either side.
pub fn turn_both_ways(there: &[Option<u32>], back: &[Option<u32>]) -> bool
    ensures { IsTrue result ↔ TurnBothWays there.now back.now }
{
    if !all_turn(there, back) {
        return false;
    }
    all_turn(back, there)
}

fn all_turn(there: &[Option<u32>], back: &[Option<u32>]) -> bool
    ensures { IsTrue result ↔ AllTurn there.now back.now }
{
    for number in 0..there.len() {
        if !turns_at(there[number], back, number) {
            return false;
        }
    }
    true
}

/// Whether the partner of the one of this number, if it has one, has it as its partner.
fn turns_at(partner: Option<u32>, back: &[Option<u32>], number: usize) -> bool
    ensures { IsTrue result ↔ TurnsAt back.now number partner }
{
    match partner {
        None => true,
        Some(other) => is_partner(back, other as usize, number),
    }
}

fn is_partner(partners: &[Option<u32>], number: usize, other: usize) -> bool
    ensures { IsTrue result ↔ ArePaired partners.now number other }
{
    match partners.get(number) {
        Some(Some(there)) => *there as usize == other,
        _ => false,
    }
}
