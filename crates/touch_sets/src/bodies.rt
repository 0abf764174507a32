//! What the bodies of units name by themselves.

ghost use Rattle.std.specs.Prelude.{◌≡◌, ◌++◌, map, slice_get, option_to_list, Some, IfOk, OnOk};
ghost use Rattle.core_ir.specs.Nodes.{node_objects, node_types, objects_in, types_in, op_objects, spot_objects, spot_types};
ghost use Rattle.core_ir.specs.Places.{pointee};
ghost use Rattle.touch_sets.specs.Bodies.{collected, collected_all, unit_objects, unit_types, names_of, types_of};

use core_ir::{Code, Core, CoreOp, Shape, Spot, Unit};
use graph_marks::Memory;
use rvt_num::Value;
use std::alloc::Global;

/// The objects that a body names, and the types whose pointers it dereferences.
#[derive(Drop)]
pub struct Named {
    pub objects: Vec<u32>,
    pub types: Vec<u32>,
}

/// What the body of each unit names.
pub fn all_named(alloc: Global, core: &Core) -> Result<Vec<Named>, Memory>
    ensures objects { IfOk result (λ all. map names_of all.items ≡ map unit_objects core.now.units) }
    ensures types { IfOk result (λ all. map types_of all.items ≡ map unit_types core.now.units) }
{
    let mut all = Vec::new(alloc);
    'units: for unit in core.units.as_slice() {
        let named = named_by(alloc, unit)?;
        match all.push(named) {
            Ok(()) => {}
            Err(_) => return Err(Memory),
        }
    }
    Ok(all)
}

fn named_by(alloc: Global, unit: &Unit) -> Result<Named, Memory>
    ensures objects { IfOk result (λ named. named.objects.items ≡ objects_in unit.now.body) }
    ensures types { IfOk result (λ named. named.types.items ≡ types_in unit.now.registers unit.now.body) }
{
    let mut named = Named {
        objects: Vec::new(alloc),
        types: Vec::new(alloc),
    };
    note(&unit.body, unit.registers.as_slice(), &mut named)?;
    Ok(named)
}

#[cycle(notes)]
fn note(code: &Code, registers: &[Shape], named: &mut Named) -> Result<(), Memory>
    ensures objects { OnOk result (named.new.objects.items ≡ named.old.objects.items ++ collected node_objects code.now) }
    ensures types { OnOk result (named.new.types.items ≡ named.old.types.items ++ collected (node_types registers.now) code.now) }
{
    match code {
        Code::Seq(parts) => note_all(parts.as_slice(), registers, named),
        Code::Set(_, op) => note_operation(*op, named),
        Code::Load(_, spot) => note_spot(spot, registers, named),
        Code::Store(spot, _) => note_spot(spot, registers, named),
        Code::Call(_, _, _) => Ok(()),
        Code::If(_, yes, no) => {
            note(yes.get(), registers, named)?;
            note(no.get(), registers, named)?;
            Ok(())
        }
        Code::Stop(_) => Ok(()),
        Code::Fail(_) => Ok(()),
    }
}

#[cycle(notes)]
fn note_all(parts: &[Code], registers: &[Shape], named: &mut Named) -> Result<(), Memory>
    ensures objects { OnOk result (named.new.objects.items ≡ named.old.objects.items ++ collected_all node_objects parts.now) }
    ensures types { OnOk result (named.new.types.items ≡ named.old.types.items ++ collected_all (node_types registers.now) parts.now) }
{
    'parts: for part in parts {
        note(part, registers, named)?;
    }
    Ok(())
}

fn note_operation(op: CoreOp, named: &mut Named) -> Result<(), Memory>
    ensures objects { OnOk result (named.new.objects.items ≡ named.old.objects.items ++ op_objects op) }
    ensures types { OnOk result (named.new.types.items ≡ named.old.types.items) }
{
    match constant_object(op) {
        None => Ok(()),
        Some(object) => push(&mut named.objects, object),
    }
}

// The object into which a constant points.
fn constant_object(op: CoreOp) -> Option<u32>
    ensures { option_to_list result ≡ op_objects op }
{
    match op {
        CoreOp::Const(Value::Num(_)) => None,
        CoreOp::Const(Value::Null) => None,
        CoreOp::Const(Value::At(object, _)) => Some(object),
        CoreOp::Copy(_) => None,
        CoreOp::Unary(_, _) => None,
        CoreOp::Binary(_, _, _) => None,
        CoreOp::Convert(_, _) => None,
        CoreOp::Sum(_, _, _) => None,
        CoreOp::Field(_, _) => None,
        CoreOp::Same(_, _) => None,
        CoreOp::IsNull(_) => None,
    }
}

fn note_spot(spot: &Spot, registers: &[Shape], named: &mut Named) -> Result<(), Memory>
    ensures objects { OnOk result (named.new.objects.items ≡ named.old.objects.items ++ spot_objects spot.now) }
    ensures types { OnOk result (named.new.types.items ≡ named.old.types.items ++ spot_types registers.now spot.now) }
{
    match spot {
        Spot::Cell(object, _, _) => push(&mut named.objects, *object),
        Spot::Local(_, _) => Ok(()),
        Spot::Through(pointer, _, _) => match pointee_of(registers, *pointer) {
            None => Ok(()),
            Some(pointee) => push(&mut named.types, pointee),
        },
    }
}

// The type to which a register points.
fn pointee_of(registers: &[Shape], register: u32) -> Option<u32>
    ensures { result ≡ pointee (slice_get registers.now register) }
{
    match registers.get(register as usize)? {
        Shape::Word(_) => None,
        Shape::Pointer(pointee, _) => Some(*pointee),
    }
}

fn push(numbers: &mut Vec<u32>, number: u32) -> Result<(), Memory>
    ensures { OnOk result (numbers.new.items ≡ numbers.old.items ++ option_to_list (Some number)) }
{
    match numbers.push(number) {
        Ok(()) => Ok(()),
        Err(_) => Err(Memory),
    }
}
