//! Pointers.

ghost use Rattle.std.specs.Prelude.{◌≡◌, ℕ, List, IfSome, IfNone};
ghost use Rattle.rvt_num.specs.declared.values.Value.{Value as AnyValue};
ghost use Rattle.call_arguments.specs.Arguments.{IsPointer, IsCellBy, global_number};
ghost use Rattle.call_arguments.specs.Texts.{IsAddress};

use crate::numbers::number_of;
use rvt_num::Value;
use rvt_tree::Object;

/// The pointer that a word writes.
pub fn pointer_argument(objects: &[Object], to_constant: bool, word: &str) -> Option<Value>
    ensures some { IfSome result (λ value. IsPointer objects.now to_constant word.now value) }
    ensures none { IfNone result ((value : AnyValue) → IsPointer objects.now to_constant word.now value → ⊥) }
{
    if word == "null" {
        return Some(Value::Null);
    }
    match address_of(word) {
        Some((name, digits)) => cell_of(objects, to_constant, name, digits),
        None => None,
    }
}

/// The cell of the global of this name, by the digits of its place.
fn cell_of(objects: &[Object], to_constant: bool, name: &str, digits: &str) -> Option<Value>
    ensures some { IfSome result (λ value. IsCellBy objects.now to_constant name.now digits.now value) }
    ensures none { IfNone result ((value : AnyValue) → IsCellBy objects.now to_constant name.now digits.now value → ⊥) }
{
    let number = match global_named(objects, name.as_bytes()) {
        Some(number) => number,
        None => return None,
    };
    let object = &objects[number];
    let length = object.initial.len();
    let cell = match number_of(digits) {
        Some(cell) => cell,
        None => return None,
    };
    if cell > length as u64 || (object.constant && !to_constant) {
        return None;
    }
    if number > u32::MAX as usize || cell > u32::MAX as u64 {
        return None;
    }
    Some(Value::At(number as u32, cell as u32))
}

/// The two parts of `&NAME[K]`.
fn address_of(word: &str) -> Option<(&str, &str)>
    ensures some { IfSome result (λ parts. IsAddress word.now parts.0.now parts.1.now) }
    ensures none { IfNone result ((name digits : List ℕ) → IsAddress word.now name digits → ⊥) }
{
    let text = match word.strip_prefix('&') {
        Some(text) => text,
        None => return None,
    };
    let inside = match text.strip_suffix(']') {
        Some(inside) => inside,
        None => return None,
    };
    inside.split_once('[')
}

/// The number of the global of this name.
fn global_named(objects: &[Object], name: &[u8]) -> Option<usize>
    ensures { result ≡ global_number objects.now name.now }
{
    objects
        .iter()
        .position(|object| object.owner.is_none() && object.name.is(name))
}
