//! Numbers.

ghost use Rattle.std.specs.Prelude.{◌≡◌, ◌≤◌, ◌^◌, ◌⊎◌, ℕ, ℤ, pos, neg_ℤ, ◌≤ℤ◌, IfSome, IfNone};
ghost use Rattle.rvt_num.specs.declared.values.Value.{Value as AnyValue};
ghost use Rattle.call_arguments.specs.Arguments.{IsNumberIn};
ghost use Rattle.call_arguments.specs.Texts.{AreDigitsOf, IsNear, IsWhole};

use rvt_num::{Kind, Num, Value};

/// The number that these digits write, if it is below 2^64.
pub fn number_of(digits: &str) -> Option<u64>
    ensures some { IfSome result (λ n. AreDigitsOf digits.now n) }
    ensures none { IfNone result ((n : ℕ) → AreDigitsOf digits.now n → 2 ^ 64 ≤ n) }
{
    if digits.starts_with('+') {
        return None;
    }
    digits.parse::<u64>().ok()
}

/// The whole number that a word writes, if it is above -2^64 and below 2^64.
fn whole_of(word: &str) -> Option<i128>
    ensures some { IfSome result (λ whole. IsWhole word.now whole) }
    ensures near { IfSome result IsNear }
    ensures none { IfNone result ((whole : ℤ) → IsWhole word.now whole → (pos (2 ^ 64) ≤ℤ whole) ⊎ (whole ≤ℤ neg_ℤ (pos (2 ^ 64)))) }
{
    match word.strip_prefix('-') {
        Some(digits) => match number_of(digits) {
            Some(n) => Some(negated(n)),
            None => None,
        },
        None => match number_of(word) {
            Some(n) => Some(signed(n)),
            None => None,
        },
    }
}

fn signed(n: u64) -> i128
    ensures value { result ≡ pos n }
    ensures near { IsNear result }
{
    i128::from(n)
}

fn negated(n: u64) -> i128
    ensures value { result ≡ neg_ℤ (pos n) }
    ensures near { IsNear result }
{
    -i128::from(n)
}

/// The number that a word writes, if it is one of this kind.
pub fn number_argument(kind: Kind, word: &str) -> Option<Value>
    ensures some { IfSome result (λ value. IsNumberIn kind word.now value) }
    ensures none { IfNone result ((value : AnyValue) → IsNumberIn kind word.now value → ⊥) }
{
    let whole = match whole_of(word) {
        Some(whole) => whole,
        None => return None,
    };
    let number = Num::wrapped(kind, whole);
    if number.value() != whole {
        return None;
    }
    Some(Value::Num(number))
}
