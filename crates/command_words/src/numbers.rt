//! Numbers.

ghost use Rattle.std.specs.Prelude.{◌<◌, ◌^◌, ℕ, IfSome, IfNone};
ghost use Rattle.command_words.specs.Numbers.{IsNumber, AreSteps};
ghost use Rattle.command_words.specs.Spellings.{value_in};

/// The most steps that a run may have.
const MAX_STEPS: u64 = 10_000_000;
/// The steps of a run for which none are given.
const DEFAULT_STEPS: u64 = 100_000;
/// The most digits that a number may have.
const MAX_DIGITS: usize = 20;

/// The number that a text of one to twenty digits writes, if it is below 2^64.
fn number_of(text: &str) -> Option<u64>
    ensures some { IfSome result (λ n. IsNumber text.now n) }
    ensures none { IfNone result ((n : ℕ) → n < 2 ^ 64 → IsNumber text.now n → ⊥) }
{
    if text.len() > MAX_DIGITS || text.starts_with('+') {
        return None;
    }
    text.parse::<u64>().ok()
}

/// The number of steps, by the value of `--steps`, if it stands.
pub fn steps_of(value: Option<&str>) -> Option<u64>
    ensures some { IfSome result (λ n. AreSteps (value_in value.entry) n) }
    ensures none { IfNone result ((n : ℕ) → AreSteps (value_in value.entry) n → ⊥) }
{
    match value {
        None => Some(DEFAULT_STEPS),
        Some(text) => match number_of(text) {
            Some(n) if n >= 1 && n <= MAX_STEPS => Some(n),
            _ => None,
        },
    }
}
