//! The operations on words of literals.
#![tactic(auto)]

mod divisions;
mod operations;
mod shifts;
mod signs;
mod traps;
mod values;

pub use bit_words::places::select;
pub use bit_words::{Word, equal, word_convert, word_unary};
pub use divisions::quotient;
pub use operations::word_op;
pub use shifts::word_shift;
pub use signs::word_division;
pub use traps::TrapLits;
pub use values::SymValue;
