//! Which functions of two files are paired: as a map says, and all others by their names.
#![tactic(auto)]

mod counterparts;
mod defined;
pub mod laws;
mod pairs;
mod partners;
mod refusals;
mod units;

pub use pairs::{FunctionPairs, Pair};
pub use partners::function_pairs;
pub use refusals::unknown_function;
pub use units::{alone, pair_list, pair_name};
