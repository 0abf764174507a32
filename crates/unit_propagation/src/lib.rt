// Unit propagation over numbered clauses, on a trail of literals in the order in which they became true.
#![tactic(auto)]

mod literals;
mod settling;
mod trail;
mod visits;
mod watches;

pub use trail::{Trail, Value};
pub use watches::{Watched, Watches};
