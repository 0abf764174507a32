//! Loop-free units: what two versions of a program become before they are compared.
#![tactic(auto)]

mod calls;
mod cores;
pub mod laws;
mod units;

pub use calls::{Memory, all_calls, calls_of};
pub use cores::{Core, CoreObject, JointCore, Twins};
pub use units::{Code, CoreOp, Index, Shape, Spot, Unit};
