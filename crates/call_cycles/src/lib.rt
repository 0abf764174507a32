//! What is sought at the end of a file: calls of functions without a body, and addresses of locals in functions on a
//! call cycle.
#![tactic(auto)]

mod addresses;
mod bodies;
mod cycles;
mod notes;
mod orders;

pub use addresses::address_on_cycle;
pub use bodies::missing_body;
pub use call_graph::Memory;
pub use cycles::on_cycle;
pub use notes::FunctionNotes;
