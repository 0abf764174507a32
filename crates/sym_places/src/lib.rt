//! What a symbolic run reads and writes at a spot, and what it stands for.
#![tactic(auto)]

mod bases;
mod held;
pub mod laws;
mod reads;
mod writes;

pub use bases::bases_of;
pub use reads::read;
pub use writes::write;
