//! What one task does: to the work that an activation of a function has still to do, and to the contents of its variables.
#![tactic(auto)]

mod choices;
mod operands;
mod places;
mod progress;
mod results;
mod scopes;
mod statements;
mod taking;
mod tasks;

pub use choices::laws_of_loops;
pub use progress::Progress;
pub use taking::take_task;
pub use tasks::perform;
