//! What each action on declarations, statements and items makes of what was read before it.
#![tactic(auto)]

mod act_actions;
mod declaration_actions;
mod declaration_parts;
mod each_action;
mod external_actions;
mod external_parts;
mod parts;
mod statement_actions;
mod statement_parts;
mod steps_taken;

pub use declaration_parts::Declarations;
pub use external_parts::Externals;
pub use parts::Parts;
pub use statement_parts::Statements;
pub use steps_taken::file_tree;
