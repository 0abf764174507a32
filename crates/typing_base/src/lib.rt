//! What typing a file works on: names and what they stand for, structs, what is noted, operands, and broken rules.
#![tactic(auto)]

mod addresses;
mod entities;
mod faults;
mod locals;
mod notes;
mod operands;
mod scopes;
mod sizes;
mod structures;

pub use addresses::{Addresses, Taken};
pub use entities::{Entity, NamedType, QualifiedType, Tagged};
pub use faults::{Break, Cause, Fault, broken, copied_name, not_in_profile, wrong_type};
pub use locals::{Local, Locals};
pub use notes::{BodyNotes, Call, Notes};
pub use operands::{Operand, PlaceType};
pub use scopes::{Environment, Scope};
pub use sizes::{cells_of, cells_of_place, complete_cells, pointee_cells};
pub use structures::{Field, Structure};
