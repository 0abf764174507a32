//! The rules of C for places: names, addresses, arrays and structs; and for what is called.
#![tactic(auto)]

mod addresses;
mod function_calls;
mod members;
mod operands;
mod primary;
mod subscripts;

pub use addresses::{address_of, target_of};
pub use function_calls::{CalledFunction, called, callee, later};
pub use members::{arrow_of, member_of};
pub use operands::{Ends, converted_operand, place_type, pointee_of, taken, type_of_pointee};
pub use primary::{character_constant, integer_constant, named};
pub use subscripts::element_of;
