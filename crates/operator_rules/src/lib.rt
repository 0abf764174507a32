//! The rules of C for conversions, operators, constant expressions and assignments, for operands that are typed.
#![tactic(auto)]

mod additive_operators;
mod assignment;
mod cast_operators;
mod conditional_operator;
mod constant_expressions;
mod conversions;
mod equality_operators;
mod function_calls;
mod integer_operators;
mod kinds;
mod logical_operators;
mod operators;
mod relational_operators;
mod unary_arithmetic;

pub use assignment::{
    AssignmentTarget, Sides, assigned, compound_assigned, modifiable, stepped, target,
};
pub use cast_operators::{WrittenType, cast_to};
pub use conditional_operator::choice_of;
pub use constant_expressions::{constant_of, integer_constant_of};
pub use conversions::{converted_to, integer_converted, pointer_converted, promoted, tested};
pub use function_calls::passed_as;
pub use operators::{bump_after, bump_before, operated, set};
pub use unary_arithmetic::{Sign, not_of, on_promoted};
