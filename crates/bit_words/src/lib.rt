//! Words of literals, and the circuits of sums, products, comparisons, choices and conversions.
#![tactic(auto)]

pub mod cells;
mod comparisons;
pub mod gates;
pub mod places;
mod products;
pub mod ripples;
mod unaries;
mod words;

pub use comparisons::{
    equal, truth, word_at_least, word_at_most, word_different, word_equal, word_greater, word_less,
};
pub use products::product;
pub use unaries::{is_zero, word_convert, word_negative, word_unary};
pub use words::{Word, word_product};
