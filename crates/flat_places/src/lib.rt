//! The places of a run in one array, whose length is fixed when it is made.
#![tactic(auto)]

mod places;

pub use places::FlatPlaces;
