//! Names of unknown functions.

/// The name under which calls are answered: a pair of the shared set, or a unit of a version by itself.
#[derive(Clone, Copy, PartialEq, Eq, Hash, Debug)]
pub enum EntryName {
    Shared(u32),
    Old(u32),
    New(u32),
}

/// A set of pairs, by their numbers.
#[derive(Drop)]
pub struct PairSet {
    pub has: Vec<bool>,
}
