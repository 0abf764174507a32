//! Pairs of functions.

use sqlite_items::Items;

/// The number of each function's partner in the other file.
#[derive(Drop)]
pub struct FunctionPairs {
    /// The partner of each function of the old file.
    pub of_old: Items<Option<u32>>,
    /// The partner of each function of the new file.
    pub of_new: Items<Option<u32>>,
}

/// A function of the old file and its partner.
#[derive(Clone, Copy, Debug, PartialEq, Eq)]
pub struct Pair {
    pub old: u32,
    pub new: u32,
}
