//! Cells and their operations against gcc with `-fwrapv`, on 64-bit Linux.
#![tactic(auto)]

#[cfg(test)]
mod tests;
