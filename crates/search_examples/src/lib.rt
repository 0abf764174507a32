//! What the crates of clauses, propagation, checks and searches give on small lists. There are tests alone.
#![tactic(auto)]

#[cfg(test)]
mod clauses_of_circuits;
#[cfg(test)]
mod marked_clauses;
#[cfg(test)]
mod propagation;
#[cfg(test)]
mod refutations;
#[cfg(test)]
mod small_searches;
#[cfg(test)]
mod tests;
