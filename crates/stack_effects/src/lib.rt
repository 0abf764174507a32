//! When the actions of a grammar never lack their values: numbers of values on stacks, checked row by row.
#![tactic(auto)]
