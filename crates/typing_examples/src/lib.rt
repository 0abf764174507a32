//! What the crates of layouts, declarators, locals that are objects and call cycles answer on small cases. There are tests alone.
#![tactic(auto)]

#[cfg(test)]
mod cycles;
#[cfg(test)]
mod declared_types;
#[cfg(test)]
mod layouts;
#[cfg(test)]
mod objects_of_locals;
