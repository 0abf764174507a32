//! What runs of the top call write. There are tests alone; files that are compared by the built program are in examples/.
#![tactic(auto)]

#[cfg(test)]
mod desks;
#[cfg(test)]
mod maps;
#[cfg(test)]
mod runs;
