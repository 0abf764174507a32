//! Small cores: one that fits, so that no law over cores that fit is empty; and what is called and touched.
#![tactic(auto)]

#[cfg(test)]
mod calls;
pub mod laws;
#[cfg(test)]
mod touched;
