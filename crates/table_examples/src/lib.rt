//! The objects of two files' joint table, by their printed names and in their order. There are tests alone.
#![tactic(auto)]

#[cfg(test)]
mod arrays;
#[cfg(test)]
mod globals;
#[cfg(test)]
mod locals;
#[cfg(test)]
mod structs;
#[cfg(test)]
mod tables;
