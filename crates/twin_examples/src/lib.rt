//! Which functions of two files are twins over their joint table. There are tests alone.
#![tactic(auto)]

#[cfg(test)]
mod files;
