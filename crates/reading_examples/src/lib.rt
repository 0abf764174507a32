//! What small C texts are as tokens and as trees, or where they are refused. There are tests alone.
#![tactic(auto)]

#[cfg(test)]
mod first_tokens;
#[cfg(test)]
mod lexing;
#[cfg(test)]
mod operands;
#[cfg(test)]
mod reading;
#[cfg(test)]
mod sources;
