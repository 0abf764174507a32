//! Why twins do the same though a constant may have changed that they don't touch.
#![tactic(auto)]

pub mod laws;
