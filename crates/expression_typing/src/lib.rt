//! What an expression of C becomes when it is typed, and which rule it breaks first: the definitions are in specs/,
//! and proofs/ has examples.
#![tactic(auto)]
