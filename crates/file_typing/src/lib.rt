//! What a file of C becomes, and which rule it breaks first: the definition is in specs/, and no code runs here.
#![tactic(auto)]
