// The machine of districts by value, and the places of its line.
#![tactic(auto)]

pub mod machine; // the machine, by value
pub mod places; // the places of a machine's line
