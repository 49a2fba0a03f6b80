// A machine of districts as bytes, and what its calls answer.
#![tactic(auto)]

pub mod machine_bytes; // a machine of districts as bytes
pub mod machine_stored; // the answer of an entry and of a turn, handed over
