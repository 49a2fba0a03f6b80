// Numbers and records as bytes of a lent slice.
#![tactic(auto)]

pub mod record_bytes; // a record as seven bytes
pub mod number_bytes; // numbers of two, four and eight bytes
