// An entry into a machine of districts.
#![tactic(auto)]

pub mod enter; // an entry
