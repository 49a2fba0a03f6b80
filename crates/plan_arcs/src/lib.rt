// The arcs of a plan file.
#![tactic(auto)]

pub mod arcs; // the fields of an arc in a file
