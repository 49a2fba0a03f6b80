// What a plan that is not refused is prepared with, once, before its trees are tried.
#![tactic(auto)]

mod base; // the state of the required arcs
pub mod prepare; // the preparation, by value
pub mod prepared; // the preparation with what it is of
pub mod links; // the state once the links of a tree are added
