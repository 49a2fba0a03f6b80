// L(u) from R, D and u, and the floor.
#![tactic(auto)]

pub mod bound; // L(u)
