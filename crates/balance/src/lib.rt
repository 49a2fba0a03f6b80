// Least-cost balancing: amounts between the required vertices that even out the arcs counted so far, kept at the least cost by potentials.
#![tactic(auto)]

mod augment; // one unit more along a path
pub mod state; // the state, and arcs added to it
pub mod multipliers; // the greatest multipliers
