// The arcs of the path of fewest arcs.
#![tactic(auto)]

pub mod path; // the arcs of a shortest path
