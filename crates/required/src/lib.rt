// Required vertices, what required arcs cost, and D.
#![tactic(auto)]

pub mod required_sum; // R and D, sums over the required arcs
pub mod required_vertex; // the required vertices
