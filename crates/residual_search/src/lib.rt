// The search for a cheapest way to send one unit more.
#![tactic(auto)]

pub mod lengths; // residual lengths between the vertices
pub mod search; // Dijkstra's search towards a vertex
pub mod vertex_list; // vertices in a list
