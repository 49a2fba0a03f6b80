// 13 repeated: whether two arcs of a plan agree.
#![tactic(auto)]

pub mod repeated; // whether two arcs agree
