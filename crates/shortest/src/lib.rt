// Distances and shortest paths of a plan.
#![tactic(auto)]

mod columns; // least weights from all vertices at once
pub mod weights; // the table of least weights: cost first, then the number of arcs
pub mod distance; // the table of distances
