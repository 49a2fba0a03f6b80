// The network of a plan: its required vertices, their components, the links between them, and the imbalance of the required arcs.
#![tactic(auto)]

pub mod cut_off; // whether some required vertex has no path to another
pub mod thinning; // the pairs that are links
pub mod network; // all of it
