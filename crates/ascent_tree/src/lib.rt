// The cheapest pairs between components, and a cheapest tree of them.
#![tactic(auto)]

pub mod offers; // the cheapest pair for each two components
pub mod tree; // a cheapest tree, and a step along its links
