// Whether links that are held are a tree, and what it costs.
#![tactic(auto)]

pub mod tree; // whether links that are held are a tree
pub mod cost; // what such a tree costs
