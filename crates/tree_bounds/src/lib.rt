// What the trees of a branch cost at least.
#![tactic(auto)]

pub mod field; // what the trees are searched in
pub mod reduced; // reduced costs
mod put; // a number for each vertex of a list
pub mod level; // potentials from that of the first vertex on
mod rest; // what the components that are not chosen for yet cost at least
pub mod pricing; // potentials that price a branch
