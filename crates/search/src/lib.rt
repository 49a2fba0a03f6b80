// The search over a plan's arborescences, in whole branches: the first of least completion cost is kept.
#![tactic(auto)]

pub mod last; // those of a branch with one component left
pub mod explore; // those of any branch, in order
pub mod tried; // all trees
