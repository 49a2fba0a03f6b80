// The first trees of a plan that is not refused, and going on after them.
#![tactic(auto)]

pub mod begin; // what a search begins with
pub mod improve; // a tree that costs less than what is known
pub mod trees; // the trees, at most as many as the budget
