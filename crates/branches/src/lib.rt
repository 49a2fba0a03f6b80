// Branches of trees, and what is held of those that were tried.
#![tactic(auto)]

mod names; // which component each has become one with
pub mod progress; // the best so far, and the trees that are left
pub mod candidate; // a candidate of the component that is chosen for next
pub mod branch; // the trees that begin with the same choices
