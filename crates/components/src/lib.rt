// The components of a plan.
#![tactic(auto)]

pub mod labels; // the lowest vertex of each component, by merging
pub mod components; // the components, numbered
