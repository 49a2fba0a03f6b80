// The number of trees of few components, by closed forms, and capped totals.
#![tactic(auto)]

pub mod total; // from how many trees each branch below has
pub mod closed_form; // where one, two or three components are left
