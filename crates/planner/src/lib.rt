// The plan call.
#![tactic(auto)]

pub mod call; // the plan call and the short call
