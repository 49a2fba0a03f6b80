// The multipliers that are answered, and the bound that they give.
#![tactic(auto)]

pub mod ascend; // the multipliers that are answered
