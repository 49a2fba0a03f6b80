// A district's turn over its plan, which goes on from the trees that were tried.
#![tactic(auto)]

mod held; // whether what is held can be gone on from
pub mod plan_turn; // a district's turn, over its plan
