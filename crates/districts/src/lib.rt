// Eight districts in turn.
#![tactic(auto)]

pub mod turn; // a turn
