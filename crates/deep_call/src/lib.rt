// The deep call: as many rounds as are asked for, and the best drive of them.
#![tactic(auto)]

pub mod call; // the deep call
