// A search over a plan's trees whose best tree is held between rounds: looking for a cheaper tree, and the drive
// of the best one. The tables of the plan are lent.
#![tactic(auto)]

pub mod verdict; // whether a plan is refused
pub mod cheaper; // a tree that is cheaper than what is known
pub mod laid; // the drive of a tree that is held
