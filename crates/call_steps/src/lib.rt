// What calls share: 8 and 9, then 10 to 12 and the answer of a plan that was read.
#![tactic(auto)]

pub mod measured; // a plan with the table of its distances
pub mod steps; // 8 and 9, then 10 to 12 and the answer, which calls share
pub mod tabled; // the same with the table of its weights
