// The answer of a plan that is not refused.
#![tactic(auto)]

pub mod lay; // the drive of a tree
pub mod solve; // the answer of a plan that is not refused

// "The answer holds the places written, cost, floor, trees tried T, whole (yes or no), k and u."
#[derive(Clone, Copy, Debug, PartialEq, Eq)]
pub struct Planned {
    pub places: usize,
    pub cost: u64,
    pub floor: i64,
    pub trees: u32,
    pub whole: bool,
    pub parts: u8,
    pub multipliers: [i64; 64],
}
