// What the program `drive` writes: its output in blocks, and what it says on standard error.
#![tactic(auto)]

pub mod message; // what is said on standard error
pub mod output; // output in blocks
