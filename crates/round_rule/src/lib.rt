// The rule of the rounds of the deep call: what is kept of them, and what the next is made with.
#![tactic(auto)]

pub mod kept; // what the rounds so far have found
pub mod trial; // what a round is made with
