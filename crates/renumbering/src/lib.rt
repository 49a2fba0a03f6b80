// Renumbering the vertices of a plan: numberings by value, and what a plan call is made with under one of them.
#![tactic(auto)]

pub mod numbering; // numberings, and exchanges of two numbers
pub mod shuffle; // numbers exchanged at random
pub mod renumbered; // the plan, its tables and its multipliers under a numbering
