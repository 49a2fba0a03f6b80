// What other languages call for a file alone: reading, writing, the number of trees, distances and judging.
#![tactic(auto)]

pub mod codec; // reading and writing plan files
pub mod distance; // the distance call
pub mod count; // the number of trees
pub mod judging; // the judging call
