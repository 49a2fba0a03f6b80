// Plan files and lent lists of arc records: reading into a list, and both ways over an array.
#![tactic(auto)]

pub mod reader; // from bytes to a lent list
pub mod arrays; // reading and writing over the first records of an array
