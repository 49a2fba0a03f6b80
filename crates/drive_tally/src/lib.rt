// What is counted of a drive that another house laid: foreign arcs and gaps, the cost, and the must arcs that are missed.
#![tactic(auto)]

pub mod faults; // foreign arcs and gaps
pub mod tally; // the cost, and the must arcs that are missed
