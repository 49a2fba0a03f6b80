// Distances for a page of index entries.
#![tactic(auto)]

mod pairs; // a pair of vertices as one number, and stray pairs
mod entries; // a search for each first vertex, and the entries of its pairs
pub mod call; // the distance call

use refusal::Refusal;

// What the distance call answers: the number of searches run, or the refusal.
pub type Searched = Result<u16, Refusal>;
