// Writing plan files, and their round trip.
#![tactic(auto)]

pub mod writer; // from a plan to bytes
pub mod round_trip; // the two together

use refusal::Refusal;

// What writing answers: the file's length in bytes, or the refusal.
pub type Written = Result<usize, Refusal>;
