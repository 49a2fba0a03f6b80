// The legs of a drive.
#![tactic(auto)]

pub mod legs; // the legs of a drive
