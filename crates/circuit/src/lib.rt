// One closed walk through the legs of a drive.
#![tactic(auto)]

pub mod places; // the places of the legs
pub mod drive; // the drive, written
