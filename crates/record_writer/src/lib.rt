// Plan files and lent lists of arc records: writing from a list.
#![tactic(auto)]

pub mod writer; // from a lent list to bytes
