// One closed walk through all legs.
#![tactic(auto)]

pub mod hierholzer; // the legs' order, by Hierholzer's walk
