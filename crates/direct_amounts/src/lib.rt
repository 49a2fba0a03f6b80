// Amounts that are made direct: what a vertex receives and sends on goes past it.
#![tactic(auto)]

pub mod direct; // amounts from surplus to deficit only
