// A(u): the cheapest arborescence over all pairs between components.
#![tactic(auto)]

pub mod pairs;
