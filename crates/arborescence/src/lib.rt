// Which components are reached from component 0.
#![tactic(auto)]

pub mod reach;
