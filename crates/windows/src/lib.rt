// Market days: the plan call with windows in which arcs are shut, and a departure.
#![tactic(auto)]

pub mod call; // the plan call at a departure
