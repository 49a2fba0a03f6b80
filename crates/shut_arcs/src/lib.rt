// Market days: windows in which arcs are shut. Steps for the plan call at a departure.
#![tactic(auto)]

mod window; // a window, and a departure
pub mod limits; // what is asked of windows and a departure
pub mod shut; // arcs that are shut, and the plan at a departure
