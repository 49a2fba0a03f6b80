// A car's marks, and its plan.
#![tactic(auto)]

pub mod marks; // a car's marks, and its plan
