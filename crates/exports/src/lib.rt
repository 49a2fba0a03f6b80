// What other languages call: functions over numbers and slices, none of which asks anything of its caller.
#![tactic(auto)]

pub mod call; // the plan call, the short call, the plan call at a departure and the deep call
pub mod cars; // the call for two cars
