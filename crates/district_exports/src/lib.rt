// What other languages call over a state that they lend: functions over numbers and
// slices, none of which asks anything of its caller.
#![tactic(auto)]

pub mod turns; // eight districts in turn
