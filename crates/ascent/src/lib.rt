// Multipliers by ascent: steps from one lawful u to the next, towards a larger L(u). Nothing here says that a step is a good one;
// the test of `lawful` says which u is lawful.
#![tactic(auto)]

mod relax; // multipliers brought back under the two conditions
pub mod step; // one step
