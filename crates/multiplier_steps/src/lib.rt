// What the steps of the ascent are made of: signed multipliers, and the test whether they meet the two conditions.
#![tactic(auto)]

pub mod lawful; // the test of multipliers
pub mod steps; // multipliers that are capped, counted from the first vertex, carried on
