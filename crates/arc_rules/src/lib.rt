// What is refused of arcs by their records.
#![tactic(auto)]

pub mod rules; // what is refused of an arc
pub mod verdicts; // what is refused of m records
