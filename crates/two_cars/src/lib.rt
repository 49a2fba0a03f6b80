// Two cars on the streets of one plan, each with its own must arcs.
#![tactic(auto)]

pub mod call; // the call for two cars

use refusal::Refusal;
use solution::Planned;

// What each car is answered.
#[derive(Clone, Copy, Debug, PartialEq, Eq)]
pub struct TwoPlanned {
    pub first: Result<Planned, Refusal>,
    pub second: Result<Planned, Refusal>,
}
