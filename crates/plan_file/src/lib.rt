// Plan files: the reader and the writer, by the bit layout that the crate `postman` defines.

#![tactic(auto)]

pub mod reader; // from bytes to a plan

use plan::Plan;

// A plan file that was read: its edition and its plan.
#[derive(Clone, Copy)]
pub struct Reading {
    pub edition: u8,
    pub plan: Plan,
}
