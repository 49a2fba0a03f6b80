// An open plan and its marks as bytes.
#![tactic(auto)]

pub mod state_bytes; // a state of an open plan, lent: five files one after the other, that of the open plan and those of marks 0 to 3
