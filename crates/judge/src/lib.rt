// Judging a drive that another house laid: its cost, or the first fault.
#![tactic(auto)]

pub mod call; // the judging call

use refusal::Refusal;

// "It returns the cost exactly when the list is a drive by the definition, and otherwise names the first fault."
pub type Judged = Result<u32, Refusal>;
