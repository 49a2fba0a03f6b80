// Marks to come back to: a plan that is open for changes, by value, with four marks that hold it as it was.
#![tactic(auto)]

pub mod call; // opening, changes, marks, returns and asking

use held_file::Held;
use refusal::Verdict;

// The open plan: its file, and the file that each mark holds.
#[derive(Clone, Copy)]
pub struct OpenPlan {
    pub plan: Held,
    pub marks: [Held; 4],
}

// What a call answers: the verdict, and the open plan then.
#[derive(Clone, Copy)]
pub struct Moved {
    pub verdict: Verdict,
    pub state: OpenPlan,
}
