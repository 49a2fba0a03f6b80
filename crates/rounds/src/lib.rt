// The rounds of the deep call, each the plan call under another numbering of the vertices or with the next trees, of which
// the best drive and the best floor are kept. A round looks only for a drive that is cheaper.
#![tactic(auto)]

pub mod under; // a plan under a numbering
pub mod round; // one round after another
