// A candidate of the component that is chosen for next.
// Steps for other crates, which ask something of their caller.
ghost use Rattle.std.specs.Prelude.{◌<◌, get_or};
ghost use Rattle.branches.specs.Branches.{IsCandidate};

use crate::branch::Branch;
use candidates::Candidates;

// Its link, its source by its new name, and how many trees the branch below has.
#[derive(Clone, Copy)]
pub struct Candidate {
    pub tail: u8,
    pub head: u8,
    pub name: u8,
    pub trees: u64,
}

// The candidate at place x.
pub fn candidate_at(c: &Candidates, b: &Branch, x: usize) -> Candidate
    requires { (x < 4096) × (get_or c.now.source x 0 < 8) × (get_or b.now.names (get_or c.now.source x 0) 0 < 8) }
    ensures { IsCandidate c.now.source c.now.tails c.now.heads b.now.names b.now.counts x result }
{
    let name = b.names[usize::from(c.source[x])];
    Candidate {
        tail: c.tails[x],
        head: c.heads[x],
        name,
        trees: b.counts[usize::from(name)],
    }
}
