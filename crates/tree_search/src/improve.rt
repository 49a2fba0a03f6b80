// A tree that costs less than what is known: branches that cannot have one are pruned from the first tree on.
// Steps for other crates, which ask something of their caller.
ghost use Rattle.preparation.specs.Prepared.{prepared_plan};
ghost use Rattle.tree_search.specs.Begun.{IsBegun};
ghost use Rattle.tree_search.specs.Improved.{CanImprove, IsImproved};

use crate::begin::{Begun, explored, total_of};
use branches::progress::Progress;
use preparation::prepared::Prepared;

// The first tree of least cost among those tried, how many were, and whether these are all.
#[derive(Clone, Copy)]
pub struct Searched {
    pub cost: u64,
    pub tails: [u8; 8],
    pub heads: [u8; 8],
    pub tried: u32,
    pub whole: bool,
}

// A tree that costs less than `cost`, among so many trees, of which the first `before` have none.
pub fn improve(p: &Prepared<'_>, s: &Begun, cost: u64, before: u32, tries: u32) -> Searched
    requires { IsBegun (prepared_plan p.now) p.now.table.now p.now.parts.now s.now
        × CanImprove (prepared_plan p.now) cost before tries }
    ensures { IsImproved (prepared_plan p.now) cost tries result }
{
    let first = total_of(p.good, s.number, before);
    let total = total_of(p.good, s.number, tries);
    let from = Progress {
        cost,
        tails: [0; 8],
        heads: [0; 8],
        skip: u64::from(first.trees),
        left: u64::from(total.trees - first.trees),
    };
    let found = explored(p, s, from);
    let Progress { tails, heads, .. } = found;
    Searched {
        cost: found.cost,
        tails,
        heads,
        tried: total.trees,
        whole: total.whole,
    }
}
