// The trees of a plan that is not refused, in order, at most as many as the budget.
// Steps for other crates, which ask something of their caller.
ghost use Rattle.std.specs.Prelude.{◌≡◌, ◌≤◌, ◌+◌};
ghost use Rattle.postman.specs.PlanCall.{best_cost, best_arborescence};
ghost use Rattle.preparation.specs.Prepared.{prepared_plan};
ghost use Rattle.tree_search.specs.Begun.{IsBegun};
ghost use Rattle.tree_search.specs.Improved.{IsSearched};
ghost use Rattle.tree_search.specs.Resumed.{nothing_held, turn_of, tried_on, links_by, IsResumed};

use crate::begin::{Begun, begin, explored, total_of};
use crate::improve::{Searched, improve};
use branches::progress::Progress;
use preparation::prepared::Prepared;

// How far a search is: the best so far, and how many trees were tried.
#[derive(Clone, Copy)]
pub struct Reached {
    pub cost: u64,
    pub tails: [u8; 8],
    pub heads: [u8; 8],
    pub tried: u32,
}

// How far it is after a turn, how many trees are tried in all, and whether these are all there are.
#[derive(Clone, Copy)]
pub struct Resumed {
    pub cost: u64,
    pub tails: [u8; 8],
    pub heads: [u8; 8],
    pub tried: u32,
    pub total: u32,
    pub whole: bool,
}

// What is held before the first tree.
pub fn nothing_held() -> Reached
    ensures { result ≡ nothing_held }
{
    Reached {
        cost: 0,
        tails: [0; 8],
        heads: [0; 8],
        tried: 0,
    }
}

// The first trees, at most as many as the budget. No tree costs as much as 4,000,000,000,000.
fn searched(p: &Prepared<'_>, s: &Begun, budget: u32) -> Searched
    requires { IsBegun (prepared_plan p.now) p.now.table.now p.now.parts.now s.now × (1 ≤ budget) }
    ensures { IsSearched (prepared_plan p.now) budget result }
{
    improve(p, s, 4_000_000_000_000, 0, budget)
}

// The first tree of least cost among those tried.
pub fn best(p: &Prepared<'_>, budget: u32) -> Searched
    requires { 1 ≤ budget }
    ensures { IsSearched (prepared_plan p.now) budget result }
{
    let s = begin(p);
    searched(p, &s, budget)
}

// "takes 1,000 trees or the rest of T"
fn turn_of(total: u32, tried: u32) -> u32
    ensures { result ≡ turn_of total tried }
{
    total.saturating_sub(tried).min(1_000)
}

// The first trees.
fn first_tried(p: &Prepared<'_>, s: &Begun, n: u32) -> Reached
    requires { IsBegun (prepared_plan p.now) p.now.table.now p.now.parts.now s.now × (1 ≤ n) }
    ensures { (result.tried ≡ n) × (result.cost ≡ best_cost (prepared_plan p.now) n)
        × (links_by (prepared_plan p.now) result ≡ best_arborescence (prepared_plan p.now) n) }
{
    let Searched {
        cost,
        tails,
        heads,
        ..
    } = searched(p, s, n);
    Reached {
        cost,
        tails,
        heads,
        tried: n,
    }
}

// More trees after those that were tried. None of them is tried again.
fn tried_on(p: &Prepared<'_>, s: &Begun, g: Reached, more: u32) -> Reached
    requires begun { IsBegun (prepared_plan p.now) p.now.table.now p.now.parts.now s.now }
    requires within_limits { (1 ≤ g.tried + more) × (g.tried ≤ 1000000000) × (more ≤ 1000000000) }
    ensures { (result.tried ≡ g.tried + more) × (result.cost ≡
        (tried_on (prepared_plan p.now) g.cost (links_by (prepared_plan p.now) g) g.tried more).cost)
        × (links_by (prepared_plan p.now) result
        ≡ (tried_on (prepared_plan p.now) g.cost (links_by (prepared_plan p.now) g) g.tried more).links) }
{
    if g.tried == 0 {
        return first_tried(p, s, more);
    }
    let Reached {
        cost,
        tails,
        heads,
        tried,
    } = g;
    let from = Progress {
        cost,
        tails,
        heads,
        skip: u64::from(tried),
        left: u64::from(more),
    };
    let Progress {
        cost,
        tails,
        heads,
        ..
    } = explored(p, s, from);
    Reached {
        cost,
        tails,
        heads,
        tried: tried + more,
    }
}

// One turn.
pub fn resume(p: &Prepared<'_>, budget: u32, g: Reached) -> Resumed
    requires { (1 ≤ budget) × (g.tried ≤ 1000000) }
    ensures { IsResumed (prepared_plan p.now) budget g result }
{
    let s = begin(p);
    let total = total_of(p.good, s.number, budget);
    let more = turn_of(total.trees, g.tried);
    let Reached {
        cost,
        tails,
        heads,
        tried,
    } = tried_on(p, &s, g, more);
    Resumed {
        cost,
        tails,
        heads,
        tried,
        total: total.trees,
        whole: total.whole,
    }
}
