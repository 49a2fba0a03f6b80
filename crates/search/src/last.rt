// The trees of a branch in which the last component alone is left to be chosen for.
ghost use Rattle.std.specs.Prelude.{◌≡◌, ◌+◌};
ghost use Rattle.postman.specs.Plan.{Plan};
ghost use Rattle.tree_bounds.specs.Fields.{IsPreparedFor};
ghost use Rattle.search.specs.StepContracts.{CanComplete, IsCompleted, IsExplored};
ghost use Rattle.branches.specs.Branches.{IsBranch, trees_in, chosen_in};
ghost use Rattle.branches.specs.Holding.{IsShort};
ghost use Rattle.tree_bounds.specs.Pricing.{Prices};

use crate::explore::Explored;
use balance::state::price;
use branches::branch::Branch;
use branches::candidate::{Candidate, candidate_at};
use branches::progress::Progress;
use tree_bounds::field::Field;
use tree_bounds::level::levelled;
use tree_bounds::pricing::Pricing;

// What is held after a tree, and the potentials that it has raised.
#[derive(Clone, Copy)]
pub struct Completed {
    pub progress: Progress,
    pub potentials: [u64; 64],
}

// The tree that a candidate completes is tried. Its unit is not sent: the cost is what the raised potentials price it
// at. They certify the amounts without it too.
fn complete(
    g: Progress,
    b: &Branch,
    f: &[u16; 4096],
    w: &[u64; 64],
    at: &Field,
    c: Candidate,
) -> Completed
    requires { CanComplete at.now.d.now at.now.vs.now f.now b.now w.now c.tail c.head }
    ensures { IsCompleted at.now.d.now at.now.vs.now f.now b.now w.now c.tail c.head g result }
{
    let more = price(f, w, b.balancing, b.count, at.d, at.vs, c.tail, c.head);
    let cost = b.fixed + u64::from(at.d[usize::from(c.tail)][usize::from(c.head)]) + more.cost;
    let (tails, heads) = b.links_with(c.tail, c.head);
    Completed {
        progress: g.completed(cost, tails, heads),
        potentials: levelled(more.potentials, at.vs),
    }
}

impl Explored {
    // A tree of the branch was tried.
    fn take(&mut self, t: Completed)
        ensures progress { self.new.progress ≡ t.progress }
        ensures potentials { self.new.pricing.potentials ≡ t.potentials }
        ensures value { self.new.pricing.value ≡ self.old.pricing.value }
        ensures bound { self.new.pricing.bound ≡ self.old.pricing.bound }
    {
        let potentials = t.potentials;
        self.progress = t.progress;
        self.pricing.potentials = potentials;
    }
}

// One candidate after the other: its tree is passed over, or tried with the potentials that the one before it has raised.
pub(crate) fn last(g: Progress, b: &Branch, f: &[u16; 4096], at: &Field) -> Explored
    requires { ((p : Plan) × IsPreparedFor p at.now (b.now.a + 1) × IsBranch p at.now.d.now f.now b.now) × IsShort g }
    ensures { (p : Plan) → IsPreparedFor p at.now (b.now.a + 1) → IsBranch p at.now.d.now f.now b.now
        → IsExplored p (trees_in p b.now) g result.progress × Prices p at.now.d.now (chosen_in b.now) b.now.a result.pricing }
{
    let start = &at.candidates.start;
    let potentials = b.potentials;
    let mut e = Explored {
        progress: g,
        pricing: Pricing {
            potentials,
            value: b.balancing,
            bound: b.fixed + b.balancing,
        },
    };
    for x in start[b.a]..start[b.a + 1] {
        let c = candidate_at(at.candidates, b, x);
        if e.goes_into(at.d, c) {
            let t = complete(e.progress, b, f, &e.pricing.potentials, at, c);
            e.take(t);
        } else {
            e.pass_over(c);
        }
    }
    e
}
