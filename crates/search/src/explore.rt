// The trees of a branch, in order.
ghost use Rattle.std.specs.Prelude.{◌≡◌, List, [], ◌∷◌, ◌++◌, ℕ, ◌+◌, ◌<◌, ◌≤◌};
ghost use Rattle.postman.specs.Plan.{Plan};
ghost use Rattle.tree_bounds.specs.Bound.{reduced_by};
ghost use Rattle.branches.specs.Progress.{pass_over};
ghost use Rattle.tree_bounds.specs.Fields.{IsPrepared};
ghost use Rattle.search.specs.StepContracts.{IsExplored, IsBranchPriced};
ghost use Rattle.branches.specs.Branches.{IsBranch, chosen_in, candidate_link, trees_in};
ghost use Rattle.branches.specs.Holding.{held_in, is_entered, IsShort};
ghost use Rattle.tree_bounds.specs.Pricing.{Prices};
ghost use Rattle.tree_bounds.specs.Reducible.{CanReduce};

use crate::last::last;
use branches::branch::Branch;
use branches::candidate::{Candidate, candidate_at};
use branches::progress::Progress;
use tree_bounds::field::Field;
use tree_bounds::pricing::Pricing;
use tree_bounds::reduced::reduced;

// What is held after trees of a branch, and prices of the branch: those of the tree that was tried last,
// without the links that are not the branch's.
#[derive(Clone, Copy)]
pub struct Explored {
    pub progress: Progress,
    pub pricing: Pricing,
}

impl Explored {
    // Before the first candidate: the branch's own prices.
    fn begun(g: Progress, b: &Branch, at: &Field) -> Explored
        requires { ((p : Plan) × (f : List ℕ) × IsPrepared p at.now × IsBranch p at.now.d.now f b.now) × (b.now.a < at.now.k) }
        ensures { (result.progress ≡ g)
            × ((p : Plan) (f : List ℕ) → IsPrepared p at.now → IsBranch p at.now.d.now f b.now
            → IsBranchPriced p at.now.d.now b.now result.pricing) }
    {
        let potentials = b.potentials;
        let own = Pricing {
            potentials,
            value: b.balancing,
            bound: 0,
        };
        Explored {
            progress: g,
            pricing: own.bounded(b.fixed, at, b.a + 1),
        }
    }

    // Whether the branch below a candidate is gone into.
    pub(crate) fn goes_into(&self, d: &[[u32; 64]; 64], c: Candidate) -> bool
        requires { CanReduce d.now self.now.pricing.potentials c.tail c.head × (self.now.pricing.bound ≤ 3100000000000) }
        ensures { result ≡ is_entered self.now.progress c.trees
            (self.now.pricing.bound + reduced_by d.now self.now.pricing.potentials c.tail c.head) }
    {
        let least = self.pricing.bound + reduced(d, &self.pricing.potentials, c.tail, c.head);
        self.progress.enters(c.trees, least)
    }

    // The trees behind a candidate are passed over, and counted at once.
    pub(crate) fn pass_over(&mut self, c: Candidate)
        ensures progress { (m : ℕ) → held_in m self.new.progress ≡ pass_over (held_in m self.old.progress) c.trees }
        ensures pricing { self.new.pricing ≡ self.old.pricing }
    {
        self.progress = self.progress.passed(c.trees);
    }

    // The trees behind a candidate were gone through: the branch's prices are those that the branch below
    // was left with, without the candidate's link.
    fn backed_up(self, under: Explored, b: &Branch, c: Candidate, at: &Field) -> Explored
        requires { ((p : Plan) × (f : List ℕ) × IsPrepared p at.now × IsBranch p at.now.d.now f b.now
            × Prices p at.now.d.now (chosen_in b.now) b.now.a self.pricing
            × Prices p at.now.d.now (chosen_in b.now ++ candidate_link c ∷ []) (b.now.a + 1) under.pricing)
            × (b.now.a < at.now.k) × (c.tail < 64) × (c.head < 64) }
        ensures { (result.progress ≡ under.progress)
            × ((p : Plan) (f : List ℕ) → IsPrepared p at.now → IsBranch p at.now.d.now f b.now
            → Prices p at.now.d.now (chosen_in b.now) b.now.a self.pricing
            → Prices p at.now.d.now (chosen_in b.now ++ candidate_link c ∷ []) (b.now.a + 1) under.pricing
            → IsBranchPriced p at.now.d.now b.now result.pricing) }
    {
        let prices = self.pricing.lifted(under.pricing, c.tail, c.head);
        Explored {
            progress: under.progress,
            pricing: prices.bounded(b.fixed, at, b.a + 1),
        }
    }
}

// One candidate of component a after the other: the branch below is passed over, or gone into with the amounts copied. Its trees are priced
// by the branch's own potentials, and after a branch below was gone into by those that it was left with.
pub(crate) fn explore(g: Progress, b: &Branch, f: &[u16; 4096], at: &Field) -> Explored
    requires { ((p : Plan) × IsPrepared p at.now × IsBranch p at.now.d.now f.now b.now) × IsShort g × (b.now.a < at.now.k) }
    ensures { (p : Plan) → IsPrepared p at.now → IsBranch p at.now.d.now f.now b.now
        → IsExplored p (trees_in p b.now) g result.progress × Prices p at.now.d.now (chosen_in b.now) b.now.a result.pricing }
{
    if b.a + 1 == at.k {
        return last(g, b, f, at);
    }
    let start = &at.candidates.start;
    let mut e = Explored::begun(g, b, at);
    for x in start[b.a]..start[b.a + 1] {
        let c = candidate_at(at.candidates, b, x);
        if e.goes_into(at.d, c) {
            let mut more = *f;
            let next = b.below(&mut more, at, c);
            let under = explore(e.progress, &next, &more, at);
            e = e.backed_up(under, b, c, at);
        } else {
            e.pass_over(c);
        }
    }
    e
}
