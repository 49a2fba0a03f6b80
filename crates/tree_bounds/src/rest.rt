// What the components that are not chosen for yet cost at least.
ghost use Rattle.std.specs.Prelude.{List, ℕ, ◌+◌, ◌<◌, ◌≤◌, get_or};
ghost use Rattle.postman.specs.Plan.{Plan};
ghost use Rattle.tree_bounds.specs.Bound.{Low};
ghost use Rattle.tree_bounds.specs.Reducible.{AreReducible, IsLeast};
ghost use Rattle.tree_bounds.specs.Prepared.{Prepared};
ghost use Rattle.tree_bounds.specs.Fields.{CanRestIn};

use crate::field::Field;
use crate::reduced::reduced;

impl Field<'_> {
    // The least reduced cost of component q's candidates; 4,000,000,000 where it has none.
    fn least(&self, p: &[u64; 64], q: usize) -> u64
        requires place { q < 8 }
        requires ascending { get_or self.now.candidates.now.start q 0 ≤ get_or self.now.candidates.now.start (q + 1) 0 }
        requires fits { get_or self.now.candidates.now.start (q + 1) 0 ≤ 4096 }
        requires reducible { AreReducible self.now.d.now p.now self.now.candidates.now.tails self.now.candidates.now.heads
            (get_or self.now.candidates.now.start q 0) (get_or self.now.candidates.now.start (q + 1) 0) }
        ensures { IsLeast self.now.d.now p.now self.now.candidates.now.tails self.now.candidates.now.heads
            (get_or self.now.candidates.now.start q 0) (get_or self.now.candidates.now.start (q + 1) 0) result }
    {
        let c = self.candidates;
        let mut least = 4_000_000_000;
        for x in c.start[q]..c.start[q + 1] {
            least = reduced(self.d, p, c.tails[x], c.heads[x]).min(least);
        }
        least
    }

    // The least reduced costs of the components from a on, in all.
    pub(crate) fn rest(&self, p: &[u64; 64], a: usize) -> u64
        requires { CanRestIn self.now p.now a }
        ensures low { (q : Plan) (vs source : List ℕ)
            → Prepared q self.now.d.now vs self.now.candidates.now.start source
            self.now.candidates.now.tails self.now.candidates.now.heads self.now.k
            → Low q self.now.d.now p.now result a }
        ensures small { result ≤ 32000000000 }
    {
        let mut sum = 0;
        for q in (a..self.k).rev() {
            sum += self.least(p, q);
        }
        sum
    }
}
