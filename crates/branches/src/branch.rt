// A branch: the trees that begin with the same choices for components 1 to a - 1.
// Steps for other crates, which ask something of their caller.
ghost use Rattle.std.specs.Prelude.{◌≡◌, List, ℕ, ◌+◌, ◌-◌, ◌<◌, ◌≤◌, set};
ghost use Rattle.postman.specs.Plan.{Plan};
ghost use Rattle.balance.specs.Records.{state_of};
ghost use Rattle.small_counts.specs.Matrix.{AreFew, AreCounts};
ghost use Rattle.tree_bounds.specs.Prepared.{Prepared};
ghost use Rattle.branches.specs.Branches.{CanGoBelow, IsBelow, AreGiven, IsRoot};

use crate::candidate::Candidate;
use crate::names::renamed;
use balance::state::{Balance, add_in};
use tree_bounds::field::Field;
use tree_bounds::reduced::shifted;
use tree_count::count::{counts, merge};

// The links chosen; the potentials, the cost and the number of arcs of the required arcs balanced with them, of which the amounts are lent
// beside the branch; R and the d of the links; which component each has become one with; how many entries each component has from each
// other; and how many trees each branch below has.
#[derive(Clone, Copy)]
pub struct Branch {
    pub a: usize,
    pub tails: [u8; 8],
    pub heads: [u8; 8],
    pub potentials: [u64; 64],
    pub balancing: u64,
    pub count: u16,
    pub fixed: u64,
    pub names: [u8; 8],
    pub entries: [u32; 64],
    pub counts: [u64; 8],
}

impl Branch {
    // The links chosen, with one more from tail to head: the tails and the heads.
    pub fn links_with(&self, tail: u8, head: u8) -> ([u8; 8], [u8; 8])
        requires { (1 ≤ self.now.a) × (self.now.a ≤ 8) }
        ensures tails { result.0 ≡ set self.now.tails (self.now.a - 1) tail }
        ensures heads { result.1 ≡ set self.now.heads (self.now.a - 1) head }
    {
        let (mut tails, mut heads) = (self.tails, self.heads);
        tails[self.a - 1] = tail;
        heads[self.a - 1] = head;
        (tails, heads)
    }

    // The branch below: component a takes the candidate c. The amounts become those with its link.
    pub fn below(&self, f: &mut [u16; 4096], at: &Field, c: Candidate) -> Branch
        requires { CanGoBelow at.now.d.now at.now.vs.now f.old self.now c.tail c.head c.name at.now.k × (self.now.a + 1 < at.now.k) }
        ensures { IsBelow at.now.d.now at.now.vs.now f.old self.now c.tail c.head c.name at.now.k f.new result
            × AreCounts result.entries result.a at.now.k result.counts }
    {
        let more = add_in(
            f,
            &self.potentials,
            self.balancing,
            self.count,
            at.d,
            at.vs,
            c.tail,
            c.head,
        );
        let potentials = more.potentials;
        let (tails, heads) = self.links_with(c.tail, c.head);
        let entries = merge(self.entries, self.a, usize::from(c.name), at.k);
        Branch {
            a: self.a + 1,
            tails,
            heads,
            potentials,
            balancing: more.cost,
            count: self.count + 1,
            fixed: self.fixed + u64::from(at.d[usize::from(c.tail)][usize::from(c.head)]),
            names: renamed(self.names, self.a, c.name),
            entries,
            counts: counts(entries, self.a + 1, at.k),
        }
    }
}

// How many trees each branch below the root has; none where no component is to be chosen for.
fn root_counts(entries: [u32; 64], k: usize) -> [u64; 8]
    requires { (1 ≤ k) × (k ≤ 8) × AreFew entries 1 k }
    ensures { 1 < k → AreCounts entries 1 k result }
{
    if k == 1 {
        [0; 8]
    } else {
        counts(entries, 1, k)
    }
}

// The branch that has no choice yet, from the state of the required arcs, the multipliers u, R, and the number of entries that each
// component has from each other. The multipliers certify the state's amounts, so they are its potentials.
pub fn root(
    vs: &[u8],
    k: usize,
    base: Balance,
    u: &[i64; 64],
    required_cost: u64,
    entries: [u32; 64],
) -> Branch
    requires { (p : Plan) × (table : List (List ℕ)) × (start : List ℕ) × (source : List ℕ) × (tails : List ℕ) × (heads : List ℕ)
        × Prepared p table vs.now start source tails heads k × AreGiven p table (state_of base) u.now required_cost entries }
    ensures { (p : Plan) (table : List (List ℕ)) (start source tails heads : List ℕ)
        → Prepared p table vs.now start source tails heads k
        → AreGiven p table (state_of base) u.now required_cost entries → IsRoot p table base.amounts result }
{
    Branch {
        a: 1,
        tails: [0; 8],
        heads: [0; 8],
        potentials: shifted(u, vs),
        balancing: base.cost,
        count: base.count,
        fixed: required_cost,
        names: [0, 1, 2, 3, 4, 5, 6, 7],
        entries,
        counts: root_counts(entries, k),
    }
}
