// All trees in document 01's order: how many they are, and going through them.
// Steps for other crates, which ask something of their caller.
ghost use Rattle.std.specs.Prelude.{◌≡◌, ◌-◌, ◌<◌, ◌≤◌, min};
ghost use Rattle.postman.specs.Lists.{up_from};
ghost use Rattle.postman.specs.Plan.{Plan};
ghost use Rattle.small_counts.specs.Recursion.{count_trees};
ghost use Rattle.small_counts.specs.Matrix.{entries_of, cap, AreFew, AreCounts};
ghost use Rattle.tree_bounds.specs.Fields.{IsPrepared};
ghost use Rattle.search.specs.StepContracts.{IsExplored};
ghost use Rattle.branches.specs.Branches.{IsBranch, trees_in};
ghost use Rattle.branches.specs.Holding.{IsShort};

use crate::explore::explore;
use branches::branch::Branch;
use branches::progress::Progress;
use small_counts::total::total;
use tree_bounds::field::Field;

// How many trees there are, from the counts below the root: one where no component is to be chosen for.
pub fn number(root: &Branch, k: usize) -> u64
    requires { (1 ≤ k) × (k ≤ 8) × AreFew root.now.entries 1 k × (1 < k → AreCounts root.now.entries 1 k root.now.counts) }
    ensures { result ≡ min (count_trees (entries_of root.now.entries) (up_from 1 (k - 1))) cap }
{
    if k == 1 {
        1
    } else {
        total(root.counts, root.entries, 1, k)
    }
}

// The trees of a branch are gone through; the branch is one tree where no component is left to be chosen for.
pub fn advance(g: Progress, b: &Branch, f: &[u16; 4096], at: &Field) -> Progress
    requires { ((p : Plan) × IsPrepared p at.now × IsBranch p at.now.d.now f.now b.now) × IsShort g }
    ensures { (p : Plan) → IsPrepared p at.now → IsBranch p at.now.d.now f.now b.now → IsExplored p (trees_in p b.now) g result }
{
    if b.a == at.k {
        g.completed(b.fixed + b.balancing, b.tails, b.heads)
    } else {
        explore(g, b, f, at).progress
    }
}
