// What a search over the trees of a plan that is not refused begins with, and going through them.
// Steps for other crates, which ask something of their caller.
ghost use Rattle.std.specs.Prelude.{◌≡◌, min};
ghost use Rattle.plan.specs.GoodPlan.{good_plan};
ghost use Rattle.postman.specs.Arborescence.{arborescences, arborescence_count};
ghost use Rattle.postman.specs.PlanCall.{tried_count, is_whole};
ghost use Rattle.small_counts.specs.Matrix.{cap};
ghost use Rattle.search.specs.StepContracts.{IsExplored};
ghost use Rattle.branches.specs.Holding.{IsShort};
ghost use Rattle.preparation.specs.Prepared.{prepared_plan};
ghost use Rattle.tree_search.specs.Begun.{IsBegun};

use branches::branch::Branch;
use branches::progress::Progress;
use candidates::Candidates;
use plan::good_plan::GoodPlan;
use preparation::prepared::Prepared;
use search::tried::{advance, number};
use tree_bounds::field::Field;
use tree_count::entries::entries_of;

// What a search begins with: the candidates in order, the branch of all trees, and how many they are.
#[derive(Clone, Copy)]
pub struct Begun {
    candidates: Candidates,
    root: Branch,
    pub number: u64,
}

// How many trees are tried in all, and whether these are all there are.
#[derive(Clone, Copy)]
pub(crate) struct Total {
    pub(crate) trees: u32,
    pub(crate) whole: bool,
}

// The root's potentials are the multipliers that are answered. The trees are counted once: how many
// each branch below the root has, and their sum.
pub fn begin(p: &Prepared<'_>) -> Begun
    ensures { IsBegun (prepared_plan p.now) p.now.table.now p.now.parts.now result }
{
    let net = p.parts.network;
    let v = p.parts.vertices;
    let candidates = candidates::of_network(net);
    let entries = entries_of(&net.links, &net.component);
    let k = usize::from(net.components);
    let root = branches::branch::root(
        &v.list[..v.count],
        k,
        p.parts.base,
        &p.parts.multipliers,
        net.required_cost,
        entries,
    );
    Begun {
        candidates,
        root,
        number: number(&root, k),
    }
}

// The trees from the root on: those to skip, then those that are left to be tried.
pub(crate) fn explored(p: &Prepared<'_>, s: &Begun, g: Progress) -> Progress
    requires { IsBegun (prepared_plan p.now) p.now.table.now p.now.parts.now s.now × IsShort g }
    ensures { IsExplored (prepared_plan p.now) (arborescences (prepared_plan p.now)) g result }
{
    let v = p.parts.vertices;
    let at = Field {
        d: p.table,
        vs: &v.list[..v.count],
        candidates: &s.candidates,
        k: usize::from(p.parts.network.components),
    };
    advance(g, &s.root, &p.parts.base.amounts, &at)
}

// How many of so many trees are tried.
pub fn tried_count(number: u64, budget: u32) -> u32
    ensures { result ≡ min budget number }
{
    u64::from(budget).min(number) as u32
}

// How many trees are tried in all, and whether these are all there are, from how many there are.
pub(crate) fn total_of(good: &GoodPlan, number: u64, budget: u32) -> Total
    requires { number ≡ min (arborescence_count (good_plan good.now)) cap }
    ensures { (result.trees ≡ tried_count (good_plan good.now) budget) × (result.whole ≡ is_whole (good_plan good.now) budget) }
{
    Total {
        trees: tried_count(number, budget),
        whole: number <= u64::from(budget),
    }
}
