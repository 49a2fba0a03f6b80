// Least weights of a plan's paths: rows by rounds of relaxing, and the table of all rows. An arc weighs 64 × its cost + 1, so that a
// lightest path is a cheapest one, of the fewest arcs.
// Steps for other crates, which ask something of their caller.
ghost use Rattle.std.specs.Prelude.{◌≡◌, true, ℕ, ◌<◌, get_or};
ghost use Rattle.plan.specs.GoodPlan.{good_plan};
ghost use Rattle.plan.specs.Records.{arc_value};
ghost use Rattle.shortest.specs.Weight.{heavy, weighted};
ghost use Rattle.shortest.specs.Relaxation.{weight, shorter as capped_sum, relax_arcs};
ghost use Rattle.shortest.specs.Columns.{row_from as row_from_table};
ghost use Rattle.shortest.specs.StepContracts.{IsRow, AreWeights};

use crate::columns::{row_from, settled};
use plan::Arc;
use plan::good_plan::GoodPlan;

// "4,294,967,295 stands for no path".
pub(crate) const NO_PATH: u32 = u32::MAX;

// What an arc adds to a path: a closed arc leads nowhere.
#[tactic(auto, unfolding(crate::specs::Relaxation::weight, postman::specs::Distance::no_path))]
pub(crate) fn arc_weight(a: Arc) -> u32
    ensures { result ≡ weight (heavy (arc_value a)) }
{
    if plan::is_open(a) {
        64 * u32::from(a.cost) + 1
    } else {
        NO_PATH
    }
}

// The least of c and a + b. The sum stops at "no path".
#[tactic(auto, unfolding(crate::specs::Relaxation::shorter, postman::specs::Distance::no_path))]
pub(crate) fn shorter(a: u32, b: u32, c: u32) -> u32
    ensures { result ≡ capped_sum a b c }
{
    c.min(a.saturating_add(b))
}

// Each arc of the plan relaxed once.
fn round(good: &GoodPlan, row: [u32; 64]) -> [u32; 64]
    ensures { result ≡ relax_arcs (weighted (good_plan good.now)).arcs row }
{
    let mut next = row;
    for a in &good.plan.arcs[..usize::from(good.plan.m)] {
        let t = usize::from(a.tail);
        let h = usize::from(a.head);
        next[h] = shorter(next[t], arc_weight(*a), next[h]);
    }
    next
}

// The least weights from one vertex. Rounds of relaxing every arc, until one changes nothing; n − 1 are enough.
pub(crate) fn row(good: &GoodPlan, source: usize) -> [u32; 64]
    requires { source < 64 }
    ensures { IsRow (weighted (good_plan good.now)) source result }
{
    let mut now = [NO_PATH; 64];
    now[source] = 0;
    for _ in 1..good.plan.n {
        let next = round(good, now);
        if next == now {
            return now;
        }
        now = next;
    }
    now
}

// The least weights between all vertices.
pub fn table(good: &GoodPlan) -> [[u32; 64]; 64]
    ensures { AreWeights (good_plan good.now) result }
{
    let c = settled(good);
    std::array::from_fn(
        |i|
            requires { i < 64 }
            ensures { result ≡ row_from_table c i }
        { row_from(&c, i) },
    )
}
