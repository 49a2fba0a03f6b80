// Least weights from all vertices at once: in place 64 v + i stands what is known of the weight from i to v, so that an
// arc is relaxed for all sources side by side.
ghost use Rattle.std.specs.Prelude.{◌≡◌, ℕ, ◌<◌, length};
ghost use Rattle.plan.specs.GoodPlan.{good_plan};
ghost use Rattle.shortest.specs.Weight.{weighted};
ghost use Rattle.shortest.specs.Relaxation.{relax_arcs, start_row};
ghost use Rattle.shortest.specs.Columns.{row_from, are_same, relax_by};
ghost use Rattle.shortest.specs.StepContracts.{IsRow};

use crate::weights::{NO_PATH, arc_weight, shorter};
use plan::good_plan::GoodPlan;

// An arc of weight w from t to h relaxed, for every source.
fn relax_all(c: &mut [u32; 4096], t: usize, h: usize, w: u32)
    requires { (t < 64) × (h < 64) × (length c.old ≡ 4096) }
    ensures { (length c.new ≡ 4096) × ((i : ℕ) → i < 64 → row_from c.new i ≡ relax_by t h w (row_from c.old i)) }
{
    for i in 0..64usize {
        c[h * 64 + i] = shorter(c[t * 64 + i], w, c[h * 64 + i]);
    }
}

// Each arc of the plan relaxed once, for every source.
fn round_all(good: &GoodPlan, c: &mut [u32; 4096])
    requires { length c.old ≡ 4096 }
    ensures { (length c.new ≡ 4096)
        × ((i : ℕ) → i < 64 → row_from c.new i ≡ relax_arcs (weighted (good_plan good.now)).arcs (row_from c.old i)) }
{
    for a in &good.plan.arcs[..usize::from(good.plan.m)] {
        relax_all(c, usize::from(a.tail), usize::from(a.head), arc_weight(*a));
    }
}

// The paths of no arc.
fn start() -> [u32; 4096]
    ensures { (length result ≡ 4096) × ((i : ℕ) → i < 64 → row_from result i ≡ start_row i) }
{
    let mut c = [NO_PATH; 4096];
    for i in 0..64usize {
        c[i * 64 + i] = 0;
    }
    c
}

// Whether two arrays are the same.
fn same_all(a: &[u32; 4096], b: &[u32; 4096]) -> bool
    ensures { result ≡ are_same a.now b.now }
{
    a == b
}

// The least weights. Rounds of relaxing every arc, until one changes nothing; n − 1 are enough.
pub(crate) fn settled(good: &GoodPlan) -> [u32; 4096]
    ensures { (i : ℕ) → i < 64 → IsRow (weighted (good_plan good.now)) i (row_from result i) }
{
    let mut c = start();
    for _ in 1..good.plan.n {
        let before = c;
        round_all(good, &mut c);
        if same_all(&c, &before) {
            return before;
        }
    }
    c
}

// The weights from i.
pub(crate) fn row_from(c: &[u32; 4096], i: usize) -> [u32; 64]
    requires { i < 64 }
    ensures { result ≡ row_from c.now i }
{
    std::array::from_fn(|v| c[v * 64 + i])
}
