// One step of the ascent.
// Steps for other crates, which ask something of their caller.
ghost use Rattle.std.specs.Prelude.{◌≡◌, ◌&&◌, ◌<◌, ◌≤◌};
ghost use Rattle.std.specs.Int.Signed.{le_z};
ghost use Rattle.residual_search.specs.Search.{beyond};
ghost use Rattle.multiplier_steps.specs.Steps.{AreSmall};
ghost use Rattle.ascent.specs.Step.{are_unmoved, step as step_from};
ghost use Rattle.ascent.specs.Records.{step_of};

use crate::relax::Pairs;
use arborescence::reach::single;
use ascent_tree::offers::offers;
use ascent_tree::tree::{follow, grow};
use multiplier_steps::steps::carry_on;
use residual_search::vertex_list::VertexList;

// The multipliers after a step, the cost of the tree at those before it, and whether that tree is balanced.
#[derive(Clone, Copy)]
pub struct Stepped {
    pub multipliers: [i64; 64],
    pub value: i64,
    pub balanced: bool,
}

// Whether two multipliers are the same.
fn alike(x: i64, y: i64) -> bool
    ensures { result ≡ (le_z x y && le_z y x) }
{
    x == y
}

// Whether two lists of multipliers are the same.
fn same(vs: VertexList, x: &[i64; 64], y: &[i64; 64]) -> bool
    ensures { result ≡ are_unmoved vs.entry.vertices.now x.now y.now }
{
    vs.vertices
        .iter()
        .all(|&v| alike(x[usize::from(v)], y[usize::from(v)]))
}

// One step of length s, brought back from above, or from below where `up`.
pub fn step<'a>(
    d: &'a [[u32; 64]; 64],
    f: &'a [u16; 4096],
    vs: VertexList<'a>,
    component: &[u8; 64],
    k: usize,
    up: bool,
    s: u64,
    x: &[i64; 64],
    before: &[i64; 64],
) -> Stepped
    requires { (1 ≤ k) × (k ≤ 8) × (s ≤ beyond) × AreSmall beyond x.now × AreSmall beyond before.now }
    ensures { step_of result ≡ step_from d.now f.now vs.entry.vertices.now component.now k up s x.now
        before.now }
{
    let o = offers(d, x, component, vs);
    let n = single(k - 1) as usize;
    let t = grow(&o.costs, n);
    let y = follow(&t.from, &o.pairs, s, x, n - 1);
    let balanced = same(vs, &y, x);
    let z = carry_on(y, x, before, vs);
    let pairs = Pairs { d, f, vs, up };
    Stepped {
        multipliers: pairs.settle(z),
        value: t.cost[n - 1],
        balanced,
    }
}
