// Sums over the required arcs: what they cost, and their imbalance at each vertex.
// Steps for other crates, which ask something of their caller.
ghost use Rattle.std.specs.Prelude.{◌≡◌, cond, map, ℕ, ◌<◌, ◌≤◌, get_or};
ghost use Rattle.postman.specs.Lists.{occurrences};
ghost use Rattle.postman.specs.Plan.{Arc as PlanArc, is_required_arc, required_arcs};
ghost use Rattle.postman.specs.Required.{required_cost};
ghost use Rattle.plan.specs.declared.Arc.{Arc as ArcRecord};
ghost use Rattle.plan.specs.GoodPlan.{good_plan};
ghost use Rattle.plan.specs.Records.{arc_value};
ghost use Rattle.required.specs.StepContracts.{IsImbalance};

use integers::difference;
use plan::Arc;
use plan::good_plan::GoodPlan;

// What a required arc costs on the pass that checks it; other arcs count nothing.
fn charge(a: Arc) -> u64
    ensures { result ≡ cond (is_required_arc (arc_value a)) a.service 0 }
{
    if plan::is_required(a) {
        u64::from(a.service)
    } else {
        0
    }
}

// "R is the sum of checking costs."
pub fn required_cost(good: &GoodPlan) -> u64
    ensures { result ≡ required_cost (good_plan good.now) }
{
    let mut sum = 0;
    for a in &good.plan.arcs[..usize::from(good.plan.m)] {
        sum += charge(*a);
    }
    sum
}

// How many required arcs have that end at each vertex: the in-degrees where it is the head, the out-degrees where it is the tail.
fn degrees<F: Fn(Arc) -> u8>(good: &GoodPlan, end: F) -> [u64; 64]
    ghost f: { PlanArc → ℕ }
    requires callable { F.IsAlwaysCallable end }
    requires ends { (a : ArcRecord) (e : ℕ) → F.post end a e → e ≡ f (arc_value a) }
    requires vertices { (a : PlanArc) → a.tail < 64 → a.head < 64 → f a < 64 }
    ensures { (v : ℕ) → v < 64 → (get_or result v 0 ≡ occurrences v (map f (required_arcs (good_plan good.now))))
        × (get_or result v 0 ≤ 256) }
{
    let mut counts = [0; 64];
    for a in &good.plan.arcs[..usize::from(good.plan.m)] {
        counts[usize::from(end(*a))] += u64::from(plan::is_required(*a));
    }
    counts
}

// "D(i) = must arcs into i minus must arcs out of i, signed."
pub fn imbalance(good: &GoodPlan) -> [i64; 64]
    ensures { IsImbalance (good_plan good.now) result }
{
    let into = degrees(good, |a| a.head);
    let out = degrees(good, |a| a.tail);
    std::array::from_fn(|v| difference(into[v], out[v]))
}
