// The vertices at the ends of required arcs.
// Steps for other crates, which ask something of their caller.
ghost use Rattle.std.specs.Prelude.{◌≡◌, ◌&&◌, ◌||◌, eqb};
ghost use Rattle.postman.specs.Plan.{is_required_arc};
ghost use Rattle.postman.specs.Required.{is_required};
ghost use Rattle.plan.specs.GoodPlan.{good_plan};
ghost use Rattle.plan.specs.Records.{arc_value};
ghost use Rattle.required.specs.StepContracts.{IsRequiredFlags};

use plan::Arc;
use plan::good_plan::GoodPlan;

// Whether v is an end of the arc, and the arc required.
fn touches(a: Arc, v: usize) -> bool
    ensures { result ≡ (is_required_arc (arc_value a) && (eqb a.tail v || eqb a.head v)) }
{
    plan::is_required(a) && (usize::from(a.tail) == v || usize::from(a.head) == v)
}

// "Required vertices: tails and heads of must arcs."
fn is_required(good: &GoodPlan, v: usize) -> bool
    ensures { result ≡ is_required (good_plan good.now) v }
{
    good.plan.arcs[..usize::from(good.plan.m)]
        .iter()
        .any(|a| touches(*a, v))
}

pub fn required(good: &GoodPlan) -> [bool; 64]
    ensures { IsRequiredFlags (good_plan good.now) result }
{
    std::array::from_fn(|v| is_required(good, v))
}
