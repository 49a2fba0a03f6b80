// A plan as a good file holds it, on which all that is worked out of a plan rests.
ghost use Rattle.std.specs.Prelude.{◌≡◌, length};
ghost use Rattle.postman.specs.Plan.{WellFormed};
ghost use Rattle.plan.specs.Records.{plan_value};

use crate::Plan;

// The ends of its arcs are below n, and standings and costs are within their limits.
#[derive(Clone, Copy)]
pub struct GoodPlan {
    pub plan: Plan,
    pub ghost long: { length plan.arcs ≡ 256 },
    pub ghost well_formed: { WellFormed (plan_value plan) },
}
