// A plan that is not refused, prepared: what its trees are tried by, its drives laid and its floor computed.
ghost use Rattle.std.specs.Prelude.{◌≡◌, length};
ghost use Rattle.plan.specs.GoodPlan.{good_plan};
ghost use Rattle.preparation.specs.Preparation.{IsPreparation};

use crate::prepare::Preparation;
use plan::good_plan::GoodPlan;

// The plan, the table of its distances, and its preparation.
#[derive(Clone, Copy)]
pub struct Prepared<'a> {
    pub good: &'a GoodPlan,
    pub table: &'a [[u32; 64]; 64],
    pub parts: &'a Preparation,
    pub ghost long: { length parts.now.network.required ≡ 64 },
    pub ghost prepared: { IsPreparation (good_plan good.now) table.now parts.now },
}
