// A plan of a good file with the tables of its distances and of its weights, by which paths are written.
ghost use Rattle.std.specs.Prelude.{◌≡◌};
ghost use Rattle.plan.specs.GoodPlan.{good_plan};
ghost use Rattle.shortest.specs.StepContracts.{AreWeights};
ghost use Rattle.multipliers.specs.Drive.{table_of};

use plan::good_plan::GoodPlan;

// All are lent, and computed once.
#[derive(Clone, Copy)]
pub struct Tabled<'a> {
    pub good: &'a GoodPlan,
    pub table: &'a [[u32; 64]; 64],
    pub weights: &'a [[u32; 64]; 64],
    pub ghost has_table: { table.now ≡ table_of (good_plan good.now) },
    pub ghost weighed: { AreWeights (good_plan good.now) weights.now },
}
