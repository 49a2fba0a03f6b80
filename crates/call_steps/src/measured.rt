// A plan of a good file with the table of its distances.
ghost use Rattle.std.specs.Prelude.{◌≡◌};
ghost use Rattle.plan.specs.GoodPlan.{good_plan};
ghost use Rattle.multipliers.specs.Drive.{table_of};

use plan::good_plan::GoodPlan;

// Both are lent, and computed once.
#[derive(Clone, Copy)]
pub struct Measured<'a> {
    pub good: &'a GoodPlan,
    pub table: &'a [[u32; 64]; 64],
    pub ghost has_table: { table.now ≡ table_of (good_plan good.now) },
}
