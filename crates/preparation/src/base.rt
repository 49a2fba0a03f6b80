// What the trees are tried from: the state of the required arcs.
ghost use Rattle.std.specs.Prelude.{◌≡◌, []};
ghost use Rattle.plan.specs.GoodPlan.{good_plan};
ghost use Rattle.balance.specs.Records.{state_of};
ghost use Rattle.postman.specs.Steps.{cell};
ghost use Rattle.balance.specs.Balance.{balance as balanceOf};
ghost use Rattle.multipliers.specs.Drive.{table_of};
ghost use Rattle.balance.specs.Multipliers.{multipliers};
ghost use Rattle.postman.specs.PlanCall.{root};
ghost use Rattle.multipliers.specs.Prepared.{IsKnown, IsBase};

use balance::state::Balance;
use plan::good_plan::GoodPlan;

// The balancing of the required arcs, added one by one in file order.
pub(crate) fn base_state(good: &GoodPlan, table: &[[u32; 64]; 64], vs: &[u8]) -> Balance
    requires { IsKnown (good_plan good.now) table.now vs.now }
    ensures { state_of result ≡ balanceOf (cell (table_of (good_plan good.now))) (good_plan good.now) [] }
{
    let arcs = drive_legs::legs::gather(good);
    balance::state::add_all(
        balance::state::empty(),
        table,
        vs,
        arcs.tails(),
        arcs.heads(),
    )
}

// The greatest multipliers that are 0 at the lowest required vertex.
pub(crate) fn multipliers_of(
    good: &GoodPlan,
    table: &[[u32; 64]; 64],
    vs: &[u8],
    base: Balance,
) -> [i64; 64]
    requires { IsBase (good_plan good.now) table.now vs.now (state_of base) }
    ensures { result ≡ multipliers (cell table.now) vs.now (state_of base) (root (good_plan good.now)) }
{
    balance::multipliers::multipliers(base, table, vs, vs[0])
}
