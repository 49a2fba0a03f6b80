// Distances of a plan: a 64th of the least weights, rounded down.
// Steps for other crates, which ask something of their caller.
ghost use Rattle.std.specs.Prelude.{◌≡◌, ◌<◌, [], get_or};
ghost use Rattle.plan.specs.GoodPlan.{good_plan};
ghost use Rattle.shortest.specs.Weight.{unweighted};
ghost use Rattle.shortest.specs.StepContracts.{IsRow, IsTable, AreCosts, AreTableCosts};

use crate::weights;
use crate::weights::NO_PATH;
use plan::good_plan::GoodPlan;

// The cost of a lightest path, by its weight.
#[tactic(auto, unfolding(crate::specs::Weight::unweighted, postman::specs::Distance::no_path))]
fn cost_of(weight: u32) -> u32
    ensures { result ≡ unweighted weight }
{
    if weight < NO_PATH {
        weight / 64
    } else {
        NO_PATH
    }
}

// The costs by a row of weights.
fn row_of(weights: &[u32; 64]) -> [u32; 64]
    ensures { AreCosts weights.now result }
{
    std::array::from_fn(|j| cost_of(weights[j]))
}

// The distances from one vertex.
pub fn row(good: &GoodPlan, source: usize) -> [u32; 64]
    requires { source < 64 }
    ensures { IsRow (good_plan good.now) source result }
{
    row_of(&weights::row(good, source))
}

// "The table is 64 rows of 64", by the table of weights.
pub fn table_of(weights: &[[u32; 64]; 64]) -> [[u32; 64]; 64]
    ensures { AreTableCosts weights.now result }
{
    std::array::from_fn(
        |i|
            requires { i < 64 }
            ensures { AreCosts (get_or weights.entry.now i []) result }
        { row_of(&weights[i]) },
    )
}

// The same, of a plan.
pub fn table(good: &GoodPlan) -> [[u32; 64]; 64]
    ensures { IsTable (good_plan good.now) result }
{
    table_of(&weights::table(good))
}
