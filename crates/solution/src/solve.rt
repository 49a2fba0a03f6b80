// The answer of a plan that is not refused.
// Steps for other crates, which ask something of their caller.
ghost use Rattle.std.specs.Prelude.{◌≡◌, ◌≤◌, Ok, length};
ghost use Rattle.std.proofs.Math.Option.{none};
ghost use Rattle.postman.specs.PlanCall.{sheet_places};
ghost use Rattle.shortest.specs.StepContracts.{AreWeights};
ghost use Rattle.preparation.specs.Prepared.{prepared_plan};
ghost use Rattle.tree_search.specs.Resumed.{HoldsTree};
ghost use Rattle.solution.specs.Planned.{IsPlanned};
ghost use Rattle.solution.specs.Concluded.{floor_with, IsConcluded};

use crate::Planned;
use crate::lay::lay_held;
use lagrangian::bound::floor_of;
use preparation::prepared::Prepared;
use tree_search::improve::Searched;
use tree_search::trees::best;

// The floor of so many trees, from L(u), which the ascent has computed.
pub fn floor_found(p: &Prepared<'_>, whole: bool, cost: u64) -> i64
    requires { cost ≤ 4398046511104 }
    ensures { result ≡ floor_with (prepared_plan p.now) whole cost }
{
    let net = p.parts.network;
    floor_of(
        p.table,
        &net.component,
        &net.required,
        net.components as usize,
        net.required_cost,
        &net.imbalance,
        p.parts.bound,
        whole,
        cost,
    )
}

// The drive of the tree that is held is written, and the floor is computed.
pub fn conclude(
    p: &Prepared<'_>,
    weights: &[[u32; 64]; 64],
    s: Searched,
    sheet: &mut [u16],
) -> Planned
    requires { HoldsTree (prepared_plan p.now) s.tails s.heads
        × (s.cost ≤ 4398046511104) × (sheet_places ≤ length sheet.old) × AreWeights (prepared_plan p.now) weights.now }
    ensures { IsConcluded (prepared_plan p.now) s sheet.old sheet.new result }
{
    let multipliers = p.parts.multipliers;
    let places = lay_held(p, weights, s.tails, s.heads, sheet);
    let floor = floor_found(p, s.whole, s.cost);
    Planned {
        places,
        cost: s.cost,
        floor,
        trees: s.tried,
        whole: s.whole,
        parts: p.parts.network.components,
        multipliers,
    }
}

// The trees are tried, and the best is what is answered.
pub fn solve(p: &Prepared<'_>, weights: &[[u32; 64]; 64], budget: u32, sheet: &mut [u16]) -> Planned
    requires { (1 ≤ budget) × (sheet_places ≤ length sheet.old)
        × AreWeights (prepared_plan p.now) weights.now }
    ensures { IsPlanned (prepared_plan p.now) budget none sheet.old sheet.new (Ok result) }
{
    let s = best(p, budget);
    conclude(p, weights, s, sheet)
}
