// What calls share: 8 and 9, then 10 to 12 and the answer of a plan that was read.
// Steps for other crates, which ask something of their caller.
ghost use Rattle.network.specs.Network.{IsNetwork};
ghost use Rattle.call_steps.specs.Tabled.{tabled_plan};
ghost use Rattle.std.specs.Prelude.{◌≡◌, ◌≤◌, Ok, length};
ghost use Rattle.std.proofs.Math.Option.{none};
ghost use Rattle.postman.specs.Refusal.{first_refusal};
ghost use Rattle.postman.specs.PlanCall.{sheet_places, call_conditions};
ghost use Rattle.plan.specs.GoodPlan.{good_plan};
ghost use Rattle.refusal.specs.Verdict.{verdict_number};
ghost use Rattle.solution.specs.Planned.{IsPlanned};
ghost use Rattle.call_steps.specs.Refusals.{network_refusal, plan_refusal};

use crate::tabled::Tabled;
use budget::Budget;
use network::network::Network;
use plan::good_plan::GoodPlan;
use preparation::prepare::prepare;
use preparation::prepared::Prepared;
use refusal::{Refusal, Verdict};
use solution::Planned;
use solution::solve::solve;

// 10, 11 and 12, by what the network holds.
pub fn network_verdict(components: u8, cut_off: bool) -> Verdict
    ensures { verdict_number result ≡ network_refusal components cut_off }
{
    if components == 0 {
        return Err(Refusal::Idle);
    }
    if 8 < components {
        return Err(Refusal::Scattered);
    }
    if cut_off {
        return Err(Refusal::CutOff);
    }
    Ok(())
}

// The answer of a plan that is not refused, once it is prepared.
fn answer(t: &Tabled<'_>, net: Network, budget: u32, sheet: &mut [u16]) -> Planned
    requires measured { IsNetwork (tabled_plan t.now) net × (network_refusal net.components net.cut_off ≡ none) }
    requires budget_and_sheet { (1 ≤ budget) × (sheet_places ≤ length sheet.old) }
    ensures { IsPlanned (tabled_plan t.now) budget none sheet.old sheet.new (Ok result) }
{
    let parts = prepare(t.good, t.table, net);
    let p = Prepared {
        good: t.good,
        table: t.table,
        parts: &parts,
    };
    solve(&p, t.weights, budget, sheet)
}

// 10, 11 and 12, then the answer.
fn plan_measured(
    t: &Tabled<'_>,
    net: Network,
    budget: u32,
    sheet: &mut [u16],
) -> Result<Planned, Refusal>
    requires { IsNetwork (tabled_plan t.now) net × (1 ≤ budget) × (sheet_places ≤ length sheet.old) }
    ensures { IsPlanned (tabled_plan t.now) budget (network_refusal net.components net.cut_off) sheet.old
        sheet.new result }
{
    network_verdict(net.components, net.cut_off)?;
    Ok(answer(t, net, budget, sheet))
}

// The network of a plan that is well formed, from the tables of its distances and weights, which are
// lent: what several plans share is computed once.
pub fn plan_tabled(t: &Tabled<'_>, budget: u32, sheet: &mut [u16]) -> Result<Planned, Refusal>
    requires budget_and_sheet { (1 ≤ budget) × (sheet_places ≤ length sheet.old) }
    ensures { IsPlanned (tabled_plan t.now) budget (plan_refusal (tabled_plan t.now)) sheet.old sheet.new result }
{
    let net = network::network::network_of(t.good, t.table);
    plan_measured(t, net, budget, sheet)
}

// The weights and the distances of a plan that is well formed: the file's, or one that is made from it.
pub fn plan_read(good: &GoodPlan, budget: u32, sheet: &mut [u16]) -> Result<Planned, Refusal>
    requires { (1 ≤ budget) × (sheet_places ≤ length sheet.old) }
    ensures { IsPlanned (good_plan good.now) budget (plan_refusal (good_plan good.now)) sheet.old sheet.new result }
{
    let weights = shortest::weights::table(good);
    let table = shortest::distance::table_of(&weights);
    plan_tabled(
        &Tabled {
            good,
            table: &table,
            weights: &weights,
        },
        budget,
        sheet,
    )
}

// 8, then 9, for a call whose own conditions stand between 9 and 10.
pub fn lent_verdict(budget: u64, places: usize) -> Verdict
    ensures { verdict_number result ≡ first_refusal (call_conditions budget places) }
{
    if places < 17_266 {
        return Err(Refusal::ShortSheet);
    }
    Budget::new(budget)?;
    Ok(())
}
