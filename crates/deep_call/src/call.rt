// The deep call: the refusals in their order, then the rounds, and the best drive of them.
ghost use Rattle.call_steps.specs.Tabled.{tabled_plan};
ghost use Rattle.std.specs.Prelude.{◌≡◌, ◌++◌, ◌-◌, ◌≤◌, Ok, length};
ghost use Rattle.std.proofs.Math.Option.{none};
ghost use Rattle.postman.specs.Refusal.{first_refusal};
ghost use Rattle.postman.specs.PlanFile.{is_outside};
ghost use Rattle.postman.specs.PlanCall.{sheet_places, call_conditions, last_conditions};
ghost use Rattle.plan.specs.GoodPlan.{good_plan};
ghost use Rattle.call_steps.specs.Refusals.{plan_refusal};
ghost use Rattle.round_rule.specs.Rounds.{kept_after};
ghost use Rattle.rounds.specs.Held.{IsHeld};
ghost use Rattle.deep_call.specs.Refusals.{highest_rounds, round_conditions};
ghost use Rattle.deep_call.specs.Contract.{IsDeep, IsDeepCall};

use call_steps::measured::Measured;
use call_steps::steps::lent_verdict;
use call_steps::tabled::Tabled;
use held_tree::verdict::plan_verdict;
use plan::good_plan::GoodPlan;
use plan_file::reader::read_plan;
use refusal::Refusal;
use round_rule::kept::have_met;
use rounds::round::{Deep, deepen, first_round};
use rounds::under::lay_under;
use solution::Planned;

// The drive of the tree that is held is laid, under the numbering that it was found under.
fn lay_best(t: &Tabled<'_>, budget: u32, rounds: u32, d: Deep, sheet: &mut [u16]) -> Planned
    requires tabled { (plan_refusal (tabled_plan t.now) ≡ none)
        × (d.kept ≡ kept_after (tabled_plan t.now) budget (rounds - 1)) × IsHeld (tabled_plan t.now) d × (sheet_places ≤ length sheet.old) }
    requires within_limits { (1 ≤ budget) × (budget ≤ 1000000) × (rounds ≤ 1000) }
    ensures { IsDeep (tabled_plan t.now) budget rounds none sheet.old sheet.new (Ok result) }
{
    let k = d.kept;
    let a = lay_under(t, k.drive, d.drive, sheet);
    let multipliers = k.multipliers;
    Planned {
        places: a.places,
        cost: k.cost,
        floor: k.floor,
        trees: k.trees,
        whole: have_met(k.cost, k.floor),
        parts: a.parts,
        multipliers,
    }
}

// The rounds of a plan that is not refused.
fn plan_deep(
    t: &Tabled<'_>,
    budget: u32,
    rounds: u32,
    sheet: &mut [u16],
) -> Result<Planned, Refusal>
    requires room { sheet_places ≤ length sheet.old }
    requires within_limits { (1 ≤ budget) × (budget ≤ 1000000) × (1 ≤ rounds) × (rounds ≤ 1000) }
    ensures { IsDeep (tabled_plan t.now) budget rounds (plan_refusal (tabled_plan t.now)) sheet.old sheet.new result }
{
    let m = Measured {
        good: t.good,
        table: t.table,
    };
    plan_verdict(&m)?;
    let first = first_round(&m, budget);
    let d = deepen(&m, budget, rounds, first);
    Ok(lay_best(t, budget, rounds, d, sheet))
}

// 23 rounds: "0 or above 1,000".
#[tactic(auto, unfolding(postman::specs::PlanFile::is_outside, crate::specs::Refusals::highest_rounds))]
fn bad_rounds(rounds: u32) -> bool
    ensures { result ≡ is_outside rounds 1 highest_rounds }
{
    rounds < 1 || 1_000 < rounds
}

// From 23 on.
fn deep_within(
    good: &GoodPlan,
    budget: u32,
    rounds: u32,
    sheet: &mut [u16],
) -> Result<Planned, Refusal>
    requires { (1 ≤ budget) × (budget ≤ 1000000) × (sheet_places ≤ length sheet.old) }
    ensures { IsDeep (good_plan good.now) budget rounds (first_refusal (round_conditions rounds ++ last_conditions (good_plan good.now)))
        sheet.old sheet.new result }
{
    if bad_rounds(rounds) {
        return Err(Refusal::Rounds);
    }
    let weights = shortest::weights::table(good);
    let table = shortest::distance::table_of(&weights);
    plan_deep(
        &Tabled {
            good,
            table: &table,
            weights: &weights,
        },
        budget,
        rounds,
        sheet,
    )
}

// From 8 on.
fn deep_lent(
    good: &GoodPlan,
    budget: u64,
    rounds: u32,
    sheet: &mut [u16],
) -> Result<Planned, Refusal>
    ensures { IsDeep (good_plan good.now) budget rounds
        (first_refusal (call_conditions budget (length sheet.old) ++ (round_conditions rounds ++ last_conditions (good_plan good.now))))
        sheet.old sheet.new result }
{
    lent_verdict(budget, sheet.len())?;
    deep_within(good, budget as u32, rounds, sheet)
}

// THE DEEP CALL, for any bytes, any budget, any number of rounds and any sheet.
pub fn deep_call(
    bytes: &[u8],
    budget: u64,
    rounds: u32,
    sheet: &mut [u16],
) -> Result<Planned, Refusal>
    ensures { IsDeepCall bytes.now budget rounds sheet.old sheet.new result }
{
    deep_lent(
        &GoodPlan {
            plan: read_plan(bytes)?.plan,
        },
        budget,
        rounds,
        sheet,
    )
}
