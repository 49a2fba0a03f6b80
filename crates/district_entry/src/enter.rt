// An entry: the plan call's refusals but 8, then 22, then the lowest free place.
ghost use Rattle.std.specs.Prelude.{◌≡◌, ◌<◌};
ghost use Rattle.std.proofs.Math.Option.{none};
ghost use Rattle.plan.specs.GoodPlan.{good_plan};
ghost use Rattle.refusal.specs.Verdict.{verdict_number};
ghost use Rattle.call_steps.specs.Refusals.{plan_refusal, budget_refusal};
ghost use Rattle.district_entry.specs.Entered.{call_part, IsEntered};

use budget::Budget;
use call_steps::steps::network_verdict;
use district_machine::machine::{District, Machine};
use district_machine::places::{lined_up, lowest_free};
use held_file::file::hold;
use plan::good_plan::GoodPlan;
use refusal::{Refusal, Verdict};
use tree_search::trees::nothing_held;

// The place, or why there is none.
pub type Admission = Result<u8, Refusal>;

#[derive(Clone, Copy)]
pub struct Entered {
    pub answer: Admission,
    pub machine: Machine,
}

// 10, 11 and 12.
fn parts_verdict(good: &GoodPlan) -> Verdict
    ensures { verdict_number result ≡ plan_refusal (good_plan good.now) }
{
    let weights = shortest::weights::table(good);
    let table = shortest::distance::table_of(&weights);
    let net = network::network::network_of(good, &table);
    network_verdict(net.components, net.cut_off)
}

// 9, then the rest.
fn budget_verdict(good: &GoodPlan, budget: u64) -> Verdict
    ensures { verdict_number result ≡ budget_refusal (good_plan good.now) budget }
{
    Budget::new(budget)?;
    parts_verdict(good)
}

// The plan call's refusals but 8.
fn call_verdict(bytes: &[u8], budget: u64) -> Verdict
    ensures { verdict_number result ≡ call_part bytes.now budget }
{
    let reading = plan_file::reader::read_plan(bytes)?;
    budget_verdict(&GoodPlan { plan: reading.plan }, budget)
}

// A plan and a budget that are not refused: 22, or the district at the back of the line.
fn admit(m: Machine, bytes: &[u8], budget: u32) -> Entered
    requires { call_part bytes.now budget ≡ none }
    ensures { IsEntered m bytes.now budget result }
{
    let n = m.waiting;
    if 8 <= n {
        return Entered {
            answer: Err(Refusal::Full),
            machine: m,
        };
    }
    let place = lowest_free(m.line, n);
    let mut line = lined_up(m.line, 0, n);
    let d = District {
        place,
        plan: hold(bytes),
        budget,
        held: nothing_held(),
    };
    line[n] = d;
    Entered {
        answer: Ok(place),
        machine: Machine {
            line,
            waiting: n + 1,
        },
    }
}

// AN ENTRY, of any bytes and any budget into any machine.
pub fn enter(m: Machine, bytes: &[u8], budget: u64) -> Entered
    ensures { IsEntered m bytes.now budget result }
{
    match call_verdict(bytes, budget) {
        Err(r) => Entered {
            answer: Err(r),
            machine: m,
        },
        Ok(()) => admit(m, bytes, budget as u32),
    }
}
