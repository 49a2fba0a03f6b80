// The plan call at a departure: the refusals in their order, then the answer of the plan with the shut arcs closed.
ghost use Rattle.std.specs.Prelude.{◌≡◌, ◌++◌, ◌≤◌, length};
ghost use Rattle.postman.specs.Refusal.{first_refusal};
ghost use Rattle.postman.specs.PlanCall.{sheet_places, call_conditions, last_conditions};
ghost use Rattle.postman.specs.Windows.{windows_in, plan_at, window_conditions};
ghost use Rattle.plan.specs.GoodPlan.{good_plan};
ghost use Rattle.plan.specs.Records.{plan_value};
ghost use Rattle.refusal.specs.Verdict.{verdict_number};
ghost use Rattle.solution.specs.Planned.{IsPlanned};
ghost use Rattle.shut_arcs.specs.Fields.{departure};
ghost use Rattle.windows.specs.Contract.{IsPlanCallAt};

use call_steps::steps::{lent_verdict, plan_read};
use plan::Plan;
use plan::good_plan::GoodPlan;
use plan_file::reader::read_plan;
use refusal::{Refusal, Verdict};
use shut_arcs::limits::has_bad_window;
use shut_arcs::shut::{must_shut, plan_at};
use solution::Planned;

// 19, then 20: the list's length is tested first, then every window, and only good ones are used.
fn windows_verdict(plan: Plan, windows: &[u16], weekday: u32, minute: u32) -> Verdict
    requires { plan.m ≤ 256 }
    ensures { verdict_number result ≡ first_refusal (window_conditions (plan_value plan) windows.now (departure weekday minute)) }
{
    if has_bad_window(plan.m as usize, windows, weekday, minute) {
        return Err(Refusal::BadWindow);
    }
    if must_shut(plan, windows, weekday, minute) {
        return Err(Refusal::MustShut);
    }
    Ok(())
}

// From 19 on: from 10 on the plan is that of the departure.
fn plan_departing(
    good: &GoodPlan,
    budget: u32,
    windows: &[u16],
    weekday: u32,
    minute: u32,
    sheet: &mut [u16],
) -> Result<Planned, Refusal>
    requires { (1 ≤ budget) × (sheet_places ≤ length sheet.old) }
    ensures { IsPlanned (plan_at (good_plan good.now) (windows_in windows.now) (departure weekday minute)) budget
        (first_refusal (window_conditions (good_plan good.now) windows.now (departure weekday minute)
        ++ last_conditions (plan_at (good_plan good.now) (windows_in windows.now) (departure weekday minute))))
        sheet.old sheet.new result }
{
    windows_verdict(good.plan, windows, weekday, minute)?;
    plan_read(
        &GoodPlan {
            plan: plan_at(good.plan, windows, weekday, minute),
        },
        budget,
        sheet,
    )
}

// From 8 on.
fn plan_lent(
    good: &GoodPlan,
    budget: u64,
    windows: &[u16],
    weekday: u32,
    minute: u32,
    sheet: &mut [u16],
) -> Result<Planned, Refusal>
    ensures { IsPlanned (plan_at (good_plan good.now) (windows_in windows.now) (departure weekday minute)) budget
        (first_refusal (call_conditions budget (length sheet.old)
        ++ (window_conditions (good_plan good.now) windows.now (departure weekday minute)
        ++ last_conditions (plan_at (good_plan good.now) (windows_in windows.now) (departure weekday minute)))))
        sheet.old sheet.new result }
{
    lent_verdict(budget, sheet.len())?;
    plan_departing(good, budget as u32, windows, weekday, minute, sheet)
}

// THE PLAN CALL AT A DEPARTURE, for any bytes, any budget, any list of numbers for the windows, any departure and any sheet.
pub fn plan_call_at(
    bytes: &[u8],
    budget: u64,
    windows: &[u16],
    weekday: u32,
    minute: u32,
    sheet: &mut [u16],
) -> Result<Planned, Refusal>
    ensures { IsPlanCallAt bytes.now budget windows.now (departure weekday minute) sheet.old
        sheet.new result }
{
    plan_lent(
        &GoodPlan {
            plan: read_plan(bytes)?.plan,
        },
        budget,
        windows,
        weekday,
        minute,
        sheet,
    )
}
