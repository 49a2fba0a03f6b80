// The plan call: the refusals in document 01's order, and the answer.
ghost use Rattle.std.specs.Prelude.{◌++◌, length};
ghost use Rattle.postman.specs.Refusal.{first_refusal};
ghost use Rattle.postman.specs.PlanCall.{default_budget, call_conditions, last_conditions};
ghost use Rattle.plan.specs.GoodPlan.{good_plan};
ghost use Rattle.solution.specs.Planned.{IsPlanned};
ghost use Rattle.planner.specs.Contract.{IsPlanCall};

use budget::Budget;
use call_steps::steps::{lent_verdict, plan_read};
use plan::good_plan::GoodPlan;
use plan_file::reader::read_plan;
use refusal::Refusal;
use solution::Planned;

// From 8 on: a call with no conditions of its own.
fn plan_lent(good: &GoodPlan, budget: u64, sheet: &mut [u16]) -> Result<Planned, Refusal>
    ensures { IsPlanned (good_plan good.now) budget
        (first_refusal (call_conditions budget (length sheet.old) ++ last_conditions (good_plan good.now)))
        sheet.old sheet.new result }
{
    lent_verdict(budget, sheet.len())?;
    plan_read(good, budget as u32, sheet)
}

// THE PLAN CALL, for any bytes, any budget and any sheet.
pub fn plan_call(bytes: &[u8], budget: u64, sheet: &mut [u16]) -> Result<Planned, Refusal>
    ensures { IsPlanCall bytes.now budget sheet.old sheet.new result }
{
    plan_lent(
        &GoodPlan {
            plan: read_plan(bytes)?.plan,
        },
        budget,
        sheet,
    )
}

// THE SHORT CALL: "leaves B out" and uses the budget type's default.
pub fn short_call(bytes: &[u8], sheet: &mut [u16]) -> Result<Planned, Refusal>
    ensures { IsPlanCall bytes.now default_budget sheet.old sheet.new result }
{
    plan_call(bytes, u64::from(Budget::standard().trees), sheet)
}
