// The call for two cars: the file's refusals reach both; the table of distances is built once, from the file's plan, and lent to both.
ghost use Rattle.call_steps.specs.Tabled.{tabled_plan};
ghost use Rattle.std.specs.Prelude.{◌≡◌, ◌++◌, ◌≤◌, length};
ghost use Rattle.postman.specs.Refusal.{first_refusal};
ghost use Rattle.postman.specs.PlanCall.{sheet_places, call_conditions, last_conditions};
ghost use Rattle.postman.specs.Marks.{car_plan, mark_conditions};
ghost use Rattle.solution.specs.Planned.{IsPlanned};
ghost use Rattle.two_cars.specs.Contract.{IsTwoCars};

use crate::TwoPlanned;
use call_steps::steps::{lent_verdict, plan_tabled};
use call_steps::tabled::Tabled;
use car_marks::marks::{car_plan, has_bad_mark};
use plan::good_plan::GoodPlan;
use plan_file::reader::read_plan;
use refusal::Refusal;
use solution::Planned;

// From 18 on: from 10 on the plan is the car's, over the table of the file's.
fn plan_marked(
    t: &Tabled<'_>,
    marks: &[u8],
    budget: u32,
    sheet: &mut [u16],
) -> Result<Planned, Refusal>
    requires budget_and_sheet { (1 ≤ budget) × (sheet_places ≤ length sheet.old) }
    ensures { IsPlanned (car_plan (tabled_plan t.now) marks.now) budget
        (first_refusal
        (mark_conditions (tabled_plan t.now) marks.now ++ last_conditions (car_plan (tabled_plan t.now) marks.now)))
        sheet.old sheet.new result }
{
    let plan = t.good.plan;
    if has_bad_mark(plan, marks) {
        return Err(Refusal::BadMarks);
    }
    plan_tabled(
        &Tabled {
            good: &GoodPlan {
                plan: car_plan(plan, marks),
            },
            table: t.table,
            weights: t.weights,
        },
        budget,
        sheet,
    )
}

// One car, from 8 on.
fn plan_car(
    t: &Tabled<'_>,
    marks: &[u8],
    budget: u64,
    sheet: &mut [u16],
) -> Result<Planned, Refusal>
    ensures { IsPlanned (car_plan (tabled_plan t.now) marks.now) budget
        (first_refusal (call_conditions budget (length sheet.old)
        ++ (mark_conditions (tabled_plan t.now) marks.now ++ last_conditions (car_plan (tabled_plan t.now) marks.now))))
        sheet.old sheet.new result }
{
    lent_verdict(budget, sheet.len())?;
    plan_marked(t, marks, budget as u32, sheet)
}

// THE CALL FOR TWO CARS, for any bytes, and for each car any marks, any budget and any sheet.
pub fn two_cars(
    bytes: &[u8],
    marks_1: &[u8],
    budget_1: u64,
    sheet_1: &mut [u16],
    marks_2: &[u8],
    budget_2: u64,
    sheet_2: &mut [u16],
) -> TwoPlanned
    ensures { IsTwoCars bytes.now marks_1.now budget_1 sheet_1.old sheet_1.new
        marks_2.now budget_2 sheet_2.old sheet_2.new result }
{
    match read_plan(bytes) {
        Err(r) => TwoPlanned {
            first: Err(r),
            second: Err(r),
        },
        Ok(reading) => {
            let good = &GoodPlan { plan: reading.plan };
            let weights = shortest::weights::table(good);
            let table = shortest::distance::table_of(&weights);
            let t = Tabled {
                good,
                table: &table,
                weights: &weights,
            };
            let first = plan_car(&t, marks_1, budget_1, sheet_1);
            let second = plan_car(&t, marks_2, budget_2, sheet_2);
            TwoPlanned { first, second }
        }
    }
}
