// The plan call, the short call, the plan call at a departure, the deep call, and the call for two cars.
ghost use Rattle.exports.specs.Call.{IsExportedCall, IsExportedCallAt, IsExportedDeepCall};
ghost use Rattle.postman.specs.PlanCall.{default_budget};
ghost use Rattle.shut_arcs.specs.Fields.{departure};
ghost use Rattle.exports.specs.Cars.{IsExportedCars};

#[unsafe(no_mangle)]
pub extern "C" fn postman_plan_call(
    plan: &[u8],
    budget: u64,
    sheet: &mut [u16],
    answer: &mut [u64],
    multipliers: &mut [i64],
) -> i64
    ensures { IsExportedCall plan.now budget sheet.old sheet.new answer.old answer.new
        multipliers.old multipliers.new result }
{
    exports::call::postman_plan_call(plan, budget, sheet, answer, multipliers)
}

#[unsafe(no_mangle)]
pub extern "C" fn postman_short_call(
    plan: &[u8],
    sheet: &mut [u16],
    answer: &mut [u64],
    multipliers: &mut [i64],
) -> i64
    ensures { IsExportedCall plan.now default_budget sheet.old sheet.new answer.old
        answer.new
        multipliers.old multipliers.new result }
{
    exports::call::postman_short_call(plan, sheet, answer, multipliers)
}

#[unsafe(no_mangle)]
pub extern "C" fn postman_plan_call_at(
    plan: &[u8],
    budget: u64,
    windows: &[u16],
    weekday: u32,
    minute: u32,
    sheet: &mut [u16],
    answer: &mut [u64],
    multipliers: &mut [i64],
) -> i64
    ensures { IsExportedCallAt plan.now budget windows.now (departure weekday minute) sheet.old
        sheet.new
        answer.old answer.new multipliers.old multipliers.new result }
{
    exports::call::postman_plan_call_at(
        plan,
        budget,
        windows,
        weekday,
        minute,
        sheet,
        answer,
        multipliers,
    )
}

#[unsafe(no_mangle)]
pub extern "C" fn postman_deep_call(
    plan: &[u8],
    budget: u64,
    rounds: u32,
    sheet: &mut [u16],
    answer: &mut [u64],
    multipliers: &mut [i64],
) -> i64
    ensures { IsExportedDeepCall plan.now budget rounds sheet.old sheet.new answer.old
        answer.new
        multipliers.old multipliers.new result }
{
    exports::call::postman_deep_call(plan, budget, rounds, sheet, answer, multipliers)
}

#[unsafe(no_mangle)]
pub extern "C" fn postman_two_cars(
    plan: &[u8],
    marks_1: &[u8],
    budget_1: u64,
    sheet_1: &mut [u16],
    answer_1: &mut [u64],
    multipliers_1: &mut [i64],
    marks_2: &[u8],
    budget_2: u64,
    sheet_2: &mut [u16],
    answer_2: &mut [u64],
    multipliers_2: &mut [i64],
) -> i64
    ensures { IsExportedCars plan.now
        (record {
          marks = marks_1.now;
          budget = budget_1;
          sheet = sheet_1.old;
          sheet' = sheet_1.new;
          words = answer_1.old;
          words' = answer_1.new;
          u = multipliers_1.old;
          u' = multipliers_1.new;
        })
        (record {
          marks = marks_2.now;
          budget = budget_2;
          sheet = sheet_2.old;
          sheet' = sheet_2.new;
          words = answer_2.old;
          words' = answer_2.new;
          u = multipliers_2.old;
          u' = multipliers_2.new;
        })
        result }
{
    exports::cars::postman_two_cars(
        plan,
        marks_1,
        budget_1,
        sheet_1,
        answer_1,
        multipliers_1,
        marks_2,
        budget_2,
        sheet_2,
        answer_2,
        multipliers_2,
    )
}
