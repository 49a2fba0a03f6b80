// The plan call, the short call, the plan call at a departure and the deep call, for callers in other languages. The number is 0, or minus
// the refusal's; an answer goes into two lent slices.
ghost use Rattle.postman.specs.PlanCall.{default_budget};
ghost use Rattle.shut_arcs.specs.Fields.{departure};
ghost use Rattle.exports.specs.Call.{IsExportedCall, IsExportedCallAt, IsExportedDeepCall};

use answers::answer::hand_over;

// THE PLAN CALL. `answer` takes places, cost, floor, trees, whole and parts, `multipliers` takes u; a refusal changes no lent slice.
pub fn postman_plan_call(
    plan: &[u8],
    budget: u64,
    sheet: &mut [u16],
    answer: &mut [u64],
    multipliers: &mut [i64],
) -> i64
    ensures { IsExportedCall plan.now budget sheet.old sheet.new answer.old answer.new
        multipliers.old multipliers.new result }
{
    let r = planner::call::plan_call(plan, budget, sheet);
    hand_over(r, answer, multipliers)
}

// THE SHORT CALL.
pub fn postman_short_call(
    plan: &[u8],
    sheet: &mut [u16],
    answer: &mut [u64],
    multipliers: &mut [i64],
) -> i64
    ensures { IsExportedCall plan.now default_budget sheet.old sheet.new answer.old
        answer.new
        multipliers.old multipliers.new result }
{
    let r = planner::call::short_call(plan, sheet);
    hand_over(r, answer, multipliers)
}

// THE PLAN CALL AT A DEPARTURE. A window is four numbers: arc, weekday, from, to; a list whose
// length is no multiple of four is refused as 19.
pub fn postman_plan_call_at(
    plan: &[u8],
    budget: u64,
    windows: &[u16],
    weekday: u32,
    minute: u32,
    sheet: &mut [u16],
    answer: &mut [u64],
    multipliers: &mut [i64],
) -> i64
    ensures { IsExportedCallAt plan.now budget windows.now (departure weekday minute) sheet.old
        sheet.new
        answer.old answer.new multipliers.old multipliers.new result }
{
    let r = windows::call::plan_call_at(plan, budget, windows, weekday, minute, sheet);
    hand_over(r, answer, multipliers)
}

// THE DEEP CALL. The words are as in a plan call, but whole says that floor and cost are equal, and trees are those of all rounds.
pub fn postman_deep_call(
    plan: &[u8],
    budget: u64,
    rounds: u32,
    sheet: &mut [u16],
    answer: &mut [u64],
    multipliers: &mut [i64],
) -> i64
    ensures { IsExportedDeepCall plan.now budget rounds sheet.old sheet.new answer.old
        answer.new
        multipliers.old multipliers.new result }
{
    let r = deep_call::call::deep_call(plan, budget, rounds, sheet);
    hand_over(r, answer, multipliers)
}
