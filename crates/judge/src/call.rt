// The judging call: the refusals in document 02's order, and the cost.
ghost use Rattle.std.specs.Prelude.{◌≡◌, ◌≤◌, ◌<◌, ◌^◌, length};
ghost use Rattle.std.proofs.Math.Option.{some};
ghost use Rattle.postman.specs.Plan.{required_numbers};
ghost use Rattle.postman.specs.Refusal.{first_refusal};
ghost use Rattle.postman.specs.Drive.{drive_cost};
ghost use Rattle.postman.specs.Judge.{highest_places, lent_conditions};
ghost use Rattle.plan.specs.GoodPlan.{good_plan};
ghost use Rattle.refusal.specs.Verdict.{refusal_number};
ghost use Rattle.drive_tally.specs.Rows.{plan_over};
ghost use Rattle.drive_tally.specs.Tally.{AreDue};
ghost use Rattle.judge.specs.Contract.{judged_answer, list_answer, plan_answer, IsJudged};

use crate::Judged;
use drive_tally::faults::{has_foreign, is_unjoined};
use drive_tally::tally::{has_flag, priced, required_flags};
use plan::good_plan::GoodPlan;
use plan::rows::rows_of;
use plan_file::reader::{file_edition, is_edition, read_plan};
use refusal::Refusal;

// 14, 15 and 16, then the cost.
fn judge_list(arcs: &[[u16; 5]], required: [bool; 256], places: &[u16]) -> Judged
    requires { (length arcs.now ≤ 256) × (drive_cost (plan_over arcs.now) places.now < 2 ^ 32)
        × AreDue required (required_numbers (plan_over arcs.now)) }
    ensures { judged_answer result ≡ list_answer (plan_over arcs.now) places.now }
{
    if has_foreign(arcs, places) {
        return Err(Refusal::Foreign);
    }
    if is_unjoined(arcs, places) {
        return Err(Refusal::Unjoined);
    }
    let t = priced(arcs, required, places);
    if has_flag(t.due) {
        return Err(Refusal::Missed);
    }
    Ok(t.cost)
}

// 10, then the rest.
fn judge_arcs(arcs: &[[u16; 5]], places: &[u16]) -> Judged
    requires { (length arcs.now ≤ 256) × (drive_cost (plan_over arcs.now) places.now < 2 ^ 32) }
    ensures { judged_answer result ≡ plan_answer (plan_over arcs.now) places.now }
{
    let required = required_flags(arcs);
    if !has_flag(required) {
        return Err(Refusal::Idle);
    }
    judge_list(arcs, required, places)
}

// The arcs of a plan that the file's rules let through, lent as rows.
fn judge_plan(good: &GoodPlan, places: &[u16]) -> Judged
    requires { length places.now ≤ highest_places }
    ensures { judged_answer result ≡ plan_answer (good_plan good.now) places.now }
{
    let rows = rows_of(good.plan);
    judge_arcs(&rows[..good.plan.m as usize], places)
}

// "A list above 65,535 places gets 3": 1 and 2 come before it, and nothing else of the file is looked at.
fn long_list(bytes: &[u8], places: usize) -> Refusal
    requires { highest_places < places }
    ensures { some (refusal_number result) ≡ first_refusal (lent_conditions bytes.now places) }
{
    if bytes.len() < 3 {
        return Refusal::Torn;
    }
    if is_edition(file_edition(bytes)) {
        Refusal::Extent
    } else {
        Refusal::Edition
    }
}

// THE JUDGING CALL, for any bytes and any list. It asks nothing and changes nothing.
pub fn judge(bytes: &[u8], places: &[u16]) -> Judged
    ensures { IsJudged bytes.now places.now result }
{
    if 65_535 < places.len() {
        return Err(long_list(bytes, places.len()));
    }
    judge_plan(
        &GoodPlan {
            plan: read_plan(bytes)?.plan,
        },
        places,
    )
}
