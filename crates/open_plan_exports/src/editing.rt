// An open plan, for callers in other languages. The state is lent: five files one after the other, that of the open plan and those of marks
// 0 to 3, each as the two bytes of its length, the high one first, and 1,475 bytes. Whatever these bytes are, they are a state.
ghost use Rattle.postman.specs.OpenPlan.{change as a_change, mark as a_mark, return as a_return};
ghost use Rattle.shut_arcs.specs.Fields.{departure};
ghost use Rattle.held_file.specs.Change.{change_of};
ghost use Rattle.postman.specs.Refusal.{answer};
ghost use Rattle.open_plan_exports.specs.Editing.{IsExportedOpen, IsExportedMove, IsMovedBy, IsExportedAsk};

use answers::answer::hand_over;
use answers::number::refused_number;
use open_plan::{Moved, OpenPlan};
use open_plan_bytes::state_bytes::{load, short_number, store_moved};
use refusal::Refusal;

// OPENING a plan. A slice that is too short for the state is refused as 8, after 1 to 7 and 13.
pub fn postman_open(plan: &[u8], state: &mut [u8]) -> i64
    ensures { IsExportedOpen plan.now state.old state.new result }
{
    let r = open_plan::call::open(plan);
    if state.len() < 7_385 {
        return short_number(r.verdict);
    }
    store_moved(state, r)
}

// A call on the state that is lent. A slice that is too short for the state is refused as 8 first, here and in what follows.
fn moved<F: FnOnce(OpenPlan) -> Moved + Drop>(state: &mut [u8], call: F) -> i64
    requires { F.IsAlwaysCallable call }
    ensures { IsMovedBy (F.post call) state.old state.new result }
{
    if state.len() < 7_385 {
        return refused_number(Refusal::ShortSheet);
    }
    let s = load(state);
    let r = call(s);
    store_moved(state, r)
}

// A CHANGE of one arc's costs and standing.
pub fn postman_change(state: &mut [u8], arc: u32, cost: u16, checking: u16, standing: u8) -> i64
    ensures { IsExportedMove (a_change (change_of arc cost checking standing)) state.old state.new result }
{
    if state.len() < 7_385 {
        return refused_number(Refusal::ShortSheet);
    }
    let s = load(state);
    let r = open_plan::call::change(s, arc, cost, checking, standing);
    store_moved(state, r)
}

// A MARK holds the plan as it is now.
pub fn postman_mark(state: &mut [u8], mark: u32) -> i64
    ensures { IsExportedMove (a_mark mark) state.old state.new result }
{
    moved(state, |s| open_plan::call::mark(s, mark))
}

// RETURNING brings back the plan of a mark.
pub fn postman_return(state: &mut [u8], mark: u32) -> i64
    ensures { IsExportedMove (a_return mark) state.old state.new result }
{
    moved(state, |s| open_plan::call::return_to(s, mark))
}

// ASKING: the plan call at a departure on the open plan.
pub fn postman_ask(
    state: &[u8],
    budget: u64,
    windows: &[u16],
    weekday: u32,
    minute: u32,
    sheet: &mut [u16],
    answer: &mut [u64],
    multipliers: &mut [i64],
) -> i64
    ensures { IsExportedAsk state.now budget windows.now (departure weekday minute) sheet.old
        sheet.new
        answer.old answer.new multipliers.old multipliers.new result }
{
    if state.len() < 7_385 {
        return refused_number(Refusal::ShortSheet);
    }
    let s = load(state);
    let r = open_plan::call::ask(s, budget, windows, weekday, minute, sheet);
    hand_over(r, answer, multipliers)
}
