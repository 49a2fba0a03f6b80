// The calls of an open plan. None of them asks anything: whatever the state holds, reading decides.
ghost use Rattle.std.specs.Prelude.{◌≡◌};
ghost use Rattle.std.proofs.Math.Option.{none, some};
ghost use Rattle.postman.specs.OpenPlan.{change as a_change, mark as a_mark, return as a_return};
ghost use Rattle.refusal.specs.Verdict.{refusal_number};
ghost use Rattle.held_file.specs.Change.{change_of};
ghost use Rattle.held_file.specs.Held.{file_in};
ghost use Rattle.open_plan.specs.State.{fresh_state, with_plan as with_plan_of};
ghost use Rattle.shut_arcs.specs.Fields.{departure};
ghost use Rattle.windows.specs.Contract.{IsPlanCallAt};
ghost use Rattle.open_plan.specs.Contract.{IsMoveAnswer, IsOpened, IsMoved};

use crate::{Moved, OpenPlan};
use held_file::Held;
use held_file::change::{Change, changed_file};
use held_file::file::{held_length, hold, no_file};
use plan_file::reader::file_verdict;
use refusal::Refusal;
use solution::Planned;
use windows::call::plan_call_at;

// A file with no mark set.
fn fresh(file: Held) -> OpenPlan
    ensures { result ≡ fresh_state file }
{
    OpenPlan {
        plan: file,
        marks: [no_file(); 4],
    }
}

// The open plan goes on with another file, and keeps its marks.
fn with_plan(state: OpenPlan, file: Held) -> OpenPlan
    ensures { result ≡ with_plan_of state file }
{
    OpenPlan {
        plan: file,
        ..state
    }
}

fn accepted(state: OpenPlan) -> Moved
    ensures { IsMoveAnswer none state result }
{
    Moved {
        verdict: Ok(()),
        state,
    }
}

fn refused(state: OpenPlan, r: Refusal) -> Moved
    ensures { IsMoveAnswer (some (refusal_number r)) state result }
{
    Moved {
        verdict: Err(r),
        state,
    }
}

// OPENING, from any bytes: 1 to 7 and 13, or the plan, with no mark set. In a refusal no plan is open.
pub fn open(bytes: &[u8]) -> Moved
    ensures { IsOpened bytes.now result }
{
    match file_verdict(bytes) {
        Ok(()) => accepted(fresh(hold(bytes))),
        Err(r) => refused(fresh(no_file()), r),
    }
}

// A CHANGE of one arc's costs and standing.
pub fn change(state: OpenPlan, arc: u32, cost: u16, service: u16, standing: u8) -> Moved
    ensures { IsMoved state (a_change (change_of arc cost service standing)) result }
{
    let change = Change {
        arc,
        cost,
        service,
        standing,
    };
    match changed_file(state.plan, change) {
        Ok(file) => accepted(with_plan(state, file)),
        Err(r) => refused(state, r),
    }
}

// MARK k holds the plan as it is now.
pub fn mark(state: OpenPlan, k: u32) -> Moved
    ensures { IsMoved state (a_mark k) result }
{
    if 3 < k {
        return refused(state, Refusal::NoMark);
    }
    let held = state.plan;
    let mut next = state;
    next.marks[k as usize] = held;
    accepted(next)
}

// RETURNING brings back the plan of mark k, and keeps all marks.
pub fn return_to(state: OpenPlan, k: u32) -> Moved
    ensures { IsMoved state (a_return k) result }
{
    if 3 < k {
        return refused(state, Refusal::NoMark);
    }
    let held = state.marks[k as usize];
    if held.length == 0 {
        return refused(state, Refusal::NoMark);
    }
    accepted(with_plan(state, held))
}

// ASKING: what the plan call at a departure gives for the file of the open plan.
pub fn ask(
    state: OpenPlan,
    budget: u64,
    windows: &[u16],
    weekday: u32,
    minute: u32,
    sheet: &mut [u16],
) -> Result<Planned, Refusal>
    ensures { IsPlanCallAt (file_in state.plan) budget windows.now (departure weekday minute) sheet.old
        sheet.new result }
{
    let n = held_length(state.plan);
    plan_call_at(
        &state.plan.file[..n],
        budget,
        windows,
        weekday,
        minute,
        sheet,
    )
}
