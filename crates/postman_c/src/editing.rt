// An open plan, whose bytes the caller lends.
ghost use Rattle.open_plan_exports.specs.Editing.{IsExportedOpen, IsExportedMove, IsExportedAsk};
ghost use Rattle.held_file.specs.Change.{change_of};
ghost use Rattle.shut_arcs.specs.Fields.{departure};
ghost use Rattle.postman.specs.OpenPlan.{change as a_change, mark as a_mark, return as a_return};

#[unsafe(no_mangle)]
pub extern "C" fn postman_open(plan: &[u8], state: &mut [u8]) -> i64
    ensures { IsExportedOpen plan.now state.old state.new result }
{
    open_plan_exports::editing::postman_open(plan, state)
}

#[unsafe(no_mangle)]
pub extern "C" fn postman_change(
    state: &mut [u8],
    arc: u32,
    cost: u16,
    checking: u16,
    standing: u8,
) -> i64
    ensures { IsExportedMove (a_change (change_of arc cost checking standing)) state.old state.new result }
{
    open_plan_exports::editing::postman_change(state, arc, cost, checking, standing)
}

#[unsafe(no_mangle)]
pub extern "C" fn postman_mark(state: &mut [u8], mark: u32) -> i64
    ensures { IsExportedMove (a_mark mark) state.old state.new result }
{
    open_plan_exports::editing::postman_mark(state, mark)
}

#[unsafe(no_mangle)]
pub extern "C" fn postman_return(state: &mut [u8], mark: u32) -> i64
    ensures { IsExportedMove (a_return mark) state.old state.new result }
{
    open_plan_exports::editing::postman_return(state, mark)
}

#[unsafe(no_mangle)]
pub extern "C" fn postman_ask(
    state: &[u8],
    budget: u64,
    windows: &[u16],
    weekday: u32,
    minute: u32,
    sheet: &mut [u16],
    answer: &mut [u64],
    multipliers: &mut [i64],
) -> i64
    ensures { IsExportedAsk state.now budget windows.now (departure weekday minute) sheet.old
        sheet.new
        answer.old answer.new multipliers.old multipliers.new result }
{
    open_plan_exports::editing::postman_ask(
        state,
        budget,
        windows,
        weekday,
        minute,
        sheet,
        answer,
        multipliers,
    )
}
