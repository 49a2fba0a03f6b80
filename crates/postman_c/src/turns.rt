// Eight districts in turn, whose machine the caller lends.
ghost use Rattle.district_exports.specs.Turns.{IsStarted, IsExportedEntry, IsExportedTurn};

#[unsafe(no_mangle)]
pub extern "C" fn postman_districts_start(machine: &mut [u8]) -> i64
    ensures { IsStarted machine.old machine.new result }
{
    district_exports::turns::postman_districts_start(machine)
}

#[unsafe(no_mangle)]
pub extern "C" fn postman_enter(machine: &mut [u8], plan: &[u8], budget: u64) -> i64
    ensures { IsExportedEntry plan.now budget machine.old machine.new result }
{
    district_exports::turns::postman_enter(machine, plan, budget)
}

#[unsafe(no_mangle)]
pub extern "C" fn postman_turn(
    machine: &mut [u8],
    sheet: &mut [u16],
    answer: &mut [u64],
    multipliers: &mut [i64],
) -> i64
    ensures { IsExportedTurn machine.old machine.new sheet.old sheet.new
        answer.old answer.new multipliers.old multipliers.new result }
{
    district_exports::turns::postman_turn(machine, sheet, answer, multipliers)
}
