// Eight districts in turn, for callers in other languages. The machine is lent.
ghost use Rattle.district_exports.specs.Turns.{IsStarted, IsExportedEntry, IsExportedTurn};

use answers::number::refused_number;
use encoding::number_bytes::put_bytes;
use machine_bytes::machine_bytes::load_machine;
use machine_bytes::machine_stored::{hand_turn_over, store_entered};
use refusal::Refusal;

// THE START: a machine with no district inside, which is zeros. A slice that is too short for the machine is
// refused as 8, here and in what follows first.
pub fn postman_districts_start(machine: &mut [u8]) -> i64
    ensures { IsStarted machine.old machine.new result }
{
    if machine.len() < 12_136 {
        return refused_number(Refusal::ShortSheet);
    }
    let zeros = [0u8; 12136];
    put_bytes(machine, 0, &zeros);
    0
}

// AN ENTRY, of any bytes and any budget.
pub fn postman_enter(machine: &mut [u8], plan: &[u8], budget: u64) -> i64
    ensures { IsExportedEntry plan.now budget machine.old machine.new result }
{
    if machine.len() < 12_136 {
        return refused_number(Refusal::ShortSheet);
    }
    let m = load_machine(machine);
    let r = district_entry::enter::enter(m, plan, budget);
    store_entered(machine, r)
}

// A TURN, with any sheet.
pub fn postman_turn(
    machine: &mut [u8],
    sheet: &mut [u16],
    answer: &mut [u64],
    multipliers: &mut [i64],
) -> i64
    ensures { IsExportedTurn machine.old machine.new sheet.old sheet.new
        answer.old answer.new multipliers.old multipliers.new result }
{
    if machine.len() < 12_136 {
        return refused_number(Refusal::ShortSheet);
    }
    let m = load_machine(machine);
    let r = districts::turn::turn(m, sheet);
    hand_turn_over(r, machine, answer, multipliers)
}
