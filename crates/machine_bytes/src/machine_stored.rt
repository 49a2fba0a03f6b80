// The answer of an entry and of a turn, handed over.
// Steps for other crates, which ask something of their caller.
ghost use Rattle.std.specs.Prelude.{◌≡◌, ◌≤◌, length};
ghost use Rattle.solution.specs.Planned.{u_list};
ghost use Rattle.answers.specs.Answer.{words_of};
ghost use Rattle.machine_bytes.specs.MachineBytes.{districts_bytes};
ghost use Rattle.machine_bytes.specs.MachineStored.{IsEntryStored, IsTurnHandedOver};

use crate::machine_bytes::store_machine;
use answers::answer::{put_first, words};
use answers::number::refused_number;
use district_entry::enter::Entered;
use districts::turn::{Outcome, Turned};
use refusal::Refusal;
use solution::Planned;

// The machine goes to where it is held, unless the entry is refused.
pub fn store_entered(machine: &mut [u8], r: Entered) -> i64
    requires { districts_bytes ≤ length machine.old }
    ensures { IsEntryStored r machine.old machine.new result }
{
    match r.answer {
        Ok(place) => {
            store_machine(machine, r.machine);
            i64::from(place)
        }
        Err(q) => refused_number(q),
    }
}

// The words of what a turn answers, zeros where it is refused.
fn turn_words(r: Result<Planned, Refusal>) -> [u64; 6]
    ensures { result ≡ words_of r }
{
    match r {
        Ok(planned) => words(planned),
        Err(_) => [0u64; 6],
    }
}

// And its multipliers.
fn turn_multipliers(r: Result<Planned, Refusal>) -> [i64; 64]
    ensures { result ≡ u_list r }
{
    match r {
        Ok(planned) => planned.multipliers,
        Err(_) => [0i64; 64],
    }
}

// Where a district had its turn, the machine and the words are put, and the multipliers in its last one.
pub fn hand_turn_over(
    r: Turned,
    machine: &mut [u8],
    words_lent: &mut [u64],
    u_lent: &mut [i64],
) -> i64
    requires { districts_bytes ≤ length machine.old }
    ensures { IsTurnHandedOver r machine.old machine.new words_lent.old words_lent.new
        u_lent.old u_lent.new result }
{
    match r.outcome {
        Outcome::Empty => 16,
        Outcome::ShortSheet => refused_number(Refusal::ShortSheet),
        Outcome::Unfinished(place) => {
            store_machine(machine, r.machine);
            put_first(&turn_words(r.planned), words_lent);
            i64::from(place)
        }
        Outcome::Finished(place) => {
            store_machine(machine, r.machine);
            put_first(&turn_words(r.planned), words_lent);
            put_first(&turn_multipliers(r.planned), u_lent);
            8 + i64::from(place)
        }
    }
}
