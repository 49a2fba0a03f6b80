// A state of an open plan, lent: five files one after the other, that of the open plan and those of marks 0 to 3.
// Steps for other crates, which ask something of their caller.
ghost use Rattle.std.specs.Prelude.{◌≡◌, ◌++◌, ◌+◌, ◌≤◌, length, drop};
ghost use Rattle.std.proofs.Math.Option.{some};
ghost use Rattle.postman.specs.Refusal.{answer};
ghost use Rattle.refusal.specs.Verdict.{verdict_number, or_else};
ghost use Rattle.answers.specs.Number.{one_number};
ghost use Rattle.encoding.specs.NumberBytes.{put_at};
ghost use Rattle.open_plan_bytes.specs.StateBytes.{open_bytes, held_in, held_bytes, open_in, state_bytes, IsStored};

use answers::number::refused_number;
use encoding::number_bytes::put_number;
use encoding::record_bytes::number_at;
use held_file::Held;
use held_file::file_bytes::{load_file, store_file};
use open_plan::{Moved, OpenPlan};
use refusal::{Refusal, Verdict};

// The file that is held from `at` on.
fn load_held(state: &[u8], at: usize) -> Held
    requires { at + 1477 ≤ length state.now }
    ensures { result ≡ held_in state.now at }
{
    load_file(state, at + 2, usize::from(number_at(state, at)))
}

// The open plan that is lent.
pub fn load(state: &[u8]) -> OpenPlan
    requires { open_bytes ≤ length state.now }
    ensures { result ≡ open_in state.now }
{
    let plan = load_held(state, 0);
    let first = load_held(state, 1_477);
    let second = load_held(state, 2_954);
    let third = load_held(state, 4_431);
    let fourth = load_held(state, 5_908);
    OpenPlan {
        plan,
        marks: [first, second, third, fourth],
    }
}

// A file, with its length before it. Every length that was loaded, and that of every file, has room in two bytes.
fn store_held(state: &mut [u8], at: usize, h: Held)
    requires { at + 1477 ≤ length state.old }
    ensures { (length h.file ≡ 1475) × (state.new ≡ put_at state.old at (held_bytes h)) }
{
    put_number(state, at, (h.length % 65_536) as u16);
    store_file(state, at + 2, h);
}

// The open plan and its marks.
fn store(state: &mut [u8], s: OpenPlan)
    requires { open_bytes ≤ length state.old }
    ensures { state.new ≡ state_bytes s ++ drop open_bytes state.old }
{
    let plan = s.plan;
    let first = s.marks[0];
    let second = s.marks[1];
    let third = s.marks[2];
    let fourth = s.marks[3];
    store_held(state, 0, plan);
    store_held(state, 1_477, first);
    store_held(state, 2_954, second);
    store_held(state, 4_431, third);
    store_held(state, 5_908, fourth);
}

// A call's state goes to where it is held, unless the call is refused.
pub fn store_moved(state: &mut [u8], r: Moved) -> i64
    requires { open_bytes ≤ length state.old }
    ensures { IsStored r state.old state.new result }
{
    match r.verdict {
        Ok(()) => {
            store(state, r.state);
            0
        }
        Err(q) => refused_number(q),
    }
}

// Where the state has no room: the file's refusal, or else 8.
pub fn short_number(v: Verdict) -> i64
    ensures { result ≡ one_number (answer (or_else (verdict_number v) (some 8)) 0) }
{
    match v {
        Ok(()) => refused_number(Refusal::ShortSheet),
        Err(q) => refused_number(q),
    }
}
