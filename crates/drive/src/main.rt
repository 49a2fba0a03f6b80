// `drive`: a plan on standard input, the drive and its floor on standard output, what went wrong on standard error.
#![tactic(auto)]

ghost use Rattle.std.specs.Prelude.{◌<◌, ◌≤◌, length, pos, ◌≤ℤ◌};

use drive_output::message::{say, say_word};
use drive_output::output::{flush, put, put_line};
use planner::call::plan_call;
use refusal::Refusal;
use solution::Planned;
use std::env::FillError;
use std::io::Read;
use std::rt::Env;

// The budget of the call, whatever the short call's is: what is printed for a plan stays the same.
const BUDGET: u64 = 10_000;

// ---- printing

fn put_floor(rt: &HostRuntime, space: &mut [u8; 4096], waiting: usize, x: i64) -> usize
    requires { (waiting < 4096) × (pos 0 ≤ℤ x) }
    ensures { result < 4096 }
{
    put_line(rt, space, waiting, b"floor ", x as u64)
}

fn put_whole(rt: &HostRuntime, space: &mut [u8; 4096], waiting: usize, whole: bool) -> usize
    requires { waiting < 4096 }
    ensures { result < 4096 }
{
    if whole {
        put(rt, space, waiting, b"whole yes\n")
    } else {
        put(rt, space, waiting, b"whole no\n")
    }
}

// The lines before the places.
fn put_answer(rt: &HostRuntime, space: &mut [u8; 4096], r: Planned) -> usize
    requires { pos 0 ≤ℤ r.floor }
    ensures { result < 4096 }
{
    let cost = put_line(rt, space, 0, b"cost ", r.cost);
    let floor = put_floor(rt, space, cost, r.floor);
    let trees = put_line(rt, space, floor, b"trees ", u64::from(r.trees));
    let whole = put_whole(rt, space, trees, r.whole);
    put_line(rt, space, whole, b"parts ", u64::from(r.parts))
}

fn put_arc(rt: &HostRuntime, space: &mut [u8; 4096], waiting: usize, number: u16) -> usize
    requires { waiting < 4096 }
    ensures { result < 4096 }
{
    put_line(rt, space, waiting, b"arc ", u64::from(number))
}

fn put_places(rt: &HostRuntime, space: &mut [u8; 4096], waiting: usize, sheet: &[u16]) -> usize
    requires { waiting < 4096 }
    ensures { result < 4096 }
{
    let mut n = waiting;
    for place in sheet {
        n = put_arc(rt, space, n, *place);
    }
    n
}

fn print_answer(rt: &HostRuntime, r: Planned, sheet: &[u16])
    requires { pos 0 ≤ℤ r.floor }
{
    let mut space = [0u8; 4096];
    let n = put_answer(rt, &mut space, r);
    let all = put_places(rt, &mut space, n, sheet);
    flush(rt, space, all);
}

fn print_refusal(rt: &HostRuntime, r: Refusal) {
    let number = u8::from(r);
    let mut space = [0u8; 4096];
    let all = put_line(rt, &mut space, 0, b"refused ", u64::from(number));
    flush(rt, space, all);
    say_word(rt, number);
}

// ---- reading

// Reads until the buffer is full, the input ends or a read fails, and answers how many bytes it put at the buffer's start.
fn read_full(input: &mut impl Read, space: &mut [u8]) -> usize
    ensures { result ≤ length space.new }
{
    let mut done = 0;
    while done < space.len() {
        match input.read(&mut space[done..]) {
            Ok(0) | Err(_) => break,
            Ok(n) => done += n,
        }
    }
    done
}

// Reads once, and answers whether something came.
fn pass(input: &mut impl Read) -> bool {
    let mut space = [0u8; 4096];
    read_full(input, &mut space) != 0
}

// Reads what is left, so that whoever writes it can end. A proved loop has to end, and nothing says that the input does: the turns are
// counted, to a number that no run reaches.
fn pass_all(input: &mut impl Read) {
    for _ in 0..u64::MAX {
        if !pass(input) {
            break;
        }
    }
}

// The longest plan has 1,475 bytes. A file longer than the buffer is refused for what its first 4,096 bytes hold, as the
// whole would be (`planner`'s `Laws.LongFile`).
fn run(rt: &HostRuntime) {
    let mut input = rt.reader();
    let mut file = [0u8; 4096];
    let n = read_full(&mut input, &mut file);
    pass_all(&mut input);
    let mut sheet = [0u16; 17266];
    match plan_call(&file[..n], BUDGET, &mut sheet) {
        Ok(planned) => print_answer(rt, planned, &sheet[..planned.places]),
        Err(refusal) => print_refusal(rt, refusal),
    }
}

// Whether there is an argument after the program's name.
fn has_argument(rt: &impl Env) -> bool {
    let mut start = [0u8; 1];
    !matches!(rt.arg(1, &mut start), Err(FillError::NotPresent))
}

// Whoever names a file as an argument would wait for a plan that is never read.
fn main(rt: HostRuntime) {
    if has_argument(&rt) {
        say(&rt, b"no argument is taken");
        say(&rt, b"usage: drive < FILE");
        return;
    }
    run(&rt);
}
