// A machine of districts as bytes: eight districts one after the other, the front of the line first, and the number of those that wait. A
// district is its place, a byte; its file's length, eight bytes, and 1,475 bytes; its budget, four; its least cost, eight; eight tails and
// eight heads; and the trees tried, four. Whatever these bytes are, they are a machine.
// Steps for other crates, which ask something of their caller.
ghost use Rattle.std.specs.Prelude.{◌≡◌, ◌+◌, ◌*◌, ◌≤◌, length, drop};
ghost use mathlib.Core.List.{◌++◌, map, flat_map};
ghost use Rattle.postman.specs.Lists.{below};
ghost use Rattle.encoding.specs.NumberBytes.{put_at};
ghost use Rattle.machine_bytes.specs.MachineBytes.{districts_bytes, reached_in, reached_bytes, district_in, district_bytes, machine_in, machine_bytes, IsReachedSized, IsDistrictSized, AreSized, IsSized};

use district_machine::machine::{District, Machine};
use encoding::number_bytes::{eight_at, long_at, put_bytes, put_long, put_word, word_at};
use held_file::file_bytes::{load_file, store_file};
use tree_search::trees::Reached;

// What a district holds of the trees tried, from `at` on.
fn load_reached(machine: &[u8], at: usize) -> Reached
    requires { at + 28 ≤ length machine.now }
    ensures { result ≡ reached_in machine.now at }
{
    let cost = long_at(machine, at);
    let tails = eight_at(machine, at + 8);
    let heads = eight_at(machine, at + 16);
    let tried = word_at(machine, at + 24);
    Reached {
        cost,
        tails,
        heads,
        tried,
    }
}

// The district whose bytes start at `at`.
fn load_district(machine: &[u8], at: usize) -> District
    requires { at + 1516 ≤ length machine.now }
    ensures { result ≡ district_in machine.now at }
{
    let place = machine[at];
    let length = long_at(machine, at + 1) as usize;
    let plan = load_file(machine, at + 9, length);
    let budget = word_at(machine, at + 1_484);
    let held = load_reached(machine, at + 1_488);
    District {
        place,
        plan,
        budget,
        held,
    }
}

fn load_line(machine: &[u8]) -> [District; 8]
    requires { districts_bytes ≤ length machine.now }
    ensures { result ≡ map (λ k. district_in machine.now (1516 * k)) (below 8) }
{
    std::array::from_fn(|k| load_district(machine, 1_516 * k))
}

// The machine that is lent.
pub fn load_machine(machine: &[u8]) -> Machine
    requires { districts_bytes ≤ length machine.now }
    ensures { result ≡ machine_in machine.now }
{
    let line = load_line(machine);
    let waiting = long_at(machine, 12_128) as usize;
    Machine { line, waiting }
}

fn store_reached(machine: &mut [u8], at: usize, g: Reached)
    requires { at + 28 ≤ length machine.old }
    ensures { IsReachedSized g × (machine.new ≡ put_at machine.old at (reached_bytes g)) }
{
    put_long(machine, at, g.cost);
    put_bytes(machine, at + 8, &g.tails);
    put_bytes(machine, at + 16, &g.heads);
    put_word(machine, at + 24, g.tried);
}

// The bytes from `at` on become a district's.
fn store_district(machine: &mut [u8], at: usize, d: District)
    requires { at + 1516 ≤ length machine.old }
    ensures { IsDistrictSized d × (machine.new ≡ put_at machine.old at (district_bytes d)) }
{
    let plan = d.plan;
    let held = d.held;
    machine[at] = d.place;
    put_long(machine, at + 1, plan.length as u64);
    store_file(machine, at + 9, plan);
    put_word(machine, at + 1_484, d.budget);
    store_reached(machine, at + 1_488, held);
}

fn store_line(machine: &mut [u8], line: [District; 8])
    requires { districts_bytes ≤ length machine.old }
    ensures { AreSized line × (length line ≡ 8) × (machine.new ≡ put_at machine.old 0 (flat_map district_bytes line)) }
{
    for (k, d) in line.iter().enumerate() {
        store_district(machine, 1_516 * k, *d);
    }
}

// A machine goes to where it is held.
pub(crate) fn store_machine(machine: &mut [u8], m: Machine)
    requires { districts_bytes ≤ length machine.old }
    ensures { IsSized m × (machine.new ≡ machine_bytes m ++ drop districts_bytes machine.old) }
{
    let line = m.line;
    store_line(machine, line);
    put_long(machine, 12_128, m.waiting as u64);
}
