// The places of a line, and its districts from one of them on.
// Steps for other crates, which ask something of their caller.
ghost use Rattle.std.specs.Prelude.{◌≡◌, ◌+◌, ◌≤◌, ◌<◌, take, drop};
ghost use Rattle.postman.specs.Lists.{occurs};
ghost use Rattle.postman.specs.Districts.{places, lowest_free};
ghost use Rattle.held_file.specs.Padded.{padded};
ghost use Rattle.district_machine.specs.Machine.{empty_district, districts_in};

use crate::machine::{District, no_district};

// Whether one of the first n districts has place q.
pub fn is_taken(line: [District; 8], n: usize, q: u8) -> bool
    requires { n ≤ 8 }
    ensures { result ≡ occurs q (places (districts_in line n)) }
{
    line[..n].iter().any(|d| d.place == q)
}

// "The lowest free place, 0 to 7."
pub fn lowest_free(line: [District; 8], n: usize) -> u8
    requires { n < 8 }
    ensures { result ≡ lowest_free (districts_in line n) }
{
    (0u8..8).find(|q| !is_taken(line, n, *q)).unwrap()
}

// The n districts from the one at `from` on, and nothing behind them.
pub fn lined_up(line: [District; 8], from: usize, n: usize) -> [District; 8]
    requires { from + n ≤ 8 }
    ensures { result ≡ padded 8 empty_district (take n (drop from line)) }
{
    let mut next = [no_district(); 8];
    next[..n].copy_from_slice(&line[from..from + n]);
    next
}
