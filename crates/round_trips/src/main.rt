// Plan files through lists of arc records, there and back. Each argument names a file: it is read into the first records of a
// list, written from the list in both editions, and read back, into a list and by value. Before each call every record of a
// list is nines, and every byte of a slice ee.
#![tactic(auto)]

ghost use Rattle.std.specs.Prelude.{◌≤◌, length};

use plan::{Arc, Plan};
use plan_file::reader::read_plan;
use plan_writer::Written;
use records::arrays::{Filled, read_array, write_array};
use refusal::Refusal;
use std::env::FillError;
use std::fs::OpenOptions;
use std::io;
use std::rt::{Env, Files};

// ---- what is printed

fn text(rt: &impl Print, s: &str) {
    let _ = print!(rt; "{s}");
}

// A label, and a number after it.
fn number(rt: &impl Print, label: &str, n: u64) {
    let _ = print!(rt; "{label}{n}");
}

fn byte(rt: &impl Print, b: u8) {
    let _ = print!(rt; " {b:02x}");
}

fn bytes(rt: &impl Print, s: &[u8]) {
    for b in s {
        byte(rt, *b);
    }
}

fn refusal(rt: &impl Print, r: Refusal) {
    number(rt, "refused ", u64::from(u8::from(r)));
}

fn counts(rt: &impl Print, edition: u8, n: u8, m: u16) {
    number(rt, "edition ", u64::from(edition));
    number(rt, " n ", u64::from(n));
    number(rt, " m ", u64::from(m));
}

fn arc(rt: &impl Print, a: Arc) {
    number(rt, " (", u64::from(a.tail));
    number(rt, " ", u64::from(a.head));
    number(rt, " ", u64::from(a.standing));
    number(rt, " ", u64::from(a.cost));
    number(rt, " ", u64::from(a.service));
    text(rt, ")");
}

// The answer of reading, and the first three records and the last two: no plan has so many arcs that it fills the last.
fn filled(rt: &impl Print, r: Filled) {
    match r.read {
        Ok(h) => counts(rt, h.edition, h.n, h.m),
        Err(q) => refusal(rt, q),
    }
    arc(rt, r.arcs[0]);
    arc(rt, r.arcs[1]);
    arc(rt, r.arcs[2]);
    arc(rt, r.arcs[255]);
    arc(rt, r.arcs[256]);
    text(rt, "\n");
}

fn written(rt: &impl Print, w: Written) {
    match w {
        Ok(k) => number(rt, "length ", k as u64),
        Err(r) => refusal(rt, r),
    }
}

// ---- the calls

fn nines() -> [Arc; 257] {
    [Arc {
        tail: 9,
        head: 9,
        standing: 9,
        cost: 9,
        service: 9,
    }; 257]
}

// Reading into a list of so many records.
fn into(rt: &impl Print, label: &str, file: &[u8], room: usize) {
    text(rt, label);
    filled(rt, read_array(file, nines(), room));
}

// The file of k bytes that a slice starts with, read into a list.
fn read_back(rt: &impl Print, s: &[u8], k: usize) {
    if k <= s.len() {
        into(rt, "", &s[..k], 257);
    }
}

// The first m records, written in an edition into as many bytes as it takes, and read back.
fn reread(rt: &impl Print, edition: u8, n: u8, arcs: [Arc; 257], m: usize) {
    let mut file = [0u8; 1475];
    match write_array(edition, n, arcs, m, &mut file) {
        Ok(k) => read_back(rt, &file, k),
        Err(r) => filled(
            rt,
            Filled {
                read: Err(r),
                arcs: nines(),
            },
        ),
    }
}

// The first m records, written in an edition into 15 bytes, and read back.
fn rewritten(rt: &impl Print, edition: u8, n: u8, arcs: [Arc; 257], m: usize) {
    number(rt, "  written in edition ", u64::from(edition));
    text(rt, ": ");
    let mut s = [0xeeu8; 15];
    written(rt, write_array(edition, n, arcs, m, &mut s));
    text(rt, ":");
    bytes(rt, &s);
    text(rt, "\n  and read back: ");
    reread(rt, edition, n, arcs, m);
}

// A list that has the file's records and nines after them.
fn by_list(rt: &impl Print, file: &[u8]) {
    let r = read_array(file, nines(), 257);
    if let Ok(h) = r.read {
        rewritten(rt, 1, h.n, r.arcs, usize::from(h.m));
        rewritten(rt, 2, h.n, r.arcs, usize::from(h.m));
    }
}

// No plan: zeros.
fn no_plan() -> Plan {
    Plan {
        n: 0,
        m: 0,
        arcs: [Arc::ZERO; 256],
    }
}

// The first two records of a plan and the last.
fn ends(rt: &impl Print, p: Plan) {
    arc(rt, p.arcs[0]);
    arc(rt, p.arcs[1]);
    arc(rt, p.arcs[255]);
    text(rt, "\n");
}

// A plan, written in an edition and read back.
fn value(rt: &impl Print, edition: u8, p: Plan) {
    number(rt, "  by value in edition ", u64::from(edition));
    text(rt, ": ");
    match plan_writer::round_trip::reread(edition, p) {
        Ok(r) => {
            counts(rt, r.edition, r.plan.n, r.plan.m);
            ends(rt, r.plan);
        }
        Err(q) => {
            refusal(rt, q);
            ends(rt, no_plan());
        }
    }
}

fn trips(rt: &impl Print, file: &[u8]) {
    into(rt, "  into 2: ", file, 2);
    into(rt, "  into 257: ", file, 257);
    by_list(rt, file);
    let p = match read_plan(file) {
        Ok(r) => r.plan,
        Err(_) => no_plan(),
    };
    value(rt, 1, p);
    value(rt, 2, p);
}

// ---- the files

// Reads until the buffer is full, the input ends or a read fails, and answers how many bytes it put at the buffer's start.
fn read_full(input: &mut impl io::Read, space: &mut [u8]) -> usize
    ensures { result ≤ length space.new }
{
    let mut done = 0;
    while done < space.len() {
        match input.read(&mut space[done..]) {
            Ok(0) | Err(_) => break,
            Ok(n) => done += n,
        }
    }
    done
}

// What a file's first 4,096 bytes hold: the longest plan has 1,475.
fn contents(rt: &impl Print, input: &mut impl io::Read) {
    let mut space = [0u8; 4096];
    let n = read_full(input, &mut space);
    trips(rt, &space[..n]);
}

fn opened(rt: &(impl Files + Print + Eprint), path: &str) {
    match OpenOptions::new().read(true).open(rt, path) {
        Ok(mut file) => {
            text(rt, path);
            text(rt, "\n");
            contents(rt, &mut file);
        }
        Err(error) => {
            let _ = eprintln!(rt; "{path}: {error}");
        }
    }
}

// The file that an argument names, and whether there is one. A path longer than the buffer is an empty one; one that is not UTF-8 cannot
// be opened.
fn named(rt: &(impl Env + Files + Print + Eprint), k: usize) -> bool {
    let mut space = [0u8; 4096];
    let n = match rt.arg(k, &mut space) {
        Ok(n) => n,
        Err(FillError::NotPresent) => return false,
        Err(FillError::TooLong) => 0,
    };
    match str::from_utf8(&space[..n]) {
        Ok(path) => opened(rt, path),
        Err(_) => {
            let _ = eprintln!(rt; "argument {k}: no path in UTF-8");
        }
    }
    true
}

// What no file gives: no record, one record too many, and an edition that is none.
fn limits(rt: &impl Print) {
    text(rt, "nines\n");
    rewritten(rt, 1, 10, nines(), 0);
    rewritten(rt, 2, 10, nines(), 257);
    rewritten(rt, 3, 10, nines(), 257);
}

fn main(rt: HostRuntime) {
    limits(&rt);
    for k in 1..usize::MAX {
        if !named(&rt, k) {
            break;
        }
    }
}
