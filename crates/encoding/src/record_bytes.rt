// A record crosses the border as seven bytes: tail, head, standing, and the cost and the service cost, each with its high byte first. Every
// seven bytes are a record, so none is out of range.
// Steps for other crates, which ask something of their caller.
ghost use Rattle.std.specs.Prelude.{◌≡◌, ◌+◌, ◌*◌, ◌/◌, ◌≤◌, length, drop};
ghost use mathlib.Core.List.{◌++◌, map, flat_map};
ghost use Rattle.postman.specs.Lists.{below};
ghost use Rattle.plan.specs.Records.{arc_value, record_of, record_at};
ghost use Rattle.record_writer.specs.Writing.{loaded};
ghost use Rattle.encoding.specs.RecordBytes.{arc_bytes, number_in, arc_in, arcs_in, with_arc};

use crate::number_bytes::{put_bytes, put_number};
use plan::Arc;
use record_writer::writer::{at_most, no_records};

// Two bytes as a number, the high one first.
pub fn number_at(lent: &[u8], at: usize) -> u16
    requires { at + 2 ≤ length lent.now }
    ensures { result ≡ number_in lent.now at }
{
    u16::from_be_bytes([lent[at], lent[at + 1]])
}

// The record whose bytes start at `at`.
pub(crate) fn record_at(lent: &[u8], at: usize) -> Arc
    requires { at + 7 ≤ length lent.now }
    ensures { result ≡ record_of (arc_in lent.now at) }
{
    Arc {
        tail: lent[at],
        head: lent[at + 1],
        standing: lent[at + 2],
        cost: number_at(lent, at + 3),
        service: number_at(lent, at + 5),
    }
}

// The seven bytes from `at` on become the record's.
pub(crate) fn put_record(lent: &mut [u8], at: usize, a: Arc)
    requires { at + 7 ≤ length lent.old }
    ensures { lent.new ≡ with_arc lent.old at (arc_value a) }
{
    put_bytes(lent, at, &[a.tail, a.head, a.standing]);
    put_number(lent, at + 3, a.cost);
    put_number(lent, at + 5, a.service);
}

// The first m records become those of the first m arcs.
pub fn store_arcs(arcs: [Arc; 256], m: usize, lent: &mut [u8])
    requires { (m ≤ 256) × (m ≤ length lent.old / 7) }
    ensures { lent.new ≡ flat_map arc_bytes (map (record_at arcs) (below m)) ++ drop (7 * m) lent.old }
{
    for (k, a) in arcs[..m].iter().enumerate() {
        put_record(lent, 7 * k, *a);
    }
}

// The records that are lent, at most 256, and zeros after them.
pub fn load_records(lent: &[u8]) -> [Arc; 256]
    ensures { result ≡ loaded (map record_of (arcs_in lent.now)) }
{
    let count = at_most(lent.len() / 7, 256);
    let mut arcs = no_records();
    for k in 0..count {
        arcs[k] = record_at(lent, 7 * k);
    }
    arcs
}
