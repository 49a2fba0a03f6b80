// From a plan to bytes: the first refusal, or the file.
ghost use Rattle.std.specs.Prelude.{◌≡◌, true, ◌++◌, ◌+◌, ◌*◌, ◌<◌, ◌≤◌, length, replicate, drop};
ghost use Rattle.postman.specs.PlanFile.{is_edition, arc_width, file_bits, file_length, file_of, write_refusal, write_answer, bytes_after};
ghost use Rattle.refusal.specs.Verdict.{verdict_number};
ghost use Rattle.plan_writer.specs.Writing.{written_answer};
ghost use Rattle.plan.specs.Records.{arc_value, record_at, plan_value};
ghost use Rattle.plan_writer.specs.PlanUpdate.{put_header, put_core, put_arc, put_arcs};

use crate::Written;
use arc_rules::rules::is_outside;
use arc_rules::verdicts::all_records_verdict;
use bits::put_field;
use plan::{Arc, Plan};
use plan_arcs::arcs::file_bits;
use plan_file::reader::{file_length, is_edition};
use refusal::{Refusal, Verdict};

// The first refusal from n and m on, of a plan that is to be written where there is room for `room` bytes.
fn content_verdict(edition: u8, p: Plan, room: usize) -> Verdict
    requires { is_edition edition ≡ true }
    ensures { verdict_number result ≡ write_refusal edition (plan_value p) room }
{
    let m = p.m as usize;
    if is_outside(p.n as u32, 1, 64) {
        return Err(Refusal::Extent);
    }
    if is_outside(p.m as u32, 1, 256) {
        return Err(Refusal::Extent);
    }
    all_records_verdict(edition, p.n, m, p.arcs)?;
    if room < file_length(edition, m) {
        return Err(Refusal::ShortSheet);
    }
    Ok(())
}

// The first refusal of a plan that is to be written in an edition where there is room for `room` bytes.
fn plan_verdict(edition: u8, p: Plan, room: usize) -> Verdict
    ensures { verdict_number result ≡ write_refusal edition (plan_value p) room }
{
    if !is_edition(edition) {
        return Err(Refusal::Edition);
    }
    content_verdict(edition, p, room)
}

// The first `count` bytes become zero.
fn clear(s: &mut [u8], count: usize)
    requires { count ≤ length s.old }
    ensures { s.new ≡ replicate count 0 ++ drop count s.old }
{
    s[..count].fill(0);
}

// Edition, n and m.
fn put_header(s: &mut [u8], edition: u8, n: u32, m: u32)
    requires { 3 ≤ length s.old }
    ensures { s.new ≡ put_header s.old edition n m }
{
    put_field(s, 0, 4, edition as u32);
    put_field(s, 4, 7, n);
    put_field(s, 11, 9, m);
}

// The fields of edition 1 of an arc, from bit `at` on.
fn put_core(s: &mut [u8], at: usize, a: Arc)
    requires { (at + 30 ≤ 8 * length s.old) × (at ≤ 11800) }
    ensures { s.new ≡ put_core s.old at (arc_value a) }
{
    put_field(s, at, 6, a.tail as u32);
    put_field(s, at + 6, 6, a.head as u32);
    put_field(s, at + 12, 2, a.standing as u32);
    put_field(s, at + 14, 16, a.cost as u32);
}

// The fields of an arc, from bit `at` on.
fn put_arc(s: &mut [u8], edition: u8, at: usize, a: Arc)
    requires { (at + arc_width edition ≤ 8 * length s.old) × (at ≤ 11800) }
    ensures { s.new ≡ put_arc s.old edition at (arc_value a) }
{
    put_core(s, at, a);
    if edition == 2 {
        put_field(s, at + 30, 16, a.service as u32);
    }
}

// The first m records, one after the other.
fn put_arcs(s: &mut [u8], edition: u8, arcs: [Arc; 256], m: usize)
    requires { (m ≤ 256) × (file_bits edition m ≤ 8 * length s.old) }
    ensures { s.new ≡ put_arcs s.old edition (record_at arcs) m }
{
    for (k, a) in arcs[..m].iter().enumerate() {
        put_arc(s, edition, file_bits(edition, k), *a);
    }
}

// The file of a plan that is not refused, at the start of the slice.
fn put_plan(s: &mut [u8], edition: u8, p: Plan)
    requires { (p.m ≤ 256) × (file_length edition p.m ≤ length s.old) }
    ensures { s.new ≡ file_of edition (plan_value p) ++ drop (file_length edition p.m) s.old }
{
    let m = p.m as usize;
    clear(s, file_length(edition, m));
    put_header(s, edition, p.n as u32, p.m as u32);
    put_arcs(s, edition, p.arcs, m);
}

// Writing in an edition, into any slice: the first refusal by document 01's order, with the slice untouched; or
// the file's length, with the file in the slice.
pub fn write_plan(edition: u8, p: Plan, s: &mut [u8]) -> Written
    ensures answered { written_answer result ≡ write_answer edition (plan_value p) s.old }
    ensures bytes_written { s.new ≡ bytes_after edition (plan_value p) s.old }
{
    plan_verdict(edition, p, s.len())?;
    put_plan(s, edition, p);
    Ok(file_length(edition, p.m as usize))
}
