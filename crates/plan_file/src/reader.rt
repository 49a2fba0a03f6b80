// From bytes to a plan: the first refusal, or the plan.
// Besides the calls, steps for other crates, which ask something of their caller.
ghost use Rattle.std.specs.Prelude.{◌≡◌, map, ◌+◌, ◌*◌, ◌<◌, ◌≤◌, length};
ghost use Rattle.std.proofs.Math.Option.{none};
ghost use Rattle.postman.specs.Lists.{below};
ghost use Rattle.postman.specs.Refusal.{first_refusal};
ghost use Rattle.postman.specs.PlanFile.{edition, is_edition, arc_width, file_bits, file_length, fill_bits, arc_of, file_conditions, plan_of};
ghost use Rattle.refusal.specs.Verdict.{verdict_number};
ghost use Rattle.plan.specs.Records.{record_of, records_of, plan_record};
ghost use Rattle.plan_file.specs.Reading.{margin_conditions, extent_on, frame_conditions, has_arc, record_in, IsReading};

use crate::Reading;
use arc_rules::rules::is_outside;
use arc_rules::verdicts::all_records_verdict;
use bits::reader::take_at;
use plan::{Arc, Plan};
use plan_arcs::arcs::{arc_fields, file_bits};
use refusal::{Refusal, Verdict};

// The bytes of a file of m arcs.
pub fn file_length(edition: u8, m: usize) -> usize
    requires { m ≤ 256 }
    ensures { result ≡ file_length edition m }
{
    file_bits(edition, m).div_ceil(8)
}

// The file's edition, whatever it is.
pub fn file_edition(s: &[u8]) -> u8
    ensures { result ≡ edition s.now }
{
    take_at(s, 0, 4).field as u8
}

// Whether it is one of the two that are read and written.
pub fn is_edition(e: u8) -> bool
    ensures { result ≡ is_edition e }
{
    e == 1 || e == 2
}

// The bits after the last arc, as a number.
fn fill_bits(s: &[u8], edition: u8, m: usize) -> u32
    requires { (m ≤ 256) × (file_length edition m ≤ length s.now) }
    ensures { result ≡ fill_bits s.now edition m }
{
    let at = file_bits(edition, m);
    let end = 8 * file_length(edition, m);
    take_at(s, at, end - at).field
}

// The first refusal of the length and the margin, once m is within its limits.
fn margin_verdict(s: &[u8], edition: u8, m: usize) -> Verdict
    requires { m ≤ 256 }
    ensures { verdict_number result ≡ first_refusal (margin_conditions s.now edition m) }
{
    let needed = file_length(edition, m);
    if s.len() < needed {
        return Err(Refusal::Torn);
    }
    if needed < s.len() {
        return Err(Refusal::Margin);
    }
    if fill_bits(s, edition, m) != 0 {
        return Err(Refusal::Margin);
    }
    Ok(())
}

// "1 to 64", "1 to 256": the first refusal from n and m on, before the arcs.
fn extent_verdict(s: &[u8], edition: u8) -> Verdict
    requires { 3 ≤ length s.now }
    ensures { verdict_number result ≡ first_refusal (extent_on s.now edition) }
{
    let n = take_at(s, 4, 7).field;
    if is_outside(n, 1, 64) {
        return Err(Refusal::Extent);
    }
    let m = take_at(s, 11, 9).field;
    if is_outside(m, 1, 256) {
        return Err(Refusal::Extent);
    }
    margin_verdict(s, edition, m as usize)
}

// The first refusal of a file's frame: of all that is looked at before its arcs.
fn frame_verdict(s: &[u8]) -> Verdict
    ensures { verdict_number result ≡ first_refusal (frame_conditions s.now) }
{
    if s.len() < 3 {
        return Err(Refusal::Torn);
    }
    let edition = file_edition(s);
    if !is_edition(edition) {
        return Err(Refusal::Edition);
    }
    extent_verdict(s, edition)
}

// The record of arc k of the file.
fn read_arc(s: &[u8], edition: u8, k: usize) -> Arc
    requires { (k < 256) × (file_bits edition k + arc_width edition ≤ 8 * length s.now) }
    ensures { result ≡ record_of (arc_of s.now edition k) }
{
    let f = arc_fields(s, edition, k);
    Arc {
        tail: f.tail as u8,
        head: f.head as u8,
        standing: f.standing as u8,
        cost: f.cost as u16,
        service: f.service as u16,
    }
}

// Whether the file has room for arc k.
fn has_arc(s: &[u8], edition: u8, k: usize) -> bool
    ensures { result ≡ has_arc s.now edition k }
{
    k <= 255 && file_bits(edition, k + 1).div_ceil(8) <= s.len()
}

// The record of arc k, in the file's own edition; zeros where the file has no room for it.
pub fn file_arc(s: &[u8], k: usize) -> Arc
    ensures { result ≡ record_in s.now k }
{
    let e = file_edition(s);
    if has_arc(s, e, k) {
        read_arc(s, e, k)
    } else {
        Arc::ZERO
    }
}

// The records of the m arcs of the file, and zeros after them.
fn read_arcs(s: &[u8], edition: u8, m: usize) -> [Arc; 256]
    requires { (m ≤ 256) × (file_bits edition m ≤ 8 * length s.now) }
    ensures { result ≡ records_of (map (arc_of s.now edition) (below m)) }
{
    let mut arcs = [Arc::ZERO; 256];
    for k in 0..m {
        arcs[k] = read_arc(s, edition, k);
    }
    arcs
}

// The plan of a file whose frame is good.
fn framed_plan(s: &[u8]) -> Plan
    requires { first_refusal (frame_conditions s.now) ≡ none }
    ensures { result ≡ plan_record (plan_of s.now) }
{
    let edition = file_edition(s);
    let n = take_at(s, 4, 7).field;
    let m = take_at(s, 11, 9).field;
    let arcs = read_arcs(s, edition, m as usize);
    Plan {
        n: n as u8,
        m: m as u16,
        arcs,
    }
}

// Reading, once the frame is good. The records that the verdict on the arcs is about are those of the plan: each arc is decoded once.
fn read_framed(s: &[u8]) -> Result<Reading, Refusal>
    requires { first_refusal (frame_conditions s.now) ≡ none }
    ensures { IsReading s.now result }
{
    let edition = file_edition(s);
    let plan = framed_plan(s);
    all_records_verdict(edition, plan.n, plan.m as usize, plan.arcs)?;
    Ok(Reading { edition, plan })
}

// Reading, from any bytes: the first refusal by document 01's order, or the edition and the plan.
pub fn read_plan(s: &[u8]) -> Result<Reading, Refusal>
    ensures { IsReading s.now result }
{
    frame_verdict(s)?;
    read_framed(s)
}

// The first refusal of a file, in document 01's order.
pub fn file_verdict(s: &[u8]) -> Verdict
    ensures { verdict_number result ≡ first_refusal (file_conditions s.now) }
{
    read_plan(s)?;
    Ok(())
}
