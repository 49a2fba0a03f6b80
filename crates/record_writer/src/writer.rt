// From a lent list of arc records to bytes.
ghost use Rattle.std.specs.Prelude.{◌≡◌, replicate};
ghost use Rattle.postman.specs.PlanFile.{write_answer, bytes_after};
ghost use Rattle.plan_writer.specs.Writing.{written_answer};
ghost use Rattle.plan.specs.Records.{zero_record, plan_value};
ghost use Rattle.record_writer.specs.Writing.{at_most, loaded, counted_plan, list_plan};

use plan::{Arc, Plan};
use plan_writer::Written;
use plan_writer::writer::write_plan;

// The lesser of two numbers.
pub fn at_most(n: usize, limit: usize) -> usize
    ensures { result ≡ at_most n limit }
{
    n.min(limit)
}

// 256 records of zeros.
pub fn no_records() -> [Arc; 256]
    ensures { result ≡ replicate 256 zero_record }
{
    [Arc::ZERO; 256]
}

// The records of the list, at most 256, and zeros after them.
fn load_records(records: &[Arc]) -> [Arc; 256]
    ensures { result ≡ loaded records.now }
{
    let count = at_most(records.len(), 256);
    let mut arcs = no_records();
    arcs[..count].copy_from_slice(&records[..count]);
    arcs
}

// Writing a plan of m records. There are 256: a longer list is refused for its length, whatever it holds.
pub fn write_arcs(edition: u8, n: u8, m: usize, arcs: [Arc; 256], bytes: &mut [u8]) -> Written
    ensures { (written_answer result ≡ write_answer edition (plan_value (counted_plan n m arcs)) bytes.old)
        × (bytes.new ≡ bytes_after edition (plan_value (counted_plan n m arcs)) bytes.old) }
{
    let count = at_most(m, 257);
    let plan = Plan {
        n,
        m: count as u16,
        arcs,
    };
    write_plan(edition, plan, bytes)
}

// Writing in an edition, from any list into any slice: the first refusal by document 01's order, with the slice untouched; or the file's
// length, with the file in the slice from its start and the bytes after it untouched.
pub fn write_records(edition: u8, n: u8, records: &[Arc], bytes: &mut [u8]) -> Written
    ensures { (written_answer result ≡ write_answer edition (list_plan n records.now) bytes.old)
        × (bytes.new ≡ bytes_after edition (list_plan n records.now) bytes.old) }
{
    let arcs = load_records(records);
    write_arcs(edition, n, records.len(), arcs, bytes)
}
