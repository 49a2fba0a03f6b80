// Lists that are the first records of an array: for callers that hold arrays, whose contracts say nothing of a lent list.
ghost use Rattle.std.specs.Prelude.{◌≡◌, map, ◌++◌, ◌≤◌, take, drop};
ghost use Rattle.postman.specs.PlanFile.{read_answer, records_after, write_answer, bytes_after};
ghost use Rattle.plan.specs.Records.{arc_value};
ghost use Rattle.plan_writer.specs.Writing.{written_answer};
ghost use Rattle.records.specs.Reading.{read_numbers};
ghost use Rattle.record_writer.specs.Writing.{list_plan};

use crate::reader::{Read, read_records};
use plan::Arc;
use plan_writer::Written;
use record_writer::writer::{at_most, write_records};

// One record more than a plan may have.
#[derive(Clone, Copy)]
pub struct Filled {
    pub read: Read,
    pub arcs: [Arc; 257],
}

fn read_first(bytes: &[u8], arcs: [Arc; 257], room: usize) -> Filled
    requires { room ≤ 257 }
    ensures { (read_numbers result.read ≡ read_answer bytes.now (map arc_value (take room arcs)))
        × (map arc_value result.arcs ≡ records_after bytes.now (map arc_value (take room arcs)) ++ map arc_value (drop room arcs)) }
{
    let mut list = arcs;
    let read = read_records(bytes, &mut list[..room]);
    Filled { read, arcs: list }
}

// Reading into the first `room` records of the array, or into all where there are fewer; the others stay.
pub fn read_array(bytes: &[u8], arcs: [Arc; 257], room: usize) -> Filled
    ensures { (read_numbers result.read ≡ read_answer bytes.now (map arc_value (take room arcs)))
        × (map arc_value result.arcs ≡ records_after bytes.now (map arc_value (take room arcs)) ++ map arc_value (drop room arcs)) }
{
    read_first(bytes, arcs, at_most(room, 257))
}

fn write_first(edition: u8, n: u8, arcs: [Arc; 257], m: usize, bytes: &mut [u8]) -> Written
    requires { m ≤ 257 }
    ensures { (written_answer result ≡ write_answer edition (list_plan n (take m arcs)) bytes.old)
        × (bytes.new ≡ bytes_after edition (list_plan n (take m arcs)) bytes.old) }
{
    write_records(edition, n, &arcs[..m], bytes)
}

// Writing the first m records of the array, or all where there are fewer.
pub fn write_array(edition: u8, n: u8, arcs: [Arc; 257], m: usize, bytes: &mut [u8]) -> Written
    ensures { (written_answer result ≡ write_answer edition (list_plan n (take m arcs)) bytes.old)
        × (bytes.new ≡ bytes_after edition (list_plan n (take m arcs)) bytes.old) }
{
    write_first(edition, n, arcs, at_most(m, 257), bytes)
}
