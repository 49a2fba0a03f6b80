// Reading and writing plan files, for callers in other languages. An answer is one number: minus
// the refusal's number, or what was asked for.
ghost use Rattle.std.specs.Prelude.{◌≡◌};
ghost use Rattle.postman.specs.PlanFile.{read_answer, write_answer, bytes_after};
ghost use Rattle.plan_file.specs.Reading.{plan_in};
ghost use Rattle.encoding.specs.RecordBytes.{arcs_in};
ghost use Rattle.answers.specs.Number.{one_number};
ghost use Rattle.file_exports.specs.Codec.{lent_after, lent_plan};
ghost use Rattle.answers.specs.FileNumber.{packed};

use answers::file_number::{edition_of, read_number, vertices_of, written_number};
use encoding::record_bytes::{load_records, store_arcs};
use plan::Arc;
use plan_file::Reading;
use plan_file::reader::read_plan;
use record_writer::writer::{no_records, write_arcs};
use records::reader::{arcs_read, room_answer};
use refusal::Refusal;

// The records that were read; zeros in a refusal.
#[tactic(auto, unfolding(plan::specs::Records::plan_record, plan::specs::Records::records_of))]
fn arcs_of(reading: Result<Reading, Refusal>) -> [Arc; 256]
    ensures { result ≡ (plan_in reading).arcs }
{
    match reading {
        Ok(read) => read.plan.arcs,
        Err(_) => no_records(),
    }
}

// Reading, from any bytes into any list of records, seven bytes each: 65,536 times the edition, and 512 n + m, with the
// file's arcs in the list from its start and the bytes after them untouched; or minus the number of the first refusal by
// document 01's order, with every byte untouched.
pub fn postman_read_plan(plan: &[u8], records: &mut [u8]) -> i64
    ensures { (result ≡ one_number (packed (read_answer plan.now (arcs_in records.old))))
        × (records.new ≡ lent_after plan.now records.old) }
{
    let reading = read_plan(plan);
    let read = room_answer(reading, records.len() / 7);
    store_arcs(arcs_of(reading), arcs_read(read), records);
    read_number(read)
}

// Writing in any edition, from any n and any list of records, seven bytes each, into any slice: the file's length, with
// the file in the slice from its start and the bytes after it untouched; or minus the number of the first refusal by
// document 01's order, with every byte untouched.
pub fn postman_write_plan(edition: u32, n: u32, records: &[u8], bytes: &mut [u8]) -> i64
    ensures { (result ≡ one_number (write_answer edition (lent_plan n records.now) bytes.old))
        × (bytes.new ≡ bytes_after edition (lent_plan n records.now) bytes.old) }
{
    let arcs = load_records(records);
    let e = edition_of(edition);
    let written = write_arcs(e, vertices_of(n), records.len() / 7, arcs, bytes);
    written_number(written)
}
