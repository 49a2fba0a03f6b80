// From bytes to a lent list of arc records.
ghost use Rattle.std.specs.Prelude.{◌≡◌, map, length};
ghost use Rattle.postman.specs.Refusal.{answer};
ghost use Rattle.postman.specs.PlanFile.{edition, arc_of, vertex_count, arc_count, read_refusal, read_answer, records_after};
ghost use Rattle.plan.specs.Records.{arc_value, record_of};
ghost use Rattle.record_writer.specs.Stored.{stored_to};
ghost use Rattle.records.specs.Reading.{read_numbers, room_answer, arcs_read, Room};

use plan::Arc;
use plan_file::Reading;
use plan_file::reader::{file_arc, read_plan};
use refusal::Refusal;

// "It answers n and m", and "the edition too".
#[derive(Clone, Copy, Debug, PartialEq, Eq)]
pub struct Header {
    pub edition: u8,
    pub n: u8,
    pub m: u16,
}

// What reading answers, or the refusal.
pub type Read = Result<Header, Refusal>;

// What a reading answers where there is room for `room` records.
pub fn room_answer(reading: Result<Reading, Refusal>, room: usize) -> Read
    ensures { read_numbers result ≡ room_answer reading room }
{
    let Reading { edition, plan } = reading?;
    if room < plan.m as usize {
        return Err(Refusal::ShortSheet);
    }
    Ok(Header {
        edition,
        n: plan.n,
        m: plan.m,
    })
}

// What reading answers where there is room for `room` records.
fn read_answer(bytes: &[u8], room: usize) -> Read
    ensures { read_numbers result
        ≡ answer (read_refusal bytes.now room)
        (edition bytes.now, vertex_count bytes.now, arc_count bytes.now) }
{
    room_answer(read_plan(bytes), room)
}

// How many records are stored: none in a refusal.
pub fn arcs_read(r: Read) -> usize
    ensures { result ≡ arcs_read r }
{
    match r {
        Ok(header) => header.m as usize,
        Err(_) => 0,
    }
}

// The first m records become those of the file's first m arcs.
fn store_arcs(bytes: &[u8], m: usize, records: &mut [Arc])
    requires { Room bytes.now (length records.old) m }
    ensures { records.new
        ≡ stored_to (λ k. record_of (arc_of bytes.now (edition bytes.now) k)) records.old m }
{
    for k in 0..m {
        records[k] = file_arc(bytes, k);
    }
}

// Reading, from any bytes into any list: the first refusal by document 01's order, with every record untouched; or the edition, n and m,
// with the file's arcs in the list from its start and the records from m on untouched.
pub fn read_records(bytes: &[u8], records: &mut [Arc]) -> Read
    ensures { (read_numbers result ≡ read_answer bytes.now (map arc_value records.old))
        × (map arc_value records.new ≡ records_after bytes.now (map arc_value records.old)) }
{
    let read = read_answer(bytes, records.len());
    store_arcs(bytes, arcs_read(read), records);
    read
}
