// What is written is read back.
ghost use Rattle.plan_writer.specs.Reread.{IsReread};

use crate::writer::write_plan;
use plan::Plan;
use plan_file::Reading;
use plan_file::reader::read_plan;
use refusal::Refusal;

// What is read from the file of p in an edition: that edition and p itself, or the refusal of
// writing it. Every file has room in 1,475 bytes.
pub fn reread(edition: u8, p: Plan) -> Result<Reading, Refusal>
    ensures { IsReread edition p result }
{
    let mut bytes = [0u8; 1475];
    match write_plan(edition, p, &mut bytes) {
        Ok(n) => read_plan(&bytes[..n]),
        Err(r) => Err(r), // by a match and no `?`, so that an edit of the refusal leaves all else
    }
}
