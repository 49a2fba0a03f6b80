// A plan file by value.
// Steps for other crates, which ask something of their caller.
ghost use Rattle.std.specs.Prelude.{◌≡◌, [], ◌≤◌, length, take};
ghost use Rattle.postman.specs.PlanFile.{file_of, write_refusal};
ghost use Rattle.postman.specs.OpenPlan.{longest_file};
ghost use Rattle.plan.specs.Records.{plan_value};
ghost use Rattle.held_file.specs.Held.{file_in, held_of, IsHeld};

use crate::Held;
use plan::Plan;
use plan_writer::writer::write_plan;
use record_writer::writer::at_most;
use refusal::Refusal;

// How many of its bytes are the file that is held; a length above 1,475 counts as 1,475.
pub fn held_length(h: Held) -> usize
    ensures { (result ≤ length h.file) × (take result h.file ≡ file_in h) }
{
    at_most(h.length, 1_475)
}

// No file.
#[tactic(auto, unfolding(crate::specs::Held::held_of))]
pub fn no_file() -> Held
    ensures { result ≡ held_of [] }
{
    Held {
        length: 0,
        file: [0u8; 1475],
    }
}

// A file by value.
pub fn hold(file: &[u8]) -> Held
    requires { length file.now ≤ longest_file }
    ensures { result ≡ held_of file.now }
{
    let mut bytes = [0u8; 1475];
    bytes[..file.len()].copy_from_slice(file);
    Held {
        length: file.len(),
        file: bytes,
    }
}

// The file of a plan in an edition, or the writer's refusal. Every file has room in 1,475 bytes.
pub fn write_held(edition: u8, plan: Plan) -> Result<Held, Refusal>
    ensures { IsHeld (write_refusal edition (plan_value plan) longest_file) (file_of edition (plan_value plan)) result }
{
    let mut file = [0u8; 1475];
    let length = write_plan(edition, plan, &mut file)?;
    Ok(Held { length, file })
}
