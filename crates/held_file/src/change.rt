// One arc of a plan file changed: the plan is read, changed and written again in its edition.
ghost use Rattle.std.specs.Prelude.{◌≡◌, ◌<◌, ◌≤◌};
ghost use Rattle.postman.specs.PlanFile.{file_of};
ghost use Rattle.postman.specs.OpenPlan.{changed_plan, change_refusal};
ghost use Rattle.plan.specs.Records.{plan_value};
ghost use Rattle.held_file.specs.Change.{change_in, file_change_refusal, changed_file};
ghost use Rattle.held_file.specs.Held.{file_in, IsHeld};

use crate::Held;
use crate::file::{held_length, write_held};
use plan::{Arc, Plan};
use plan_file::reader::read_plan;
use refusal::Refusal;

// Which arc is changed, and what it becomes.
#[derive(Clone, Copy, Debug, PartialEq, Eq)]
pub struct Change {
    pub arc: u32,
    pub cost: u16,
    pub service: u16,
    pub standing: u8,
}

// The arc gets other costs and another standing.
fn changed_plan(mut plan: Plan, c: Change) -> Plan
    requires { (c.arc < plan.m) × (plan.m ≤ 256) }
    ensures { plan_value result ≡ changed_plan (plan_value plan) (change_in c) }
{
    let k = c.arc as usize;
    plan.arcs[k] = Arc {
        standing: c.standing,
        cost: c.cost,
        service: c.service,
        ..plan.arcs[k]
    };
    plan
}

// 14 for an arc that the plan does not have, else what writing the changed plan answers.
fn change_plan(edition: u8, plan: Plan, c: Change) -> Result<Held, Refusal>
    requires { plan.m ≤ 256 }
    ensures { IsHeld (change_refusal edition (plan_value plan) (change_in c))
        (file_of edition (changed_plan (plan_value plan) (change_in c))) result }
{
    if u32::from(plan.m) <= c.arc {
        return Err(Refusal::Foreign);
    }
    write_held(edition, changed_plan(plan, c))
}

// A file that does not read is refused for what reading refuses.
pub fn changed_file(held: Held, c: Change) -> Result<Held, Refusal>
    ensures { IsHeld (file_change_refusal (file_in held) (change_in c)) (changed_file (file_in held) (change_in c)) result }
{
    let reading = read_plan(&held.file[..held_length(held)])?;
    change_plan(reading.edition, reading.plan, c)
}
