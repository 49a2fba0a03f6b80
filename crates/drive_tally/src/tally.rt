// The cost of a list of arcs, and the must arcs that it misses. A flag for each arc says whether it
// is due: a must arc that was not passed yet.
// Steps for other crates, which ask something of their caller.
ghost use Rattle.std.specs.Prelude.{◌≡◌, false, cond, ◌≤◌, ◌<◌, ◌^◌, length};
ghost use Rattle.postman.specs.Plan.{required_numbers};
ghost use Rattle.postman.specs.Drive.{drive_cost};
ghost use Rattle.postman.specs.Judge.{has_foreign};
ghost use Rattle.drive_tally.specs.Rows.{plan_over};
ghost use Rattle.drive_tally.specs.Tally.{AreDue, has_flag, IsTally};

#[derive(Clone, Copy)]
pub struct Tally {
    pub cost: u32,
    pub due: [bool; 256],
}

// At first the must arcs are due.
pub fn required_flags(arcs: &[[u16; 5]]) -> [bool; 256]
    requires { length arcs.now ≤ 256 }
    ensures { AreDue result (required_numbers (plan_over arcs.now)) }
{
    let mut due = [false; 256];
    for (k, arc) in arcs.iter().enumerate() {
        due[k] = arc[2] == 1;
    }
    due
}

// Whether some arc is due.
pub fn has_flag(due: [bool; 256]) -> bool
    ensures { result ≡ has_flag due }
{
    for flag in &due {
        if *flag {
            return true;
        }
    }
    false
}

// "One checking pass of each must arc plus plain cost for every other pass."
fn pass_cost(cost: u16, service: u16, due: bool) -> u32
    ensures { result ≡ cond due service cost }
{
    if due { service as u32 } else { cost as u32 }
}

// The cost of the list, and the flags of the must arcs that are still due at its end.
pub fn priced(arcs: &[[u16; 5]], required: [bool; 256], places: &[u16]) -> Tally
    requires none_foreign { has_foreign (plan_over arcs.now) places.now ≡ false }
    requires cost_fits { (length arcs.now ≤ 256) × (drive_cost (plan_over arcs.now) places.now < 2 ^ 32)
        × AreDue required (required_numbers (plan_over arcs.now)) }
    ensures { IsTally (plan_over arcs.now) places.now result }
{
    let mut due = required;
    let mut cost: u32 = 0;
    for place in places {
        let k = *place as usize;
        cost += pass_cost(arcs[k][3], arcs[k][4], due[k]);
        due[k] = false;
    }
    Tally { cost, due }
}
