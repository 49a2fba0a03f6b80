// The components: roots, which are the vertices that bear their own label, numbered from 0.
// Steps for other crates, which ask something of their caller.
ghost use Rattle.std.specs.Prelude.{◌≡◌, false, ◌&&◌, cond, ℕ, ◌<◌, eqb, get_or};
ghost use Rattle.plan.specs.GoodPlan.{good_plan};
ghost use Rattle.components.specs.Labels.{roots_below};
ghost use Rattle.required.specs.StepContracts.{IsRequiredFlags, IsComponents};

use crate::labels::labels_of;
use plan::good_plan::GoodPlan;

// How many roots are below each vertex, and how many there are.
#[derive(Clone, Copy)]
struct Ranks {
    below: [u8; 64],
    all: u8,
}

fn ranks_of(required: [bool; 64], labels: [u8; 64]) -> Ranks
    ensures { (result.all ≡ roots_below required labels 64) × ((v : ℕ) → v < 64 → get_or result.below v 0 ≡ roots_below required labels v) }
{
    let mut below = [0; 64];
    let mut all = 0;
    for (v, rank) in below.iter_mut().enumerate() {
        *rank = all;
        all += u8::from(required[v] && usize::from(labels[v]) == v);
    }
    Ranks { below, all }
}

// The number of each vertex's component.
fn numbers(required: [bool; 64], labels: [u8; 64], ranks: Ranks) -> [u8; 64]
    requires { (v : ℕ) → v < 64 → get_or labels v 0 < 64 }
    ensures { (v : ℕ) → v < 64
        → get_or result v 0 ≡ cond (get_or required v false) (get_or ranks.below (get_or labels v 0) 0) ranks.all }
{
    std::array::from_fn(|v| if required[v] {
        ranks.below[usize::from(labels[v])]
    } else {
        ranks.all
    })
}

// "Parts: the required vertices joined by must arcs, direction ignored; numbered from 0 by their lowest vertex. k is their number."
#[derive(Clone, Copy)]
pub struct Components {
    pub of: [u8; 64],
    pub count: u8,
}

pub fn components_of(good: &GoodPlan, required: [bool; 64]) -> Components
    requires { IsRequiredFlags (good_plan good.now) required }
    ensures { IsComponents (good_plan good.now) result.of result.count }
{
    let labels = labels_of(good);
    let ranks = ranks_of(required, labels);
    Components {
        of: numbers(required, labels, ranks),
        count: ranks.all,
    }
}
