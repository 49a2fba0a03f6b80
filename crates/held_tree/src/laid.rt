// The drive of a tree that is held.
// Steps for other crates, which ask something of their caller.
ghost use Rattle.call_steps.specs.Tabled.{tabled_plan};
ghost use Rattle.std.specs.Prelude.{◌≡◌, ◌-◌, ◌≤◌, length};
ghost use Rattle.std.proofs.Math.Option.{none};
ghost use Rattle.postman.specs.Component.{component_count};
ghost use Rattle.postman.specs.PlanCall.{sheet_places};
ghost use Rattle.branches.specs.Links.{links_in};
ghost use Rattle.drive_legs.specs.Drive.{written};
ghost use Rattle.multipliers.specs.Drive.{tree_drive};
ghost use Rattle.call_steps.specs.Refusals.{plan_refusal};
ghost use Rattle.tree_search.specs.Resumed.{HoldsTree};

use call_steps::tabled::Tabled;
use preparation::prepare::prepare;
use preparation::prepared::Prepared;
use solution::lay::lay_held;

// The places written, and the number of components.
#[derive(Clone, Copy)]
pub struct Laid {
    pub places: usize,
    pub parts: u8,
}

// From the tables of the plan's distances and weights.
pub fn lay_tabled(t: &Tabled<'_>, tails: [u8; 8], heads: [u8; 8], sheet: &mut [u16]) -> Laid
    requires { (plan_refusal (tabled_plan t.now) ≡ none) × HoldsTree (tabled_plan t.now) tails heads × (sheet_places ≤ length sheet.old) }
    ensures { (sheet.new ≡ written (tree_drive (tabled_plan t.now)
        (links_in (component_count (tabled_plan t.now) - 1) tails heads)) sheet.old)
        × (result.places ≡ length (tree_drive (tabled_plan t.now) (links_in (component_count (tabled_plan t.now) - 1) tails heads)))
        × (result.parts ≡ component_count (tabled_plan t.now)) }
{
    let net = network::network::network_of(t.good, t.table);
    let parts = prepare(t.good, t.table, net);
    let p = Prepared {
        good: t.good,
        table: t.table,
        parts: &parts,
    };
    let places = lay_held(&p, t.weights, tails, heads, sheet);
    Laid {
        places,
        parts: net.components,
    }
}
