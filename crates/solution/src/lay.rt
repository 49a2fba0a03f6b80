// The drive of an arborescence.
// Steps for other crates, which ask something of their caller.
ghost use Rattle.std.specs.Prelude.{◌≡◌, ◌-◌, ◌≤◌, length};
ghost use Rattle.postman.specs.PlanCall.{sheet_places};
ghost use Rattle.shortest.specs.StepContracts.{AreWeights};
ghost use Rattle.postman.specs.Component.{component_count};
ghost use Rattle.branches.specs.Links.{links_in};
ghost use Rattle.drive_legs.specs.Filled.{links_of};
ghost use Rattle.drive_legs.specs.Drive.{written};
ghost use Rattle.multipliers.specs.Drive.{tree_drive};
ghost use Rattle.multipliers.specs.Prepared.{IsTree};
ghost use Rattle.preparation.specs.Prepared.{prepared_plan};
ghost use Rattle.tree_search.specs.Resumed.{HoldsTree};

use preparation::links::with_links;
use preparation::prepared::Prepared;

// Writes the drive of the arborescence with these links: they are added to the state of the required arcs, the amounts are made direct,
// and paths are found by the table of weights.
fn lay(
    p: &Prepared<'_>,
    weights: &[[u32; 64]; 64],
    tails: &[u8],
    heads: &[u8],
    sheet: &mut [u16],
) -> usize
    requires { IsTree (prepared_plan p.now) tails.now heads.now
        × (sheet_places ≤ length sheet.old) × AreWeights (prepared_plan p.now) weights.now }
    ensures sheet_written { sheet.new
        ≡ written (tree_drive (prepared_plan p.now) (links_of tails.now heads.now)) sheet.old }
    ensures place_count { result ≡ length (tree_drive (prepared_plan p.now) (links_of tails.now heads.now)) }
{
    let full = with_links(p, tails, heads);
    let amounts = direct_amounts::direct::direct_amounts(
        full,
        p.table,
        &p.parts.vertices.list[..p.parts.vertices.count],
    );
    circuit::drive::write_drive(p.good, weights, tails, heads, &amounts, sheet)
}

// The same of a tree that is held in arrays.
pub fn lay_held(
    p: &Prepared<'_>,
    weights: &[[u32; 64]; 64],
    tails: [u8; 8],
    heads: [u8; 8],
    sheet: &mut [u16],
) -> usize
    requires { HoldsTree (prepared_plan p.now) tails heads
        × (sheet_places ≤ length sheet.old) × AreWeights (prepared_plan p.now) weights.now }
    ensures sheet_written { sheet.new
        ≡ written (tree_drive (prepared_plan p.now) (links_in (component_count (prepared_plan p.now) - 1) tails heads)) sheet.old }
    ensures place_count { result
        ≡ length (tree_drive (prepared_plan p.now) (links_in (component_count (prepared_plan p.now) - 1) tails heads)) }
{
    let n = usize::from(p.parts.network.components) - 1;
    lay(p, weights, &tails[..n], &heads[..n], sheet)
}
