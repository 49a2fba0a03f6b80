// The drive: the legs laid, put in order, and written.
// Steps for other crates, which ask something of their caller.
ghost use Rattle.std.specs.Prelude.{◌≡◌, ◌≤◌, length};
ghost use Rattle.postman.specs.PlanCall.{sheet_places};
ghost use Rattle.plan.specs.GoodPlan.{good_plan};
ghost use Rattle.paths.specs.ShortestPath.{shortest_path};
ghost use Rattle.shortest.specs.StepContracts.{AreWeights};
ghost use Rattle.hierholzer.specs.Circuit.{circuit};
ghost use Rattle.hierholzer.specs.Eulerian.{Eulerian};
ghost use Rattle.drive_legs.specs.Legs.{Completes};
ghost use Rattle.drive_legs.specs.Drive.{places_of, drive, written, HavePaths};
ghost use Rattle.drive_legs.specs.Filled.{links_of};

use crate::places::{Legs, write};
use drive_legs::legs::lay;
use hierholzer::hierholzer::arrange;
use plan::good_plan::GoodPlan;

// Writes the legs in the order of their circuit. What a leg needs of the plan and of the table of weights is lent to it.
fn write_circuit(
    good: &GoodPlan,
    weights: &[[u32; 64]; 64],
    legs: &Legs<'_>,
    order: &mut [u16],
    places: &mut [u16],
) -> usize
    requires weighed { AreWeights (good_plan good.now) weights.now }
    requires has_circuit { (length legs.now.tails.now ≤ 526) × (length order.old ≡ length legs.now.tails.now)
        × Eulerian legs.now.tails.now legs.now.heads.now }
    requires have_paths { HavePaths (good_plan good.now) legs.now.numbers.now legs.now.tails.now legs.now.heads.now }
    requires room { length (places_of (shortest_path (good_plan good.now)) legs.now.numbers.now legs.now.tails.now legs.now.heads.now
        (circuit legs.now.tails.now legs.now.heads.now))
        ≤ length places.old }
    ensures places_written { places.new
        ≡ written (places_of (shortest_path (good_plan good.now)) legs.now.numbers.now legs.now.tails.now legs.now.heads.now
        (circuit legs.now.tails.now legs.now.heads.now)) places.old }
    ensures place_count { result ≡ length
        (places_of (shortest_path (good_plan good.now)) legs.now.numbers.now legs.now.tails.now legs.now.heads.now
        (circuit legs.now.tails.now legs.now.heads.now)) }
{
    arrange(legs.tails, legs.heads, order);
    let arcs = plan::rows::rows_of(good.plan);
    let rows: &[[u32; 64]] = weights;
    write(
        &arcs[..usize::from(good.plan.m)],
        &rows[..usize::from(good.plan.n)],
        legs,
        order,
        places,
    )
}

// Writes the drive that the required arcs, the links of an arborescence and the amounts that balance them make, by the table of
// weights, and answers how many places it has.
pub fn write_drive(
    good: &GoodPlan,
    weights: &[[u32; 64]; 64],
    link_tails: &[u8],
    link_heads: &[u8],
    amounts: &[u16; 4096],
    places: &mut [u16],
) -> usize
    requires weighed { AreWeights (good_plan good.now) weights.now }
    requires completing { (length link_heads.now ≡ length link_tails.now)
        × Completes (good_plan good.now) (links_of link_tails.now link_heads.now) amounts.now }
    requires room { sheet_places ≤ length places.old }
    ensures places_written { places.new
        ≡ written (drive (good_plan good.now) (links_of link_tails.now link_heads.now) amounts.now)
        places.old }
    ensures place_count { result ≡ length (drive (good_plan good.now) (links_of link_tails.now link_heads.now) amounts.now) }
{
    let laid = lay(good, link_tails, link_heads, amounts);
    let legs = Legs {
        numbers: laid.numbers(),
        tails: laid.tails(),
        heads: laid.heads(),
    };
    let mut order = [0; 526];
    write_circuit(good, weights, &legs, &mut order[..legs.tails.len()], places)
}
