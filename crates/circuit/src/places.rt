// The places of the legs: a required arc has its number, another leg the arcs of the path of fewest arcs.
ghost use Rattle.std.specs.Prelude.{◌≡◌, ℕ, ◌+◌, ◌<◌, ◌≤◌, length, get_or};
ghost use Rattle.postman.specs.Plan.{WellFormed};
ghost use Rattle.plan.specs.Rows.{plan_in};
ghost use Rattle.paths.specs.ShortestPath.{shortest_path};
ghost use Rattle.paths.specs.Leaving.{IsLeavingChain};
ghost use Rattle.shortest.specs.StepContracts.{AreRows, overwrite};
ghost use Rattle.drive_legs.specs.Drive.{leg_places, places_of, written, HavePaths};

use paths::path::{chain_of, column_to, path};

// The legs, as they are lent: the numbers of the required arcs, which come first, and the tails and the heads of all.
#[derive(Clone, Copy)]
pub(crate) struct Legs<'a> {
    pub(crate) numbers: &'a [u16],
    pub(crate) tails: &'a [u8],
    pub(crate) heads: &'a [u8],
}

// Writes leg e into the places from `at` on, and answers the place after it.
fn write_leg(
    arcs: &[[u16; 5]],
    chain: &[u16; 320],
    weights: &[[u32; 64]],
    legs: &Legs<'_>,
    e: usize,
    places: &mut [u16],
    at: usize,
) -> usize
    requires well_formed { WellFormed (plan_in (length weights.now) arcs.now) × AreRows (plan_in (length weights.now) arcs.now) weights.now
        × IsLeavingChain arcs.now chain.now }
    requires have_paths { (e < length legs.now.tails.now) × (length legs.now.heads.now ≡ length legs.now.tails.now)
        × HavePaths (plan_in (length weights.now) arcs.now) legs.now.numbers.now legs.now.tails.now legs.now.heads.now }
    requires room { at
        + length (leg_places (shortest_path (plan_in (length weights.now) arcs.now)) legs.now.numbers.now legs.now.tails.now
        legs.now.heads.now e)
        ≤ length places.old }
    ensures places_written { places.new
        ≡ overwrite places.old at
        (leg_places (shortest_path (plan_in (length weights.now) arcs.now)) legs.now.numbers.now legs.now.tails.now
        legs.now.heads.now e) }
    ensures next_place { result ≡ at
        + length (leg_places (shortest_path (plan_in (length weights.now) arcs.now)) legs.now.numbers.now
        legs.now.tails.now legs.now.heads.now e) }
{
    if e < legs.numbers.len() {
        places[at] = legs.numbers[e];
        return at + 1;
    }
    let i = usize::from(legs.tails[e]);
    let j = usize::from(legs.heads[e]);
    let column = column_to(weights, j);
    path(arcs, chain, &column[..weights.len()], i, j, places, at)
}

// Writes the legs in their order from the start of the places on, and answers how many places
// that are. Paths are looked up along the chain.
fn write_legs(
    arcs: &[[u16; 5]],
    chain: &[u16; 320],
    weights: &[[u32; 64]],
    legs: &Legs<'_>,
    order: &[u16],
    places: &mut [u16],
) -> usize
    requires well_formed { WellFormed (plan_in (length weights.now) arcs.now) × AreRows (plan_in (length weights.now) arcs.now) weights.now
        × IsLeavingChain arcs.now chain.now }
    requires in_range { (x : ℕ) → x < length order.now → get_or order.now x 0 < length legs.now.tails.now }
    requires have_paths { (length legs.now.heads.now ≡ length legs.now.tails.now)
        × HavePaths (plan_in (length weights.now) arcs.now) legs.now.numbers.now legs.now.tails.now legs.now.heads.now }
    requires room { length
        (places_of (shortest_path (plan_in (length weights.now) arcs.now)) legs.now.numbers.now legs.now.tails.now
        legs.now.heads.now order.now)
        ≤ length places.old }
    ensures places_written { places.new
        ≡ written (places_of (shortest_path (plan_in (length weights.now) arcs.now)) legs.now.numbers.now
        legs.now.tails.now legs.now.heads.now order.now) places.old }
    ensures place_count { result ≡ length
        (places_of (shortest_path (plan_in (length weights.now) arcs.now)) legs.now.numbers.now legs.now.tails.now
        legs.now.heads.now order.now) }
{
    let mut at = 0;
    for e in order {
        at = write_leg(arcs, chain, weights, legs, usize::from(*e), places, at);
    }
    at
}

// The same: the chain of the arcs is made once for all legs.
pub(crate) fn write(
    arcs: &[[u16; 5]],
    weights: &[[u32; 64]],
    legs: &Legs<'_>,
    order: &[u16],
    places: &mut [u16],
) -> usize
    requires well_formed { WellFormed (plan_in (length weights.now) arcs.now)
        × AreRows (plan_in (length weights.now) arcs.now) weights.now }
    requires in_range { (x : ℕ) → x < length order.now → get_or order.now x 0 < length legs.now.tails.now }
    requires have_paths { (length legs.now.heads.now ≡ length legs.now.tails.now)
        × HavePaths (plan_in (length weights.now) arcs.now) legs.now.numbers.now legs.now.tails.now legs.now.heads.now }
    requires room { length
        (places_of (shortest_path (plan_in (length weights.now) arcs.now)) legs.now.numbers.now legs.now.tails.now
        legs.now.heads.now order.now)
        ≤ length places.old }
    ensures places_written { places.new
        ≡ written (places_of (shortest_path (plan_in (length weights.now) arcs.now)) legs.now.numbers.now
        legs.now.tails.now legs.now.heads.now order.now) places.old }
    ensures place_count { result ≡ length
        (places_of (shortest_path (plan_in (length weights.now) arcs.now)) legs.now.numbers.now legs.now.tails.now
        legs.now.heads.now order.now) }
{
    let chain = chain_of(arcs);
    write_legs(arcs, &chain, weights, legs, order, places)
}
