// A tree that costs less than a drive that is known, among so many trees of a plan of which the first have none; and the floor.
// Steps for other crates, which ask something of their caller.
ghost use Rattle.call_steps.specs.Tabled.{measured_plan};
ghost use Rattle.std.specs.Prelude.{◌≡◌};
ghost use Rattle.std.proofs.Math.Option.{none};
ghost use Rattle.call_steps.specs.Refusals.{plan_refusal};
ghost use Rattle.preparation.specs.Prepared.{prepared_plan};
ghost use Rattle.tree_search.specs.Improved.{CanImprove};
ghost use Rattle.held_tree.specs.Cheaper.{IsCheaper};

use call_steps::measured::Measured;
use preparation::prepare::prepare;
use preparation::prepared::Prepared;
use solution::solve::floor_found;
use tree_search::begin::begin;
use tree_search::improve::improve;
use tree_search::trees::Reached;

// The best tree and how many were tried, the floor, the multipliers, and how many trees there are, by a count that ends at 4,294,967,296.
#[derive(Clone, Copy)]
pub struct Found {
    pub best: Reached,
    pub floor: i64,
    pub multipliers: [i64; 64],
    pub number: u64,
}

// Of a plan that is prepared.
fn cheaper_prepared(p: &Prepared<'_>, cost: u64, before: u32, tries: u32) -> Found
    requires { CanImprove (prepared_plan p.now) cost before tries }
    ensures { IsCheaper (prepared_plan p.now) cost tries result }
{
    let b = begin(p);
    let s = improve(p, &b, cost, before, tries);
    let floor = floor_found(p, s.whole, s.cost);
    let (tails, heads, multipliers) = (s.tails, s.heads, p.parts.multipliers);
    Found {
        best: Reached {
            cost: s.cost,
            tails,
            heads,
            tried: s.tried,
        },
        floor,
        multipliers,
        number: b.number,
    }
}

// The same, from the table of the plan's distances.
pub fn cheaper_tabled(m: &Measured<'_>, cost: u64, before: u32, tries: u32) -> Found
    requires { (plan_refusal (measured_plan m.now) ≡ none)
        × CanImprove (measured_plan m.now) cost before tries }
    ensures { IsCheaper (measured_plan m.now) cost tries result }
{
    let net = network::network::network_of(m.good, m.table);
    let parts = prepare(m.good, m.table, net);
    let p = Prepared {
        good: m.good,
        table: m.table,
        parts: &parts,
    };
    cheaper_prepared(&p, cost, before, tries)
}
