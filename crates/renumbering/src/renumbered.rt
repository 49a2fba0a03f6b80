// What a plan call is made with under a numbering: the plan, its tables of distances and weights; and the multipliers carried back.
// Steps for other crates, which ask something of their caller.
ghost use Rattle.std.specs.Prelude.{◌≡◌, [], ℕ, ◌<◌, get_or, length};
ghost use Rattle.plan.specs.GoodPlan.{good_plan};
ghost use Rattle.plan.specs.Records.{plan_value, arc_value, record_of};
ghost use Rattle.postman.specs.Renumbering.{number_in, renumbered_arc, renumbered};
ghost use Rattle.renumbering.specs.Renumbered.{Inside, IsRenumberedRow, IsRenumberedTable, carried_in};

use plan::good_plan::GoodPlan;
use plan::{Arc, Plan};

// An arc between the new numbers of its ends.
fn renumber_arc(a: Arc, to: &[u8; 64]) -> Arc
    requires { (a.tail < 64) × (a.head < 64) × (length to.now ≡ 64) }
    ensures { result ≡ record_of (renumbered_arc (number_in to.now) (arc_value a)) }
{
    Arc {
        tail: to[usize::from(a.tail)],
        head: to[usize::from(a.head)],
        ..a
    }
}

// The plan under a numbering.
pub fn renumber(good: &GoodPlan, to: &[u8; 64]) -> Plan
    requires { length to.now ≡ 64 }
    ensures { plan_value result ≡ renumbered (good_plan good.now) (number_in to.now) }
{
    let mut arcs = [Arc::ZERO; 256];
    for (k, a) in good.plan.arcs[..usize::from(good.plan.m)]
        .iter()
        .enumerate()
    {
        arcs[k] = renumber_arc(*a, to);
    }
    Plan { arcs, ..good.plan }
}

// What stands in the places that the numbers say.
fn entries<T: Copy>(xs: &[T; 64], numbers: &[u8; 64]) -> [T; 64]
    requires { Inside numbers.now }
    ensures { (k : ℕ) (d : T) → k < 64 → get_or result k d ≡ get_or xs.now (number_in numbers.now k) d }
{
    std::array::from_fn(
        |k| -> T
            requires { (k < 64) × Inside numbers.now }
            ensures { (d : T) → result ≡ get_or xs.entry.now (number_in numbers.entry.now k) d }
        { xs[usize::from(numbers[k])] },
    )
}

// A table of distances or of weights by new numbers: it is not computed again.
pub fn renumber_table(table: &[[u32; 64]; 64], from: &[u8; 64]) -> [[u32; 64]; 64]
    requires { Inside from.now }
    ensures { IsRenumberedTable from.now table.now result }
{
    std::array::from_fn(
        |i|
            requires { (i < 64) × Inside from.now }
            ensures { IsRenumberedRow from.entry.now (get_or table.entry.now (number_in from.entry.now i) []) result }
        { entries(&table[usize::from(from[i])], from) },
    )
}

// Multipliers carried back: what those of the renumbered plan give to each vertex by its new number.
pub fn carry(u: [i64; 64], to: &[u8; 64]) -> [i64; 64]
    requires { Inside to.now }
    ensures { result ≡ carried_in to.now u }
{
    entries(&u, to)
}
