// The arcs of a plan as rows of five numbers: tail, head, standing, cost, service cost. Rows can be
// lent to a call, and no plan is copied for it.
// Steps for other crates, which ask something of their caller.
ghost use Rattle.std.specs.Prelude.{◌≡◌, ◌≤◌};
ghost use Rattle.plan.specs.Records.{arc_value};
ghost use Rattle.plan.specs.Rows.{row_of, rows_of};

use crate::{Arc, Plan};

fn row_of(a: Arc) -> [u16; 5]
    ensures { result ≡ row_of (arc_value a) }
{
    [
        u16::from(a.tail),
        u16::from(a.head),
        u16::from(a.standing),
        a.cost,
        a.service,
    ]
}

// The rows of the arcs; those from m on are zeros.
pub fn rows_of(plan: Plan) -> [[u16; 5]; 256]
    requires { plan.m ≤ 256 }
    ensures { result ≡ rows_of plan }
{
    let mut rows = [[0u16; 5]; 256];
    for (k, a) in plan.arcs[..plan.m as usize].iter().enumerate() {
        rows[k] = row_of(*a);
    }
    rows
}
