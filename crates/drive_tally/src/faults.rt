// Arcs that are foreign, and arcs that do not join. The plan's arcs are lent as rows: tail, head, standing, cost, service cost.
// Steps for other crates, which ask something of their caller.
ghost use Rattle.std.specs.Prelude.{◌≡◌, false};
ghost use Rattle.postman.specs.Judge.{is_foreign, has_foreign, is_unjoined};
ghost use Rattle.drive_tally.specs.Rows.{plan_over};

// 14 foreign: "number m or more, or closed".
fn is_foreign(arcs: &[[u16; 5]], k: usize) -> bool
    ensures { result ≡ is_foreign (plan_over arcs.now) k }
{
    arcs.len() <= k || 2 <= arcs[k][2]
}

// Anywhere in the list.
pub fn has_foreign(arcs: &[[u16; 5]], places: &[u16]) -> bool
    ensures { result ≡ has_foreign (plan_over arcs.now) places.now }
{
    for place in places {
        if is_foreign(arcs, *place as usize) {
            return true;
        }
    }
    false
}

// 15 unjoined, "the last to the first included": v is the head of the arc before.
pub fn is_unjoined(arcs: &[[u16; 5]], places: &[u16]) -> bool
    requires { has_foreign (plan_over arcs.now) places.now ≡ false }
    ensures { result ≡ is_unjoined (plan_over arcs.now) places.now }
{
    let Some((first, rest)) = places.split_first() else {
        return false;
    };
    let start = arcs[*first as usize][0];
    let mut v = arcs[*first as usize][1];
    for place in rest {
        let k = *place as usize;
        if v != arcs[k][0] {
            return true;
        }
        v = arcs[k][1];
    }
    v != start
}
