// 18, and the plan of a car.
// Steps for other crates, which ask something of their caller.
ghost use Rattle.std.specs.Prelude.{◌≡◌, ◌≤◌, length};
ghost use Rattle.postman.specs.Marks.{is_bad_mark, has_bad_mark, marked_service, marked as marked_arc, car_plan};
ghost use Rattle.plan.specs.Records.{arc_value, record_of, plan_value};

use plan::{Arc, Plan};

// "A mark isn't 0 or 1, or a closed arc is marked."
#[tactic(auto, using(crate::specs::Laws::Marks::above_one, crate::specs::Laws::Marks::one_by_closed, crate::specs::Laws::Marks::zero_good))]
fn is_bad_mark(mark: u8, a: Arc) -> bool
    ensures { result ≡ is_bad_mark mark (arc_value a) }
{
    1 < mark || mark == 1 && !plan::is_open(a)
}

// 18 bad marks.
#[tactic(auto, using(crate::specs::Laws::Marks::wrong_length))]
pub fn has_bad_mark(plan: Plan, marks: &[u8]) -> bool
    requires { plan.m ≤ 256 }
    ensures { result ≡ has_bad_mark (plan_value plan) marks.now }
{
    let m = usize::from(plan.m);
    marks.len() != m
        || marks
            .iter()
            .zip(&plan.arcs[..m])
            .any(|(mark, a)| is_bad_mark(*mark, *a))
}

// "A marked arc that has no checking cost uses its plain cost, even 0."
#[tactic(auto, using(crate::specs::Laws::Marks::of_charge))]
fn marked_service(mark: u8, a: Arc) -> u16
    ensures { result ≡ marked_service mark (arc_value a) }
{
    if mark != 1 {
        return 0;
    }
    if a.service == 0 { a.cost } else { a.service }
}

// The arc with a mark; a closed arc stays as it is.
#[tactic(auto, using(crate::specs::Laws::Marks::open_marked, crate::specs::Laws::Marks::closed_marked))]
fn marked(mark: u8, a: Arc) -> Arc
    ensures { result ≡ record_of (marked_arc mark (arc_value a)) }
{
    if plan::is_open(a) {
        Arc {
            standing: u8::from(mark == 1),
            service: marked_service(mark, a),
            ..a
        }
    } else {
        a
    }
}

// The plan of a car. The records behind its arcs are zeros.
pub fn car_plan(plan: Plan, marks: &[u8]) -> Plan
    requires { (plan.m ≤ 256) × (length marks.now ≡ plan.m) }
    ensures { plan_value result ≡ car_plan (plan_value plan) marks.now }
{
    let mut arcs = [Arc::ZERO; 256];
    for (k, a) in plan.arcs[..usize::from(plan.m)].iter().enumerate() {
        arcs[k] = marked(marks[k], *a);
    }
    Plan { arcs, ..plan }
}
