// The arcs that are shut at a departure, and the plan with these arcs closed.
// Steps for other crates, which ask something of their caller.
ghost use Rattle.std.specs.Prelude.{◌≡◌, ◌≤◌};
ghost use Rattle.postman.specs.Windows.{windows_in, shuts as shuts_arc, is_shut, closed_if, plan_at, is_must_shut};
ghost use Rattle.plan.specs.Records.{arc_value, record_of, plan_value};
ghost use Rattle.shut_arcs.specs.Fields.{window_value, departure_value, departure};

use crate::window::{Departure, Window};
use plan::{Arc, Plan};

// "A window of that weekday shuts its arc when from ≤ t < to": whether a window shuts arc k.
#[tactic(auto, using(crate::specs::Laws::Shut::of_window))]
fn shuts(w: Window, departure: Departure, k: usize) -> bool
    ensures { result ≡ shuts_arc (departure_value departure) k (window_value w) }
{
    usize::from(w.arc) == k
        && u32::from(w.weekday) == departure.weekday
        && u32::from(w.from) <= departure.minute
        && departure.minute < u32::from(w.to)
}

// Whether one of the windows does.
fn is_shut(windows: &[u16], departure: Departure, k: usize) -> bool
    ensures { result ≡ is_shut (windows_in windows.now) (departure_value departure) k }
{
    (0..windows.len() / 4).any(|j| shuts(Window::at(windows, j), departure, k))
}

// 20 must shut: "a must arc is shut".
pub fn must_shut(plan: Plan, windows: &[u16], weekday: u32, minute: u32) -> bool
    requires { plan.m ≤ 256 }
    ensures { result ≡ is_must_shut (plan_value plan) (windows_in windows.now) (departure weekday minute) }
{
    let departure = Departure { weekday, minute };
    let arcs = &plan.arcs[..usize::from(plan.m)];
    arcs.iter().enumerate().any(|(k, a)| plan::is_required(*a) && is_shut(windows, departure, k))
}

// Arc k at a departure. "The arc then counts as closed."
#[tactic(auto, unfolding(postman::specs::Windows::closed_if))]
fn arc_at(a: Arc, windows: &[u16], departure: Departure, k: usize) -> Arc
    ensures { result ≡ record_of (closed_if (is_shut (windows_in windows.now) (departure_value departure) k) (arc_value a)) }
{
    if is_shut(windows, departure, k) {
        Arc { standing: 2, ..a }
    } else {
        a
    }
}

// The plan at a departure: the records behind its arcs are zeros, and no window is looked at for them.
pub fn plan_at(plan: Plan, windows: &[u16], weekday: u32, minute: u32) -> Plan
    requires { plan.m ≤ 256 }
    ensures { plan_value result ≡ plan_at (plan_value plan) (windows_in windows.now) (departure weekday minute) }
{
    let departure = Departure { weekday, minute };
    let mut arcs = [Arc::ZERO; 256];
    for (k, a) in plan.arcs[..usize::from(plan.m)].iter().enumerate() {
        arcs[k] = arc_at(*a, windows, departure, k);
    }
    Plan { arcs, ..plan }
}
