// The label of each vertex: required arcs merge the labels of their ends, so that each required
// vertex has the lowest vertex of its component.
ghost use Rattle.std.specs.Prelude.{◌≡◌, ℕ, ◌<◌, length, get_or};
ghost use Rattle.plan.specs.GoodPlan.{good_plan};
ghost use Rattle.plan.specs.Records.{arc_value};
ghost use Rattle.components.specs.Labels.{rename, label_after, Labelled};

use plan::Arc;
use plan::good_plan::GoodPlan;

// A label once `from` is called `to`.
fn renamed(label: u8, from: u8, to: u8) -> u8
    ensures { result ≡ rename from to label }
{
    if label == from { to } else { label }
}

fn rename_all(labels: [u8; 64], from: u8, to: u8) -> [u8; 64]
    ensures { (length result ≡ 64) × ((v : ℕ) → v < 64 → get_or result v 0 ≡ rename from to (get_or labels v 0)) }
{
    std::array::from_fn(|v| renamed(labels[v], from, to))
}

// The labels once the arc is counted: a required arc merges the labels of its ends.
fn merged(labels: [u8; 64], a: Arc) -> [u8; 64]
    requires { (a.tail < 64) × (a.head < 64) × (length labels ≡ 64) }
    ensures { (length result ≡ 64) × ((v : ℕ) → v < 64 → get_or result v 0 ≡ label_after (arc_value a) labels v) }
{
    if plan::is_required(a) {
        let x = labels[usize::from(a.tail)];
        let y = labels[usize::from(a.head)];
        rename_all(labels, x.max(y), x.min(y))
    } else {
        labels
    }
}

fn own_labels() -> [u8; 64]
    ensures { (length result ≡ 64) × ((v : ℕ) → v < 64 → get_or result v 0 ≡ v) }
{
    std::array::from_fn(|v| v as u8)
}

// For each required vertex the lowest vertex of its component.
pub(crate) fn labels_of(good: &GoodPlan) -> [u8; 64]
    ensures { Labelled (good_plan good.now) (length (good_plan good.now).arcs) result }
{
    let mut labels = own_labels();
    for a in &good.plan.arcs[..usize::from(good.plan.m)] {
        let next = merged(labels, *a);
        labels = next;
    }
    labels
}
