// The state of a balancing, and arcs added to it.
// Steps for other crates, which ask something of their caller.
ghost use Rattle.std.specs.Prelude.{◌≡◌, ◌+◌, ◌<◌, ◌≤◌, length};
ghost use mathlib.Core.List.{Memᴰ};
ghost use Rattle.postman.specs.Steps.{cell};
ghost use Rattle.residual_search.specs.Step.{state_in, empty as empty_state, add as addState, add_all as addAllStates, arcs_of, IsAdded};
ghost use Rattle.balance.specs.Invariant.{Metric, Certified, AllIn, limit};
ghost use Rattle.balance.specs.Records.{state_of};

use crate::augment::{augment_along, raise_by};
use residual_search::lengths::Lengths;
use residual_search::search::{search_towards, settled_by};
use residual_search::vertex_list::VertexList;

// The amounts, at i * 64 + j what is sent from vertex i to vertex j, and the potentials that certify them, the
// amounts' cost, and how many arcs were counted.
#[derive(Clone, Copy)]
pub struct Balance {
    pub amounts: [u16; 4096],
    pub potentials: [u64; 64],
    pub cost: u64,
    pub count: u16,
}

// The state in which no arc is counted.
#[tactic(auto, unfolding(residual_search::specs::Step::empty))]
pub fn empty() -> Balance
    ensures { state_of result ≡ empty_state }
{
    Balance {
        amounts: [0; 4096],
        potentials: [0; 64],
        cost: 0,
        count: 0,
    }
}

// What one arc more comes to: the next vertices on the way of its unit, the potentials raised, and the cost.
#[derive(Clone, Copy)]
pub struct Added {
    pub next: [u8; 64],
    pub potentials: [u64; 64],
    pub cost: u64,
}

// One arc more, but for the amounts: the cheapest residual path for one unit more from its head to its tail, and
// what it does to the potentials and the cost.
pub fn price(
    f: &[u16; 4096],
    u: &[u64; 64],
    cost: u64,
    count: u16,
    d: &[[u32; 64]; 64],
    vs: &[u8],
    tail: u8,
    head: u8,
) -> Added
    requires { Metric (cell d.now) vs.now × Certified (cell d.now) vs.now (state_in f.now u.now cost count) × (count < limit)
        × Memᴰ tail vs.now × Memᴰ head vs.now }
    ensures { IsAdded (cell d.now) vs.now (state_in f.now u.now cost count) tail head result.next
        result.potentials result.cost }
{
    let last = settled_by(tail, head, vs.len());
    let list = VertexList { vertices: vs };
    let found = search_towards(Lengths { d, f, u }, list, tail, head, last);
    let h = usize::from(head);
    let potentials = raise_by(&found.distance, found.distance[h], u, list);
    let cost = (cost + potentials[h]).saturating_sub(potentials[usize::from(tail)]);
    Added {
        next: found.next,
        potentials,
        cost,
    }
}

// One arc more: one unit more is sent from its head to its tail. The amounts are changed in place.
pub fn add_in(
    f: &mut [u16; 4096],
    u: &[u64; 64],
    cost: u64,
    count: u16,
    d: &[[u32; 64]; 64],
    vs: &[u8],
    tail: u8,
    head: u8,
) -> Added
    requires { Metric (cell d.now) vs.now × Certified (cell d.now) vs.now (state_in f.old u.now cost count) × (count < limit)
        × Memᴰ tail vs.now × Memᴰ head vs.now }
    ensures { state_in f.new result.potentials result.cost (count + 1)
        ≡ addState (cell d.now) vs.now (state_in f.old u.now cost count) tail head }
{
    let added = price(f, u, cost, count, d, vs, tail, head);
    augment_along(f, &added.next, head, tail);
    added
}

// Arcs added one by one, in their order.
pub fn add_all(s: Balance, d: &[[u32; 64]; 64], vs: &[u8], tails: &[u8], heads: &[u8]) -> Balance
    requires { Metric (cell d.now) vs.now × Certified (cell d.now) vs.now (state_of s) × (length tails.now ≡ length heads.now)
        × (s.count + length tails.now ≤ limit) × AllIn vs.now tails.now × AllIn vs.now heads.now }
    ensures { (state_of result
        ≡ addAllStates (cell d.now) vs.now (state_of s) (arcs_of tails.now heads.now))
        × Certified (cell d.now) vs.now (state_of result) × (result.count ≡ s.count + length tails.now) }
{
    let Balance {
        mut amounts,
        mut potentials,
        mut cost,
        mut count,
    } = s;
    for (&tail, &head) in tails.iter().zip(heads) {
        let more = add_in(&mut amounts, &potentials, cost, count, d, vs, tail, head);
        potentials = more.potentials;
        cost = more.cost;
        count += 1;
    }
    Balance {
        amounts,
        potentials,
        cost,
        count,
    }
}
