// A cheapest tree, by sets of components, and a step along its links.
// Steps for other crates, which ask something of their caller.
ghost use Rattle.std.specs.Prelude.{◌≡◌, cond, ◌&&◌, ◌^◌, ◌<◌, ◌≤◌, pos, ◌+ℤ◌, ◌-ℤ◌};
ghost use Rattle.std.specs.Int.Signed.{lt_z};
ghost use Rattle.residual_search.specs.Search.{beyond};
ghost use Rattle.multiplier_steps.specs.Steps.{capped as cappedTo};
ghost use Rattle.ascent_tree.specs.Tree.{holds, entry as entry_of, joined, enter as enterBy, extend as extendBy, grown, shifted, walk_back, along};

use arborescence::reach::single;
use multiplier_steps::steps::capped;

// Whether component q is in the set s.
fn is_in(s: u64, q: usize) -> bool
    requires { q < 8 }
    ensures { result ≡ holds s q }
{
    s & single(q) != 0
}

// Whether component p is in the set s, and its offer is below the lowest so far.
fn undercuts(s: u64, p: usize, c: i64, low: i64) -> bool
    requires { p < 8 }
    ensures { result ≡ (holds s p && lt_z c low) }
{
    is_in(s, p) && c < low
}

// Where q is entered from, out of the set s. The lowest offer is held beside the component that makes it.
fn entry(m: &[i64; 64], s: u64, q: usize) -> usize
    requires { q < 8 }
    ensures { (result ≡ entry_of m.now s q) × (result < 8) }
{
    let mut r: usize = 0;
    let mut low = m[q];
    for p in 0..8usize {
        let c = m[p * 8 + q];
        if undercuts(s, p, c, low) {
            low = c;
            r = p;
        }
    }
    r
}

// The set s with component q, by its place.
fn place_with(s: u64, q: usize) -> usize
    requires { (s < 256) × (q < 8) }
    ensures { (result ≡ joined s q) × (result < 256) }
{
    ((s + single(q)) / 2) as usize
}

// The sum of two costs.
fn sum(a: i64, b: i64) -> i64
    ensures { result ≡ cappedTo a +ℤ cappedTo b }
{
    capped(a) + capped(b)
}

// q is entered from the set s, unless it is in it.
fn enter(m: &[i64; 64], s: u64, q: usize, cost: &mut [i64; 256], from: &mut [u8; 256])
    requires { (s < 256) × (q < 8) }
    ensures { (cost.new, from.new) ≡ enterBy m.now s (cost.old, from.old) q }
{
    if is_in(s, q) {
        return;
    }
    let p = entry(m, s, q);
    let here = (s / 2) as usize;
    let there = place_with(s, q);
    let c = sum(cost[here], m[p * 8 + q]);
    if c < cost[there] {
        cost[there] = c;
        from[there] = (p * 8 + q) as u8;
    }
}

// Each component that is not in set number i is entered from it.
fn extend(m: &[i64; 64], i: usize, cost: &mut [i64; 256], from: &mut [u8; 256])
    requires { i < 128 }
    ensures { (cost.new, from.new) ≡ extendBy m.now (cost.old, from.old) i }
{
    let s = (2 * i + 1) as u64;
    for q in 1..8 {
        enter(m, s, q, cost, from);
    }
}

// For each set the least cost, and the last entry.
#[derive(Clone, Copy)]
pub struct Sets {
    pub cost: [i64; 256],
    pub from: [u8; 256],
}

// The first n sets, from component 0 alone.
pub fn grow(m: &[i64; 64], n: usize) -> Sets
    requires { n ≤ 128 }
    ensures { (result.cost, result.from) ≡ grown m.now n }
{
    let mut cost: [i64; 256] = [1_099_511_627_776; 256];
    let mut from: [u8; 256] = [0; 256];
    cost[0] = 0;
    for i in 0..n {
        extend(m, i, &mut cost, &mut from);
    }
    Sets { cost, from }
}

// A multiplier that rises by s.
fn rise(a: i64, s: u64) -> i64
    requires { s ≤ beyond }
    ensures { result ≡ cappedTo a +ℤ pos s }
{
    capped(a) + s as i64
}

// A multiplier that falls by s.
fn fall(a: i64, s: u64) -> i64
    requires { s ≤ beyond }
    ensures { result ≡ cappedTo a -ℤ pos s }
{
    capped(a) - s as i64
}

// The multipliers after a link: that of its head rises, that of its tail falls.
fn shift(x: &mut [i64; 64], pair: u16, s: u64)
    requires { s ≤ beyond }
    ensures { x.new ≡ shifted x.old pair s }
{
    let head = usize::from(pair % 64);
    let tail = usize::from(pair / 64 % 64);
    x[head] = rise(x[head], s);
    x[tail] = fall(x[tail], s);
}

// One link back from the set at place t.
fn walk_back(from: &[u8; 256], at: &[u16; 64], s: u64, x: &mut [i64; 64], t: usize) -> usize
    requires { (t < 256) × (s ≤ beyond) }
    ensures { ((x.new, result) ≡ walk_back from.now at.now s (x.old, t)) × (result < 256) }
{
    if t == 0 {
        return 0;
    }
    let e = usize::from(from[t]);
    shift(x, at[e % 64], s);
    t.saturating_sub(single(e % 8) as usize / 2)
}

// The multipliers after the links of the tree that reaches the set at place t.
pub fn follow(from: &[u8; 256], at: &[u16; 64], s: u64, x: &[i64; 64], t: usize) -> [i64; 64]
    requires { (t < 256) × (s ≤ beyond) }
    ensures { result ≡ along from.now at.now s x.now t }
{
    let mut y = *x;
    let mut left = t;
    for _ in 0..7usize {
        left = walk_back(from, at, s, &mut y, left);
    }
    y
}
