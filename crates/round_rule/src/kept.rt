// What the rounds so far have found.
// Steps for other crates, which ask something of their caller.
ghost use Rattle.std.specs.Prelude.{◌≡◌, ◌-◌, ◌≤◌, pos};
ghost use Rattle.std.specs.Int.Signed.{le_z};
ghost use Rattle.renumbering.specs.Renumbered.{carried_in, Inside};
ghost use Rattle.round_rule.specs.Rounds.{begun, with_drive, with_floor, with_base, counted};

use crate::trial::{Chosen, Trial};
use held_tree::cheaper::Found;
use renumbering::numbering::identity;
use renumbering::renumbered::carry;

// The least cost with what it was found with, the greatest floor with the same and its multipliers, which are carried back, the search that
// is gone on with and how many trees are left of it, the trees of all rounds, and where the generator stands.
#[derive(Clone, Copy)]
pub struct Kept {
    pub drive: Trial,
    pub cost: u64,
    pub bound: Trial,
    pub floor: i64,
    pub multipliers: [i64; 64],
    pub base: Trial,
    pub left: u64,
    pub trees: u32,
    pub random: u64,
}

// The first round is the plan call's, and its answer is all there is.
pub fn begin(a: Found, budget: u32) -> Kept
    ensures { result ≡ begun budget a.best.cost a.floor a.multipliers (a.number - budget) a.best.tried }
{
    let first = Trial {
        numbering: identity(),
        tries: budget,
    };
    let multipliers = a.multipliers;
    Kept {
        drive: first,
        cost: a.best.cost,
        bound: first,
        floor: a.floor,
        multipliers,
        base: first,
        left: a.number.saturating_sub(u64::from(budget)),
        trees: a.best.tried,
        random: 1,
    }
}

// A drive that is cheaper is kept, with what it was found with.
fn cheaper(k: Kept, x: Trial, cost: u64) -> Kept
    ensures { result ≡ with_drive x cost k }
{
    if cost < k.cost {
        return Kept {
            drive: x,
            cost,
            ..k
        };
    }
    k
}

// A greater floor is kept, with what it was found with and its multipliers.
fn tighter(k: Kept, x: Trial, floor: i64, u: [i64; 64]) -> Kept
    ensures { result ≡ with_floor x floor u k }
{
    if k.floor < floor {
        return Kept {
            bound: x,
            floor,
            multipliers: u,
            ..k
        };
    }
    k
}

// A search of which no more trees are left is kept: the rounds go on there.
fn nearer(k: Kept, x: Trial, left: u64) -> Kept
    ensures { result ≡ with_base x left k }
{
    if k.left < left {
        return k;
    }
    Kept { base: x, left, ..k }
}

// The trees of a round are counted, and the generator goes on.
fn count(k: Kept, trees: u32, random: u64) -> Kept
    requires { (k.trees ≤ 1000000000) × (trees ≤ 1000000000) }
    ensures { result ≡ counted trees random k }
{
    Kept {
        trees: k.trees + trees,
        random,
        ..k
    }
}

// What is kept of a round.
pub fn kept_of(k: Kept, c: Chosen, a: Found, trees: u32) -> Kept
    requires { (k.trees ≤ 1000000000) × (trees ≤ 1000000000) × Inside c.trial.numbering.to }
    ensures { result ≡ counted trees c.random
        (with_base c.trial (a.number - c.trial.tries)
        (with_floor c.trial a.floor (carried_in c.trial.numbering.to a.multipliers)
        (with_drive c.trial a.best.cost k))) }
{
    let x = c.trial;
    let d = cheaper(k, x, a.best.cost);
    let t = tighter(d, x, a.floor, carry(a.multipliers, &x.numbering.to));
    let f = nearer(t, x, a.number.saturating_sub(u64::from(x.tries)));
    count(f, trees, c.random)
}

// Whether floor and cost meet.
pub fn have_met(cost: u64, floor: i64) -> bool
    requires { cost ≤ 4611686018427387904 }
    ensures { result ≡ le_z (pos cost) floor }
{
    cost as i64 <= floor
}
