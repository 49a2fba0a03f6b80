// One round after another.
// Steps for other crates, which ask something of their caller.
ghost use Rattle.call_steps.specs.Tabled.{measured_plan};
ghost use Rattle.std.specs.Prelude.{◌≡◌, cond, ◌-◌, ◌≤◌, ltb};
ghost use Rattle.std.proofs.Math.Option.{none};
ghost use Rattle.call_steps.specs.Refusals.{plan_refusal};
ghost use Rattle.round_rule.specs.Rounds.{next_kept, kept_after};
ghost use Rattle.round_rule.specs.Trial.{GoesOn};
ghost use Rattle.rounds.specs.Held.{IsHeld};

use crate::under::cheaper_under;
use call_steps::measured::Measured;
use held_tree::cheaper::cheaper_tabled;
use round_rule::kept::{Kept, begin, have_met, kept_of};
use round_rule::trial::choose;
use tree_search::begin::tried_count;
use tree_search::trees::Reached;

// What is kept, with the tree of the drive.
#[derive(Clone, Copy)]
pub struct Deep {
    pub kept: Kept,
    pub drive: Reached,
}

// The first of two where a number is smaller than another.
fn chosen_of(a: u64, b: u64, new: Reached, old: Reached) -> Reached
    ensures { result ≡ cond (ltb a b) new old }
{
    if a < b { new } else { old }
}

// The next round: a tree that is cheaper than the drive that is kept, among those that were not tried under its numbering.
fn next_round(m: &Measured<'_>, budget: u32, round: u32, d: Deep) -> Deep
    requires has_table { (plan_refusal (measured_plan m.now) ≡ none) × GoesOn (measured_plan m.now) d.kept
        × IsHeld (measured_plan m.now) d }
    requires within_limits { (1 ≤ budget) × (budget ≤ 1000000) }
    ensures { (result.kept ≡ next_kept (measured_plan m.now) budget round d.kept) × IsHeld (measured_plan m.now) result }
{
    let k = d.kept;
    let c = choose(m.good, budget, round, k);
    let x = c.trial;
    let before = x.tries - budget;
    let a = cheaper_under(m, x, k.cost, before);
    let old = tried_count(a.number, before);
    Deep {
        kept: kept_of(k, c, a, a.best.tried - old),
        drive: chosen_of(a.best.cost, k.cost, a.best, d.drive),
    }
}

// The first round, which is the plan call's but for its drive. No tree costs as much as 4,000,000,000,000.
pub fn first_round(m: &Measured<'_>, budget: u32) -> Deep
    requires { (plan_refusal (measured_plan m.now) ≡ none) × (1 ≤ budget) × (budget ≤ 1000000) }
    ensures { (result.kept ≡ kept_after (measured_plan m.now) budget 0) × IsHeld (measured_plan m.now) result }
{
    let a = cheaper_tabled(m, 4_000_000_000_000, 0, budget);
    Deep {
        kept: begin(a, budget),
        drive: a.best,
    }
}

// The rounds after the first, until floor and cost meet.
pub fn deepen(m: &Measured<'_>, budget: u32, rounds: u32, first: Deep) -> Deep
    requires has_table { (plan_refusal (measured_plan m.now) ≡ none)
        × (first.kept ≡ kept_after (measured_plan m.now) budget 0) × IsHeld (measured_plan m.now) first }
    requires within_limits { (1 ≤ budget) × (budget ≤ 1000000) × (1 ≤ rounds) × (rounds ≤ 1000) }
    ensures { (result.kept ≡ kept_after (measured_plan m.now) budget (rounds - 1)) × IsHeld (measured_plan m.now) result }
{
    let mut d = first;
    for i in 1..rounds {
        if have_met(d.kept.cost, d.kept.floor) {
            return d;
        }
        d = next_round(m, budget, i + 1, d);
    }
    d
}
