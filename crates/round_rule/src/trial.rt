// What a round is made with.
// Steps for other crates, which ask something of their caller.
ghost use Rattle.std.specs.Prelude.{◌≡◌, ◌≤◌};
ghost use Rattle.plan.specs.GoodPlan.{good_plan};
ghost use Rattle.round_rule.specs.Rounds.{is_gone_on, gone_on, numbers_of, exchanged_by, next_round};
ghost use Rattle.round_rule.specs.Trial.{GoesOn};

use crate::kept::Kept;
use plan::good_plan::GoodPlan;
use renumbering::numbering::Numbering;
use renumbering::shuffle::{Drawn, shuffle};

// A numbering, and how many trees are tried under it in all.
#[derive(Clone, Copy)]
pub struct Trial {
    pub numbering: Numbering,
    pub tries: u32,
}

// The next round: what it is made with, and where the generator stands.
#[derive(Clone, Copy)]
pub struct Chosen {
    pub trial: Trial,
    pub random: u64,
}

// Whether a round goes on with the search that is kept, of which so many trees are left.
#[tactic(auto, using(crate::specs::Laws::Made::of_rounds))]
fn goes_on(round: u32, left: u64) -> bool
    ensures { result ≡ is_gone_on round left }
{
    if left <= 100_000_000 {
        round % 2 == 0
    } else {
        1_000_000_000 < left && round % 8 == 0
    }
}

// A round that goes on: the next trees of the search that is kept.
fn further(budget: u32, k: Kept) -> Chosen
    requires { (k.base.tries ≤ 999000000) × (budget ≤ 1000000) }
    ensures { result ≡ gone_on budget k }
{
    let held = k.base;
    Chosen {
        trial: Trial {
            tries: held.tries + budget,
            ..held
        },
        random: k.random,
    }
}

// The numbering that is exchanged in: that search's, or the cheapest drive's where no number of rounds could try all that are left.
fn numbers_of(k: Kept) -> Numbering
    ensures { result ≡ numbers_of k }
{
    if 1_000_000_000 < k.left {
        k.drive.numbering
    } else {
        k.base.numbering
    }
}

// Any other: that numbering, with two exchanges.
fn exchanges(good: &GoodPlan, budget: u32, k: Kept) -> Chosen
    requires { GoesOn (good_plan good.now) k }
    ensures { result ≡ exchanged_by (good_plan good.now) budget k }
{
    let before = Drawn {
        numbering: numbers_of(k),
        random: k.random,
    };
    let d = shuffle(before, u64::from(good.plan.n), 2);
    Chosen {
        trial: Trial {
            numbering: d.numbering,
            tries: budget,
        },
        random: d.random,
    }
}

// The next round.
pub fn choose(good: &GoodPlan, budget: u32, round: u32, k: Kept) -> Chosen
    requires { GoesOn (good_plan good.now) k × (budget ≤ 1000000) }
    ensures { result ≡ next_round (good_plan good.now) budget round k }
{
    if goes_on(round, k.left) {
        further(budget, k)
    } else {
        exchanges(good, budget, k)
    }
}
