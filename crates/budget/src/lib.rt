// The budget of the plan call: how many trees it tries at most.
#![tactic(auto)]

ghost use Rattle.std.specs.Prelude.{◌≡◌};
ghost use Rattle.postman.specs.PlanCall.{default_budget};
ghost use Rattle.budget.specs.Checks.{checked_of, InRange};

use refusal::Refusal;

#[derive(Clone, Copy, Debug, PartialEq, Eq)]
pub struct Budget {
    pub trees: u32,
}

impl Budget {
    // "a constant belonging to the budget type": "The short call's budget becomes 100,000."
    pub const DEFAULT: u32 = 100_000;

    // "budget B from 1 to 1,000,000"
    pub const HIGHEST: u32 = 1_000_000;

    // The budget of n trees, whatever number the caller has, or refusal 9.
    #[tactic(auto, using(crate::specs::Laws::of_number), unfolding(postman::specs::PlanCall::highest_budget))]
    pub fn new(n: u64) -> Result<Budget, Refusal>
        ensures { result ≡ checked_of n }
    {
        if n == 0 || u64::from(Budget::HIGHEST) < n {
            return Err(Refusal::Budget);
        }
        Ok(Budget { trees: n as u32 })
    }

    // The short call's budget.
    pub fn standard() -> Budget
        ensures { (result.trees ≡ default_budget) × InRange result }
    {
        Budget {
            trees: Budget::DEFAULT,
        }
    }
}
