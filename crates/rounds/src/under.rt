// The search and the drive of a plan under a numbering, over the tables of the file's plan, which are renumbered and not computed again.
// Steps for other crates, which ask something of their caller.
ghost use Rattle.call_steps.specs.Tabled.{measured_plan, tabled_plan};
ghost use Rattle.std.specs.Prelude.{◌≡◌, ◌≤◌, length};
ghost use Rattle.std.proofs.Math.Option.{none};
ghost use Rattle.postman.specs.PlanCall.{sheet_places};
ghost use Rattle.postman.specs.Component.{component_count};
ghost use Rattle.drive_legs.specs.Drive.{written};
ghost use Rattle.multipliers.specs.Drive.{drive_of};
ghost use Rattle.call_steps.specs.Refusals.{plan_refusal};
ghost use Rattle.tree_search.specs.Improved.{CanImprove};
ghost use Rattle.held_tree.specs.Cheaper.{IsBest, IsCheaper};
ghost use Rattle.round_rule.specs.Rounds.{under};
ghost use Rattle.round_rule.specs.Trial.{IsTrial};

use call_steps::measured::Measured;
use call_steps::tabled::Tabled;
use held_tree::cheaper::{Found, cheaper_tabled};
use held_tree::laid::{Laid, lay_tabled};
use plan::good_plan::GoodPlan;
use renumbering::renumbered::{renumber, renumber_table};
use round_rule::trial::Trial;
use tree_search::trees::Reached;

// A tree that is cheaper than what is known, among so many under a numbering of which the first have none.
pub(crate) fn cheaper_under(m: &Measured<'_>, x: Trial, cost: u64, before: u32) -> Found
    requires { (plan_refusal (measured_plan m.now) ≡ none) × IsTrial (measured_plan m.now) x
        × CanImprove (under (measured_plan m.now) x.numbering) cost before x.tries }
    ensures { IsCheaper (under (measured_plan m.now) x.numbering) cost x.tries result }
{
    let q = renumber(m.good, &x.numbering.to);
    let d = renumber_table(m.table, &x.numbering.from);
    let under = Measured {
        good: &GoodPlan { plan: q },
        table: &d,
    };
    cheaper_tabled(&under, cost, before, x.tries)
}

// The drive of the best of so many.
pub fn lay_under(t: &Tabled<'_>, x: Trial, g: Reached, sheet: &mut [u16]) -> Laid
    requires { (plan_refusal (tabled_plan t.now) ≡ none) × IsTrial (tabled_plan t.now) x
        × IsBest (under (tabled_plan t.now) x.numbering) x.tries g × (sheet_places ≤ length sheet.old) }
    ensures { (sheet.new ≡ written (drive_of (under (tabled_plan t.now) x.numbering) x.tries) sheet.old)
        × (result.places ≡ length (drive_of (under (tabled_plan t.now) x.numbering) x.tries))
        × (result.parts ≡ component_count (under (tabled_plan t.now) x.numbering)) }
{
    let q = renumber(t.good, &x.numbering.to);
    let d = renumber_table(t.table, &x.numbering.from);
    let w = renumber_table(t.weights, &x.numbering.from);
    let under = Tabled {
        good: &GoodPlan { plan: q },
        table: &d,
        weights: &w,
    };
    lay_tabled(&under, g.tails, g.heads, sheet)
}
