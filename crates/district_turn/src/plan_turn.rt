// A district's turn, over its plan.
// Steps for other crates, which ask something of their caller.
ghost use Rattle.network.specs.Network.{IsNetwork};
ghost use Rattle.call_steps.specs.Tabled.{tabled_plan};
ghost use Rattle.std.specs.Prelude.{◌≡◌, ◌&&◌, ◌-◌, ◌≤◌, length, take};
ghost use Rattle.std.proofs.Math.Option.{none};
ghost use Rattle.postman.specs.Component.{component_count};
ghost use Rattle.postman.specs.PlanCall.{sheet_places};
ghost use Rattle.plan.specs.GoodPlan.{good_plan};
ghost use Rattle.shortest.specs.StepContracts.{AreWeights};
ghost use Rattle.branches.specs.Links.{links_in};
ghost use Rattle.drive_legs.specs.Drive.{written};
ghost use Rattle.call_steps.specs.Refusals.{network_refusal};
ghost use Rattle.multipliers.specs.Drive.{tree_drive};
ghost use Rattle.preparation.specs.Prepared.{prepared_plan};
ghost use Rattle.tree_search.specs.Resumed.{HoldsTree};
ghost use Rattle.solution.specs.Concluded.{concluded};
ghost use Rattle.held_file.specs.Padded.{padded};
ghost use Rattle.postman.specs.Refusal.{is_good};
ghost use Rattle.district_turn.specs.DistrictTurn.{is_resumable, can_go_on, IsDistrictTurn};

use crate::held::{first_of, is_holding};
use call_steps::steps::network_verdict;
use call_steps::tabled::Tabled;
use network::network::Network;
use plan::good_plan::GoodPlan;
use preparation::prepare::prepare;
use preparation::prepared::Prepared;
use solution::Planned;
use solution::solve::conclude;
use tree_search::improve::Searched;
use tree_search::trees::{Reached, Resumed, resume};

// What a turn leaves: what was held could not be gone on from; or it is gone on, and how far it is; or the district is finished, with
// its answer.
#[derive(Clone, Copy)]
pub enum DistrictTurn {
    Stuck,
    Unfinished(Reached),
    Finished(Planned),
}

// The last turn: the tree that is held is laid out.
fn last(p: &Prepared<'_>, weights: &[[u32; 64]; 64], x: Resumed, sheet: &mut [u16]) -> Planned
    requires { HoldsTree (prepared_plan p.now) x.tails x.heads
        × (x.cost ≤ 4398046511104) × (sheet_places ≤ length sheet.old) × AreWeights (prepared_plan p.now) weights.now }
    ensures answered { result
        ≡ concluded (prepared_plan p.now) (links_in (component_count (prepared_plan p.now) - 1) x.tails x.heads) x.cost x.total
        x.whole }
    ensures sheet_written { sheet.new
        ≡ written (tree_drive (prepared_plan p.now) (links_in (component_count (prepared_plan p.now) - 1) x.tails x.heads))
        sheet.old }
{
    let (tails, heads) = (x.tails, x.heads);
    let s = Searched {
        cost: x.cost,
        tails,
        heads,
        tried: x.total,
        whole: x.whole,
    };
    conclude(p, weights, s, sheet)
}

// What is held after a turn that is not the last.
fn kept(r: Resumed, n: usize) -> Reached
    requires { n ≤ 8 }
    ensures { (result.cost ≡ r.cost) × (result.tails ≡ padded 8 0 (take n r.tails)) × (result.heads ≡ padded 8 0 (take n r.heads))
        × (result.tried ≡ r.tried) }
{
    Reached {
        cost: r.cost,
        tails: first_of(r.tails, n),
        heads: first_of(r.heads, n),
        tried: r.tried,
    }
}

// One turn of a district whose plan is prepared.
fn turn_prepared(
    p: &Prepared<'_>,
    weights: &[[u32; 64]; 64],
    budget: u32,
    g: Reached,
    sheet: &mut [u16],
) -> DistrictTurn
    requires { (g.tried ≤ 1000000) × (1 ≤ budget) × (sheet_places ≤ length sheet.old)
        × AreWeights (prepared_plan p.now) weights.now }
    ensures { IsDistrictTurn (prepared_plan p.now) budget g (is_resumable (prepared_plan p.now) budget g) sheet.old sheet.new result }
{
    if !is_holding(p, g) {
        return DistrictTurn::Stuck;
    }
    let x = resume(p, budget, g);
    if x.total <= g.tried {
        return DistrictTurn::Stuck;
    }
    if x.tried < x.total {
        let k = usize::from(p.parts.network.components);
        return DistrictTurn::Unfinished(kept(x, k - 1));
    }
    DistrictTurn::Finished(last(p, weights, x, sheet))
}

// The same, of a plan that is not refused: it is prepared.
fn turn_accepted(
    t: &Tabled<'_>,
    net: Network,
    budget: u32,
    g: Reached,
    sheet: &mut [u16],
) -> DistrictTurn
    requires measured { IsNetwork (tabled_plan t.now) net × (network_refusal net.components net.cut_off ≡ none)
        × (g.tried ≤ 1000000) }
    requires budget_and_sheet { (1 ≤ budget) × (sheet_places ≤ length sheet.old) }
    ensures { IsDistrictTurn (tabled_plan t.now) budget g (is_resumable (tabled_plan t.now) budget g) sheet.old sheet.new result }
{
    let parts = prepare(t.good, t.table, net);
    let p = Prepared {
        good: t.good,
        table: t.table,
        parts: &parts,
    };
    turn_prepared(&p, t.weights, budget, g, sheet)
}

// The same, where the network does not refuse.
fn turn_measured(
    t: &Tabled<'_>,
    net: Network,
    budget: u32,
    g: Reached,
    sheet: &mut [u16],
) -> DistrictTurn
    requires { IsNetwork (tabled_plan t.now) net × (1 ≤ budget) × (sheet_places ≤ length sheet.old) × (g.tried ≤ 1000000) }
    ensures { IsDistrictTurn (tabled_plan t.now) budget g
        (is_good (network_refusal net.components net.cut_off) && is_resumable (tabled_plan t.now) budget g) sheet.old
        sheet.new result }
{
    match network_verdict(net.components, net.cut_off) {
        Err(_) => DistrictTurn::Stuck,
        Ok(()) => turn_accepted(t, net, budget, g, sheet),
    }
}

// The same, from the tables of the plan's distances and weights.
fn turn_tabled(t: &Tabled<'_>, budget: u32, g: Reached, sheet: &mut [u16]) -> DistrictTurn
    requires budget_and_sheet { (1 ≤ budget) × (sheet_places ≤ length sheet.old) × (g.tried ≤ 1000000) }
    ensures { IsDistrictTurn (tabled_plan t.now) budget g (can_go_on (tabled_plan t.now) budget g) sheet.old sheet.new result }
{
    let net = network::network::network_of(t.good, t.table);
    turn_measured(t, net, budget, g, sheet)
}

// The same, of a plan that was read: what a turn does again is to prepare it.
pub fn turn_read(good: &GoodPlan, budget: u32, g: Reached, sheet: &mut [u16]) -> DistrictTurn
    requires { (1 ≤ budget) × (sheet_places ≤ length sheet.old) × (g.tried ≤ 1000000) }
    ensures { IsDistrictTurn (good_plan good.now) budget g (can_go_on (good_plan good.now) budget g) sheet.old sheet.new result }
{
    let weights = shortest::weights::table(good);
    let table = shortest::distance::table_of(&weights);
    turn_tabled(
        &Tabled {
            good,
            table: &table,
            weights: &weights,
        },
        budget,
        g,
        sheet,
    )
}
