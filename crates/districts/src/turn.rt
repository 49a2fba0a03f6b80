// A turn: the front district takes 1,000 trees or the rest of T.
ghost use Rattle.std.specs.Prelude.{◌≡◌, List, [], ◌∷◌, ◌++◌, ◌≤◌, ◌<◌, length, drop};
ghost use Rattle.postman.specs.PlanCall.{sheet_places};
ghost use Rattle.district_turn.specs.DistrictTurn.{IsDistrictTurn};
ghost use Rattle.district_machine.specs.declared.machine.District.{District as DistrictRecord};
ghost use Rattle.district_machine.specs.Machine.{waiting_in, machine_of};
ghost use Rattle.districts.specs.Turned.{so_far, plan_by, has_own_place, can_be_served, held_now, turned_by, IsTurned};

use district_machine::machine::{District, Machine};
use district_machine::places::{is_taken, lined_up};
use district_turn::plan_turn::{DistrictTurn, turn_read};
use plan::good_plan::GoodPlan;
use refusal::Refusal;
use solution::Planned;
use tree_search::trees::Reached;

// What a turn met, and the place of the district that it went to. A machine that no entries and turns lead to may hold a front district
// that cannot be gone on with: it is answered as an empty one.
#[derive(Clone, Copy)]
pub enum Outcome {
    Empty,
    ShortSheet,
    Unfinished(u8),
    Finished(u8),
}

#[derive(Clone, Copy)]
pub struct Turned {
    pub outcome: Outcome,
    pub planned: Result<Planned, Refusal>,
    pub machine: Machine,
}

// The answer before the last turn: the trees so far and their least cost.
fn so_far(cost: u64, trees: u32) -> Planned
    ensures { result ≡ so_far cost trees }
{
    Planned {
        places: 0,
        cost,
        floor: 0,
        trees,
        whole: false,
        parts: 0,
        multipliers: [0i64; 64],
    }
}

// Whether its place is one of eight, and none of the others has it.
fn has_own_place(place: u8, others: Machine) -> bool
    requires { others.waiting ≤ 8 }
    ensures { (d : DistrictRecord) → d.place ≡ place → result ≡ has_own_place d (waiting_in others) }
{
    place < 8 && !is_taken(others.line, others.waiting, place)
}

// The turn of the front district, over the plan that it holds. It has tried fewer trees than its budget, if it can be gone on with.
fn served(d: District, sheet: &mut [u16]) -> DistrictTurn
    requires { sheet_places ≤ length sheet.old }
    ensures { IsDistrictTurn (plan_by d) d.budget d.held (can_be_served d) sheet.old sheet.new result }
{
    let n = d.plan.length;
    if 1475 < n {
        return DistrictTurn::Stuck;
    }
    if 1_000_000 < d.budget {
        return DistrictTurn::Stuck;
    }
    if d.budget <= d.held.tried {
        return DistrictTurn::Stuck;
    }
    match plan_file::reader::read_plan(&d.plan.file[..n]) {
        Err(_) => DistrictTurn::Stuck,
        Ok(reading) => turn_read(&GoodPlan { plan: reading.plan }, d.budget, d.held, sheet),
    }
}

// "Finished, leaves and frees its place."
fn left(m: Machine) -> Machine
    requires { (1 ≤ m.waiting) × (m.waiting ≤ 8) }
    ensures { result ≡ machine_of (drop 1 (waiting_in m)) }
{
    let n = m.waiting - 1;
    Machine {
        line: lined_up(m.line, 1, n),
        waiting: n,
    }
}

// "Then it goes to the back", with what it holds now.
fn gone_on(others: Machine, d: District, held: Reached) -> Machine
    requires { others.waiting < 8 }
    ensures { (ds : List DistrictRecord) → others ≡ machine_of ds → result ≡ machine_of (ds ++ held_now d held ∷ []) }
{
    let mut next = others;
    next.line[others.waiting] = District { held, ..d };
    next.waiting += 1;
    next
}

// Nothing moves.
fn still(m: Machine, outcome: Outcome, planned: Result<Planned, Refusal>) -> Turned
    ensures { (result.outcome ≡ outcome) × (result.planned ≡ planned) × (result.machine ≡ m) }
{
    Turned {
        outcome,
        planned,
        machine: m,
    }
}

// The front district was to have its turn.
fn after(m: Machine, others: Machine, d: District, s: DistrictTurn) -> Turned
    requires { others.waiting < 8 }
    ensures { (ds : List DistrictRecord) → others ≡ machine_of ds → result ≡ turned_by m d ds s }
{
    match s {
        DistrictTurn::Stuck => still(m, Outcome::Empty, Ok(so_far(0, 0))),
        DistrictTurn::Unfinished(held) => Turned {
            outcome: Outcome::Unfinished(d.place),
            planned: Ok(so_far(held.cost, held.tried)),
            machine: gone_on(others, d, held),
        },
        DistrictTurn::Finished(planned) => Turned {
            outcome: Outcome::Finished(d.place),
            planned: Ok(planned),
            machine: others,
        },
    }
}

// A TURN, of any machine, with any sheet.
pub fn turn(m: Machine, sheet: &mut [u16]) -> Turned
    ensures { IsTurned m sheet.old sheet.new result }
{
    let n = m.waiting;
    let nothing = Ok(so_far(0, 0));
    if n == 0 {
        return still(m, Outcome::Empty, nothing);
    }
    if sheet.len() < 17_266 {
        return still(m, Outcome::ShortSheet, Err(Refusal::ShortSheet));
    }
    if 8 < n {
        return still(m, Outcome::Empty, nothing);
    }
    let d = m.line[0];
    let others = left(m);
    if !has_own_place(d.place, others) {
        return still(m, Outcome::Empty, nothing);
    }
    after(m, others, d, served(d, sheet))
}
