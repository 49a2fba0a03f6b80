// The multipliers that are answered: steps from the greatest ones on, of which the first with the largest bound is kept.
// What is large and read at each step is lent: f are the amounts of the state of the required arcs.
// Steps for other crates, which ask something of their caller.
ghost use Rattle.std.specs.Prelude.{◌≡◌, cond};
ghost use Rattle.std.specs.Int.Signed.{lt_z};
ghost use Rattle.postman.specs.Plan.{Plan as AnyPlan};
ghost use Rattle.postman.specs.PlanCall.{root};
ghost use Rattle.plan.specs.GoodPlan.{good_plan};
ghost use Rattle.residual_search.specs.Search.{beyond};
ghost use Rattle.multiplier_steps.specs.Steps.{AreSmall};
ghost use Rattle.postman.specs.Steps.{cell};
ghost use Rattle.balance.specs.Multipliers.{multipliers};
ghost use Rattle.balance.specs.Records.{state_of};
ghost use Rattle.network.specs.Network.{IsNetwork};
ghost use Rattle.multipliers.specs.Prepared.{IsBase, IsReady, IsPricedIn};
ghost use Rattle.multipliers.specs.Ascent.{attempt as attemptOf, climb as climbOnce, begin, greatest_of, multipliers_for, bound_of};
ghost use Rattle.multipliers.specs.Climbs.{climb_of, holding, CanStep};

use ascent::step::{Stepped, step};
use balance::state::Balance;
use lagrangian::bound::lagrangian;
use multiplier_steps::lawful::are_lawful;
use multiplier_steps::steps::{rooted, span};
use network::network::Network;
use plan::good_plan::GoodPlan;
use residual_search::vertex_list::VertexList;

// What the steps read of the network: the component of each vertex, whether it is required, the number of components, R and D.
#[derive(Clone, Copy)]
pub(crate) struct Setting {
    component: [u8; 64],
    required: [bool; 64],
    components: usize,
    required_cost: u64,
    imbalance: [i64; 64],
}

// Where an ascent stands.
#[derive(Clone, Copy)]
pub struct Stage {
    pub multipliers: [i64; 64],
    pub before: [i64; 64],
    pub best: [i64; 64],
    pub bound: i64,
    pub value: i64,
    pub stride: u64,
    pub done: bool,
}

// The best multipliers met, and their bound.
#[derive(Clone, Copy)]
pub struct Best {
    pub multipliers: [i64; 64],
    pub bound: i64,
}

impl Stage {
    // The best multipliers so far, and their bound.
    fn held(&self) -> Best
        ensures { (result.multipliers ≡ self.now.best) × (result.bound ≡ self.now.bound) }
    {
        Best {
            multipliers: self.best,
            bound: self.bound,
        }
    }
}

// What the steps of an ascent read: the distances, the amounts of the state of the required arcs, the required vertices, and the network.
#[derive(Clone, Copy)]
pub(crate) struct Ascent<'a> {
    table: &'a [[u32; 64]; 64],
    amounts: &'a [u16; 4096],
    vs: VertexList<'a>,
    setting: Setting,
}

impl<'a> Ascent<'a> {
    // L(u).
    fn bound_at(&self, u: &[i64; 64]) -> i64
        requires { (p : AnyPlan) × IsPricedIn p self.now.table.now self.now.setting u.now }
        ensures { (p : AnyPlan) → IsPricedIn p self.now.table.now self.now.setting u.now → result ≡ bound_of p u.now }
    {
        let s = &self.setting;
        lagrangian(
            self.table,
            u,
            &s.component,
            &s.required,
            s.components,
            s.required_cost,
            &s.imbalance,
        )
    }

    // The multipliers, 0 at the root, are the best so far, where they are lawful and their bound is larger.
    fn attempt(&self, c: &Stage) -> Best
        requires { ((p : AnyPlan) × IsReady p self.now) × AreSmall beyond c.now.multipliers }
        ensures { (p : AnyPlan) → IsReady p self.now → holding c.now result ≡ attemptOf p (climb_of c.now) }
    {
        if are_lawful(self.table, self.amounts, self.vs, &c.multipliers) {
            let multipliers = rooted(&c.multipliers, self.vs);
            let bound = self.bound_at(&multipliers);
            if c.bound < bound {
                return Best { multipliers, bound };
            }
        }
        c.held()
    }

    // The same, where a tree costs more than any met before.
    fn attempt_above(&self, c: &Stage, value: i64) -> Best
        requires { ((p : AnyPlan) × IsReady p self.now) × AreSmall beyond c.now.multipliers }
        ensures { (p : AnyPlan) → IsReady p self.now
            → holding c.now result ≡ cond (lt_z c.now.value value) (attemptOf p (climb_of c.now)) (climb_of c.now) }
    {
        if c.value < value {
            self.attempt(c)
        } else {
            c.held()
        }
    }

    // Step i, unless a tree was balanced.
    fn climb(&self, c: &Stage, i: usize) -> Stage
        requires { ((p : AnyPlan) × IsReady p self.now) × CanStep c.now }
        ensures { ((p : AnyPlan) → IsReady p self.now → climb_of result ≡ climbOnce p (climb_of c.now) i) × CanStep result }
    {
        if c.done {
            return *c;
        }
        let Stepped {
            multipliers,
            value,
            balanced,
        } = step(
            self.table,
            self.amounts,
            self.vs,
            &self.setting.component,
            self.setting.components,
            i % 2 == 1,
            c.stride,
            &c.multipliers,
            &c.before,
        );
        let Best {
            multipliers: best,
            bound,
        } = self.attempt_above(c, value);
        Stage {
            multipliers,
            before: c.multipliers,
            best,
            bound,
            value: c.value.max(value),
            stride: c.stride - c.stride / 9,
            done: balanced,
        }
    }

    // Before the first step.
    fn begun(&self, u: [i64; 64]) -> Stage
        requires { (p : AnyPlan) × IsReady p self.now × (u ≡ greatest_of p) }
        ensures { ((p : AnyPlan) → IsReady p self.now → u ≡ greatest_of p → climb_of result ≡ begin p) × CanStep result }
    {
        let far = span(self.table, self.vs);
        Stage {
            multipliers: u,
            before: u,
            best: u,
            bound: self.bound_at(&u),
            value: 0,
            stride: (far / 24 + 1).min(1_099_511_627_776),
            done: false,
        }
    }

    // The multipliers that are answered, from the greatest ones on, and their bound.
    fn ascend(&self, u: [i64; 64]) -> Best
        requires { (p : AnyPlan) × IsReady p self.now × (u ≡ greatest_of p) }
        ensures { (p : AnyPlan) → IsReady p self.now → u ≡ greatest_of p
            → (result.multipliers ≡ multipliers_for p) × (result.bound ≡ bound_of p result.multipliers) }
    {
        let mut c = self.begun(u);
        for i in 0..20 {
            c = self.climb(&c, i);
        }
        c.held()
    }
}

// The same, of a network.
pub fn multipliers_for<'a>(
    good: &GoodPlan,
    table: &'a [[u32; 64]; 64],
    vs: &'a [u8],
    net: &Network,
    base: &'a Balance,
    u: [i64; 64],
) -> Best
    requires { IsBase (good_plan good.now) table.now vs.now (state_of base.now) × IsNetwork (good_plan good.now) net.now
        × (u ≡ multipliers (cell table.now) vs.now (state_of base.now) (root (good_plan good.now))) }
    ensures { (result.multipliers ≡ multipliers_for (good_plan good.now))
        × (result.bound ≡ bound_of (good_plan good.now) result.multipliers) }
{
    let setting = Setting {
        component: net.component,
        required: net.required,
        components: net.components as usize,
        required_cost: net.required_cost,
        imbalance: net.imbalance,
    };
    let ascent = Ascent {
        table,
        amounts: &base.amounts,
        vs: VertexList { vertices: vs },
        setting,
    };
    ascent.ascend(u)
}
