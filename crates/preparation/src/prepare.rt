// The preparation of a plan that is not refused: what its trees are tried from, its drives laid and its floor computed.
// Steps for other crates, which ask something of their caller.
ghost use Rattle.plan.specs.GoodPlan.{good_plan};
ghost use Rattle.postman.specs.Required.{required};
ghost use Rattle.network.specs.Network.{IsNetwork};
ghost use Rattle.multipliers.specs.Prepared.{IsKnown};
ghost use Rattle.preparation.specs.Preparation.{IsPreparation};

use crate::base::{base_state, multipliers_of};
use balance::state::Balance;
use candidates::Vertices;
use multipliers::ascend::{Best, multipliers_for};
use network::network::Network;
use plan::good_plan::GoodPlan;

// The required vertices, the network, the state of the required arcs, and the multipliers that are answered with L(u).
#[derive(Clone, Copy)]
pub struct Preparation {
    pub vertices: Vertices,
    pub network: Network,
    pub base: Balance,
    pub multipliers: [i64; 64],
    pub bound: i64,
}

pub fn prepare(good: &GoodPlan, table: &[[u32; 64]; 64], net: Network) -> Preparation
    requires { IsKnown (good_plan good.now) table.now (required (good_plan good.now)) × IsNetwork (good_plan good.now) net }
    ensures { IsPreparation (good_plan good.now) table.now result }
{
    let vertices = candidates::vertices_of(net.required);
    let vs = &vertices.list[..vertices.count];
    let base = base_state(good, table, vs);
    let greatest = multipliers_of(good, table, vs, base);
    let Best { multipliers, bound } = multipliers_for(good, table, vs, &net, &base, greatest);
    Preparation {
        vertices,
        network: net,
        base,
        multipliers,
        bound,
    }
}
