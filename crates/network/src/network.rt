// The network of a plan.
// Steps for other crates, which ask something of their caller.
ghost use Rattle.plan.specs.GoodPlan.{good_plan};
ghost use Rattle.shortest.specs.StepContracts.{IsTable};
ghost use Rattle.network.specs.Network.{IsNetwork};

use crate::cut_off::is_cut_off;
use crate::thinning::{pairs, thin};
use components::components::components_of;
use plan::good_plan::GoodPlan;
use required::required_sum::{imbalance, required_cost};
use required::required_vertex::required;

#[derive(Clone, Copy)]
pub struct Network {
    // whether each vertex is required
    pub required: [bool; 64],
    // the component of each vertex, and the number of components
    pub component: [u8; 64],
    pub components: u8,
    // whether the pair (i, j), at 64 i + j, is a link
    pub links: [bool; 4096],
    // D
    pub imbalance: [i64; 64],
    // R
    pub required_cost: u64,
    // whether some required vertex has no path to another
    pub cut_off: bool,
}

pub fn network_of(good: &GoodPlan, table: &[[u32; 64]; 64]) -> Network
    requires { IsTable (good_plan good.now) table.now }
    ensures { IsNetwork (good_plan good.now) result }
{
    let required = required(good);
    let parts = components_of(good, required);
    let component = parts.of;
    let links = thin(table, pairs(required));
    let imbalance = imbalance(good);
    Network {
        required,
        component,
        components: parts.count,
        links,
        imbalance,
        required_cost: required_cost(good),
        cut_off: is_cut_off(table, required),
    }
}
