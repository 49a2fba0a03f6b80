// The number of trees of a plan file.
#![tactic(auto)]

ghost use Rattle.std.specs.Prelude.{◌≡◌, Ok};
ghost use Rattle.postman.specs.Plan.{Plan as AnyPlan, WellFormed};
ghost use Rattle.postman.specs.Refusal.{answer, given};
ghost use Rattle.postman.specs.TreeCount.{counted as counted_as, tree_count, count_call};
ghost use Rattle.plan.specs.GoodPlan.{good_plan};
ghost use Rattle.network.specs.Network.{IsNetwork};
ghost use Rattle.call_steps.specs.Refusals.{network_refusal, plan_refusal};
ghost use Rattle.count_call.specs.Contract.{count_answer};

use call_steps::steps::network_verdict;
use network::network::Network;
use plan::good_plan::GoodPlan;
use plan_file::reader::read_plan;
use refusal::Refusal;

// "Give the exact number of trees, counted without listing each, or the answer 'above 4,294,967,295' exactly when it is."
#[derive(Clone, Copy, Debug, PartialEq, Eq)]
pub enum Count {
    Known(u32),
    Above,
}

// A number that is counted.
fn known_or_above(n: u64) -> Count
    ensures { count_answer (Ok result) ≡ given (counted_as n) }
{
    if 4_294_967_295 < n {
        return Count::Above;
    }
    Count::Known(n as u32)
}

// 10, 11 and 12, then the number, for whatever plan it is the network of.
fn count_measured(net: Network) -> Result<Count, Refusal>
    ensures { (p : AnyPlan) → WellFormed p → IsNetwork p net
        → count_answer result ≡ answer (network_refusal net.components net.cut_off) (tree_count p) }
{
    network_verdict(net.components, net.cut_off)?;
    Ok(known_or_above(tree_count::of_network(net)))
}

// The distances and the network of a plan that the file's rules let through.
fn count_read(good: &GoodPlan) -> Result<Count, Refusal>
    ensures { count_answer result ≡ answer (plan_refusal (good_plan good.now)) (tree_count (good_plan good.now)) }
{
    let table = shortest::distance::table(good);
    let net = network::network::network_of(good, &table);
    count_measured(net)
}

// THE COUNT, for any bytes. It asks nothing and changes nothing.
pub fn count_call(bytes: &[u8]) -> Result<Count, Refusal>
    ensures { count_answer result ≡ count_call bytes.now }
{
    count_read(&GoodPlan {
        plan: read_plan(bytes)?.plan,
    })
}
