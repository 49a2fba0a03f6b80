// Whether a plan is refused.
// Steps for other crates, which ask something of their caller.
ghost use Rattle.call_steps.specs.Tabled.{measured_plan};
ghost use Rattle.std.specs.Prelude.{◌≡◌};
ghost use Rattle.refusal.specs.Verdict.{verdict_number};
ghost use Rattle.call_steps.specs.Refusals.{plan_refusal};

use call_steps::measured::Measured;
use call_steps::steps::network_verdict;
use refusal::Verdict;

// By its network.
pub fn plan_verdict(m: &Measured<'_>) -> Verdict
    ensures { verdict_number result ≡ plan_refusal (measured_plan m.now) }
{
    let net = network::network::network_of(m.good, m.table);
    network_verdict(net.components, net.cut_off)
}
