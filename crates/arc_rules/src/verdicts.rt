// The first refusal of m records, of those that were read and those to be written alike.
// Steps for other crates, which ask something of their caller.
ghost use Rattle.std.specs.Prelude.{◌≡◌, ◌≤◌};
ghost use mathlib.Core.List.{map, flat_map};
ghost use Rattle.postman.specs.Lists.{below};
ghost use Rattle.postman.specs.Refusal.{first_refusal};
ghost use Rattle.postman.specs.PlanFile.{arc_conditions, plan_conditions};
ghost use Rattle.refusal.specs.Verdict.{verdict_number};
ghost use Rattle.plan.specs.Records.{record_at};
ghost use Rattle.arc_rules.specs.Arcs.{plan_from};

use crate::rules::record_verdict;
use plan::Arc;
use refusal::Verdict;
use repeated_arcs::repeated::repeated_verdict;

// The first refusal of the first m records, record by record.
fn records_verdict(edition: u8, n: u8, m: usize, arcs: [Arc; 256]) -> Verdict
    requires { m ≤ 256 }
    ensures { verdict_number result ≡ first_refusal (flat_map (arc_conditions edition n) (map (record_at arcs) (below m))) }
{
    for a in &arcs[..m] {
        record_verdict(edition, n, *a)?;
    }
    Ok(())
}

// The first refusal of the records: one by one, then of all together.
pub fn all_records_verdict(edition: u8, n: u8, m: usize, arcs: [Arc; 256]) -> Verdict
    requires { m ≤ 256 }
    ensures { verdict_number result ≡ first_refusal (plan_conditions edition (plan_from n (record_at arcs) m)) }
{
    records_verdict(edition, n, m, arcs)?;
    repeated_verdict(arcs, m)
}
