// The distance call: the refusals in their order, then the entries.
ghost use Rattle.std.specs.Prelude.{◌≡◌, length};
ghost use Rattle.postman.specs.Refusal.{first_refusal};
ghost use Rattle.postman.specs.DistanceCall.{pairs_conditions, distance_answer, distances_after};
ghost use Rattle.plan.specs.GoodPlan.{good_plan};
ghost use Rattle.distances.specs.Answer.{searched_answer, IsPage};

use crate::Searched;
use crate::entries::put_entries;
use crate::pairs::pairs_verdict;
use plan::good_plan::GoodPlan;
use plan_file::reader::read_plan;

// 17, then 8, then the entries of a plan that the file's rules let through.
fn plan_distances(good: &GoodPlan, pairs: &[u16], distances: &mut [u32]) -> Searched
    ensures { IsPage (good_plan good.now)
        (first_refusal (pairs_conditions (good_plan good.now).n pairs.now (length distances.old)))
        pairs.now distances.old distances.new result }
{
    pairs_verdict(good.plan.n as usize, pairs, distances.len())?;
    Ok(put_entries(good, pairs, distances))
}

// THE DISTANCE CALL, for any bytes, any list of pairs and any list for the distances: the first refusal by its order, with every
// entry untouched; or the number of searches run, one for each first vertex, with the pairs' distances in the list from its
// start and the entries after them untouched.
pub fn distance_call(bytes: &[u8], pairs: &[u16], distances: &mut [u32]) -> Searched
    ensures answered { searched_answer result ≡ distance_answer bytes.now pairs.now (length distances.old) }
    ensures distances_written { distances.new ≡ distances_after bytes.now pairs.now distances.old }
{
    plan_distances(
        &GoodPlan {
            plan: read_plan(bytes)?.plan,
        },
        pairs,
        distances,
    )
}
