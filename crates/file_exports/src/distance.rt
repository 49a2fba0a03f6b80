// The distance call, for callers in other languages. An answer is one number: the number of searches run, or minus the refusal's.
ghost use Rattle.std.specs.Prelude.{◌≡◌, length};
ghost use Rattle.postman.specs.DistanceCall.{distance_answer, distances_after};
ghost use Rattle.answers.specs.Number.{one_number};

use answers::call_number::searched_number;

// THE DISTANCE CALL. A pair is 256 × first + second. `distances` takes the pairs' distances from its start, and later
// entries are untouched; a refusal changes none.
pub fn postman_distances(plan: &[u8], pairs: &[u16], distances: &mut [u32]) -> i64
    ensures { (result ≡ one_number (distance_answer plan.now pairs.now (length distances.old)))
        × (distances.new ≡ distances_after plan.now pairs.now distances.old) }
{
    let searched = distances::call::distance_call(plan, pairs, distances);
    searched_number(searched)
}
