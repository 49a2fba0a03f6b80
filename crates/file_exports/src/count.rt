// The number of trees, for callers in other languages.
ghost use Rattle.std.specs.Prelude.{◌≡◌};
ghost use Rattle.postman.specs.TreeCount.{count_call};
ghost use Rattle.answers.specs.Number.{one_number};
ghost use Rattle.answers.specs.Count.{count_of};

use answers::call_number::count_number;

// THE COUNT.
pub fn postman_tree_count(plan: &[u8]) -> i64
    ensures { result ≡ one_number (count_of (count_call plan.now)) }
{
    let c = count_call::count_call(plan);
    count_number(c)
}
