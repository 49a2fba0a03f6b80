// The judging call, for callers in other languages. The number is the cost, or minus the refusal's.
ghost use Rattle.std.specs.Prelude.{◌≡◌};
ghost use Rattle.postman.specs.Judge.{judge_answer};
ghost use Rattle.answers.specs.Number.{one_number};

use answers::call_number::judged_number;

// THE JUDGING CALL, on any bytes and any list of arc numbers, which it does not change.
pub fn postman_judge(plan: &[u8], places: &[u16]) -> i64
    ensures { result ≡ one_number (judge_answer plan.now places.now) }
{
    let j = judge::call::judge(plan, places);
    judged_number(j)
}
