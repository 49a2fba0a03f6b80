// The number that the count, the distance call and judging answer.
ghost use Rattle.std.specs.Prelude.{◌≡◌};
ghost use Rattle.count_call.specs.Contract.{count_answer};
ghost use Rattle.answers.specs.Number.{one_number};
ghost use Rattle.answers.specs.Count.{count_of};
ghost use Rattle.distances.specs.Answer.{searched_answer};
ghost use Rattle.judge.specs.Contract.{judged_answer};

use crate::number::refused_number;
use count_call::Count;
use distances::Searched;
use judge::Judged;
use refusal::Refusal;

// The number, 4,294,967,296 for one above 4,294,967,295, or minus the refusal's.
pub fn count_number(c: Result<Count, Refusal>) -> i64
    ensures { result ≡ one_number (count_of (count_answer c)) }
{
    match c {
        Ok(Count::Known(n)) => i64::from(n),
        Ok(Count::Above) => 4_294_967_296,
        Err(r) => refused_number(r),
    }
}

// What the distance call answers, as one number.
pub fn searched_number(s: Searched) -> i64
    ensures { result ≡ one_number (searched_answer s) }
{
    match s {
        Ok(k) => i64::from(k),
        Err(q) => refused_number(q),
    }
}

// What judging answers, as one number.
pub fn judged_number(j: Judged) -> i64
    ensures { result ≡ one_number (judged_answer j) }
{
    match j {
        Ok(c) => i64::from(c),
        Err(q) => refused_number(q),
    }
}
