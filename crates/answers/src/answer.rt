// An answer, handed over to a caller in another language.
ghost use Rattle.std.specs.Prelude.{◌≡◌, Ok};
ghost use Rattle.answers.specs.Answer.{words_of, put_first, IsHandedOver};

use crate::number::refused_number;
use record_writer::writer::at_most;
use refusal::Refusal;
use solution::Planned;

// The words of an answer: places, cost, floor, trees, whole as 0 or 1, parts. The floor of a plan
// call's answer is at least 0, since R + Z is.
pub fn words(r: Planned) -> [u64; 6]
    ensures { result ≡ words_of (Ok r) }
{
    let floor = integers::magnitude(r.floor);
    [
        r.places as u64,
        r.cost,
        floor,
        r.trees as u64,
        r.whole as u64,
        r.parts as u64,
    ]
}

// As many values as there is room for.
#[tactic(auto, unfolding(crate::specs::Answer::put_first))]
pub fn put_first<T: Copy>(values: &[T], lent: &mut [T])
    ensures { lent.new ≡ put_first values.now lent.old }
{
    let n = at_most(lent.len(), values.len());
    lent[..n].copy_from_slice(&values[..n]);
}

// An answer that is no refusal goes into the lent slices.
pub fn hand_over(r: Result<Planned, Refusal>, words_lent: &mut [u64], u_lent: &mut [i64]) -> i64
    ensures { IsHandedOver r words_lent.old words_lent.new u_lent.old u_lent.new result }
{
    match r {
        Ok(planned) => {
            put_first(&words(planned), words_lent);
            put_first(&planned.multipliers, u_lent);
            0
        }
        Err(q) => refused_number(q),
    }
}
