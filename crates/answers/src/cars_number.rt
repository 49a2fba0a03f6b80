// One number for two cars.
ghost use Rattle.std.specs.Prelude.{◌≡◌, ◌+◌, ◌*◌, pos};
ghost use Rattle.refusal.specs.Verdict.{verdict_number};
ghost use Rattle.answers.specs.CarsNumber.{reaches_both, own_number, cars_number};

use crate::number::refused_number;
use refusal::Refusal;

// "Only 1 to 7 and 13 reach both."
fn reaches_both(k: u8) -> bool
    ensures { result ≡ reaches_both k }
{
    k <= 7 || k == 13
}

// A car's own refusal, or 0.
fn own_number<T: Copy>(car: Result<T, Refusal>) -> u8
    ensures { result ≡ own_number (verdict_number car) }
{
    match car {
        Ok(_) => 0,
        Err(r) => u8::from(r),
    }
}

// Two refusals in one number.
fn pair_number(a: u8, b: u8) -> i64
    ensures { result ≡ pos (256 * a + b) }
{
    256 * i64::from(a) + i64::from(b)
}

// One number for both cars.
pub fn cars_number<T: Copy>(first: Result<T, Refusal>, second: Result<T, Refusal>) -> i64
    ensures { result ≡ cars_number (verdict_number first) (verdict_number second) }
{
    let b = own_number(second);
    match first {
        Ok(_) => i64::from(b),
        Err(r) if reaches_both(u8::from(r)) => refused_number(r),
        Err(r) => pair_number(u8::from(r), b),
    }
}
