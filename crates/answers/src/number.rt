// One convention for what a call answers: a number, minus the refusal's in a refusal.
ghost use Rattle.std.specs.Prelude.{◌≡◌, pos, neg_ℤ};
ghost use Rattle.refusal.specs.Verdict.{refusal_number};

use refusal::Refusal;

// Minus the refusal's number.
pub fn refused_number(r: Refusal) -> i64
    ensures { result ≡ neg_ℤ (pos (refusal_number r)) }
{
    -i64::from(u8::from(r))
}
