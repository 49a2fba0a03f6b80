// Pairs of vertices, each one number of 16 bits, 256 × first + second.
ghost use Rattle.std.specs.Prelude.{◌≡◌};
ghost use Rattle.postman.specs.Refusal.{first_refusal};
ghost use Rattle.postman.specs.DistanceCall.{first as first_of, second as second_of, is_stray, has_stray, pairs_conditions};
ghost use Rattle.refusal.specs.Verdict.{verdict_number};

use refusal::{Refusal, Verdict};

pub(crate) fn first(x: u16) -> usize
    ensures { result ≡ first_of x }
{
    (x / 256) as usize
}

pub(crate) fn second(x: u16) -> usize
    ensures { result ≡ second_of x }
{
    (x % 256) as usize
}

// Whether one of the two is no vertex.
fn is_stray(n: usize, x: u16) -> bool
    ensures { result ≡ is_stray n x }
{
    n <= first(x) || n <= second(x)
}

// 17 stray pair: "more than 256 pairs, or a vertex of n or more".
fn has_stray(n: usize, pairs: &[u16]) -> bool
    ensures { result ≡ has_stray n pairs.now }
{
    if 256 < pairs.len() {
        return true;
    }
    for x in pairs {
        if is_stray(n, *x) {
            return true;
        }
    }
    false
}

// 17, then 8: "a distance list shorter than the pairs".
pub(crate) fn pairs_verdict(n: usize, pairs: &[u16], room: usize) -> Verdict
    ensures { verdict_number result ≡ first_refusal (pairs_conditions n pairs.now room) }
{
    if has_stray(n, pairs) {
        return Err(Refusal::StrayPair);
    }
    if room < pairs.len() {
        return Err(Refusal::ShortSheet);
    }
    Ok(())
}
