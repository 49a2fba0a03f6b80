// Numbers exchanged at random.
// Steps for other crates, which ask something of their caller.
ghost use Rattle.std.specs.Prelude.{◌≡◌, ◌<◌, ◌≤◌};
ghost use Rattle.renumbering.specs.Numbering.{IsNumberingOf};
ghost use Rattle.renumbering.specs.Shuffle.{modulus, following, drawn, shuffled};

use crate::numbering::{Numbering, exchange};

// A numbering, and where the generator stands.
#[derive(Clone, Copy)]
pub struct Drawn {
    pub numbering: Numbering,
    pub random: u64,
}

// The generator's next number: that of Park and Miller.
fn next(random: u64) -> u64
    requires { random < modulus }
    ensures { (result ≡ following random) × (result < modulus) }
{
    random * 48_271 % 2_147_483_647
}

// Two of the n numbers, both drawn by one number of the generator, are exchanged.
fn draw(d: Drawn, n: u64) -> Drawn
    requires { IsNumberingOf n d.numbering × (1 ≤ n) × (n ≤ 64) × (d.random < modulus) }
    ensures { result ≡ drawn n d }
{
    let random = next(d.random);
    let i = (random % n) as usize;
    let j = (random / n % n) as usize;
    Drawn {
        numbering: exchange(d.numbering, i, j),
        random,
    }
}

// So many exchanges, one after the other.
pub fn shuffle(mut d: Drawn, n: u64, times: u32) -> Drawn
    requires { IsNumberingOf n d.numbering × (1 ≤ n) × (n ≤ 64) × (d.random < modulus) }
    ensures { result ≡ shuffled n d times }
{
    for i in 0..times {
        d = draw(d, n);
    }
    d
}
