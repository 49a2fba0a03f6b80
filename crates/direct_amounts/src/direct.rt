// Amounts from surplus to deficit only.
// Steps for other crates, which ask something of their caller.
ghost use Rattle.std.specs.Prelude.{◌≡◌, ◌+◌, ◌<◌, ◌≤◌};
ghost use mathlib.Core.List.{Memᴰ};
ghost use Rattle.postman.specs.Steps.{cell, amount};
ghost use Rattle.direct_amounts.specs.Direct.{passed, bypass, bypass_from, bypass_vertex, direct};
ghost use Rattle.balance.specs.Invariant.{Metric, Sparse, Certified, limit};
ghost use Rattle.balance.specs.Records.{state_of};

use balance::state::Balance;

// What b passes on from a to c goes directly.
fn bypass_by(f: &mut [u16; 4096], a: usize, b: usize, c: usize)
    requires { (a < 64) × (b < 64) × (c < 64) × (amount f.old a c + passed f.old a b c ≤ 64000) }
    ensures { f.new ≡ bypass f.old a b c }
{
    let x = f[a * 64 + b];
    let y = f[b * 64 + c];
    let z = f[a * 64 + c];
    let m = x.min(y);
    f[a * 64 + b] = x - m;
    f[b * 64 + c] = y - m;
    f[a * 64 + c] = if a == c { z } else { z + m };
}

// b passes on nothing from a. Where a sends nothing to b, that is so.
fn bypass_from(f: &mut [u16; 4096], vs: &[u8], b: usize, a: usize)
    requires { Sparse vs.now f.old × Memᴰ b vs.now × Memᴰ a vs.now }
    ensures { f.new ≡ bypass_from vs.now b f.old a }
{
    if f[a * 64 + b] == 0 {
        return;
    }
    for &c in vs {
        bypass_by(f, a, b, usize::from(c));
    }
}

// b passes on nothing.
fn bypass_vertex(f: &mut [u16; 4096], vs: &[u8], b: usize)
    requires { Sparse vs.now f.old × Memᴰ b vs.now }
    ensures { f.new ≡ bypass_vertex vs.now f.old b }
{
    for &a in vs {
        bypass_from(f, vs, b, usize::from(a));
    }
}

// The amounts from surplus to deficit only.
pub fn direct_amounts(s: Balance, d: &[[u32; 64]; 64], vs: &[u8]) -> [u16; 4096]
    requires { Metric (cell d.now) vs.now × Certified (cell d.now) vs.now (state_of s) × (s.count ≤ limit) }
    ensures { result ≡ direct vs.now s.amounts }
{
    let mut f = s.amounts;
    for &b in vs {
        bypass_vertex(&mut f, vs, usize::from(b));
    }
    f
}
