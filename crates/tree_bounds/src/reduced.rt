// Reduced costs.
// Steps for other crates, which ask something of their caller.
ghost use Rattle.std.specs.Prelude.{◌≡◌, ℕ, ◌<◌, ◌≤◌, length, get_or, pos, ◌+ℤ◌, ◌-ℤ◌};
ghost use Rattle.tree_bounds.specs.Bound.{reduced_by};
ghost use Rattle.tree_bounds.specs.Reducible.{CanReduce, Spread, AreShifted};

use crate::put::put;

// The reduced cost of the way from tail to head.
pub fn reduced(d: &[[u32; 64]; 64], p: &[u64; 64], tail: u8, head: u8) -> u64
    requires { CanReduce d.now p.now tail head }
    ensures { (result ≡ reduced_by d.now p.now tail head) × (result ≤ 3009825945) }
{
    let (t, h) = (usize::from(tail), usize::from(head));
    u64::from(d[t][h]) + p[h] - p[t]
}

// The multipliers of the vertices vs as potentials: from the first one's on, so that none is negative.
pub fn shifted(u: &[i64; 64], vs: &[u8]) -> [u64; 64]
    requires { ((k : ℕ) → k < length vs.now
        → (get_or vs.now k 0 < 64) × Spread (get_or u.now (get_or vs.now k 0) (pos 0)) (get_or u.now (get_or vs.now 0 0) (pos 0)))
        × (1 ≤ length vs.now) }
    ensures { AreShifted u.now vs.now (length vs.now) result }
{
    let low = u[usize::from(vs[0])];
    put(
        vs,
        |v: usize| -> u64
            requires { (v < 64) × Spread (get_or u.now v (pos 0)) low }
            ensures { (pos result ≡ get_or u.entry.now v (pos 0) -ℤ low +ℤ pos 4128705) × (result ≤ 8257410) }
        { (u[v] - low + 4_128_705) as u64 },
    )
}
