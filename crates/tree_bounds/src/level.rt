// Potentials from that of the first vertex on.
// Steps for other crates, which ask something of their caller.
ghost use Rattle.std.specs.Prelude.{◌≡◌, ◌+◌, ◌<◌, ◌≤◌, length, get_or};
ghost use Rattle.tree_bounds.specs.Reducible.{Near, CanLevel, AreLevelled};

use crate::put::put;

// The potentials of the vertices vs, from that of the first on, and raised so that none is negative.
pub fn levelled(u: [u64; 64], vs: &[u8]) -> [u64; 64]
    requires { CanLevel u vs.now }
    ensures { AreLevelled u vs.now (length vs.now) result }
{
    let low = u[usize::from(vs[0])];
    put(
        vs,
        |v: usize| -> u64
            requires { (v < 64) × Near (get_or u v 0) low }
            ensures { (result + low ≡ get_or u v 0 + 4128705) × (result ≤ 8257410) }
        { u[v] + 4_128_705 - low },
    )
}
