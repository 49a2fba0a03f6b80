// The greatest multipliers that are 0 at a root.
// Steps for other crates, which ask something of their caller.
ghost use Rattle.std.specs.Prelude.{◌≡◌, ◌<◌};
ghost use mathlib.Core.List.{Memᴰ};
ghost use Rattle.residual_search.specs.Bounds.{AtMost};
ghost use Rattle.residual_search.specs.Search.{beyond};
ghost use Rattle.postman.specs.Steps.{cell};
ghost use Rattle.balance.specs.Multipliers.{from_root, multipliers as greatest};
ghost use Rattle.balance.specs.Invariant.{Metric, Certified, limit};
ghost use Rattle.balance.specs.Records.{state_of};

use crate::state::Balance;
use integers::difference;
use residual_search::lengths::Lengths;
use residual_search::search::search_towards;
use residual_search::vertex_list::VertexList;

// The distances in true costs, from that of the root.
fn true_costs(x: &[u64; 64], u: &[u64; 64], vs: VertexList, root: usize) -> [i64; 64]
    requires { (root < 64) × AtMost beyond x.now × AtMost beyond u.now }
    ensures { result ≡ from_root x.now u.now vs.entry.vertices.now root }
{
    let mut r = [0; 64];
    for &v in vs.vertices {
        let i = usize::from(v);
        r[i] = difference(x[i] + u[i], u[root]);
    }
    r
}

// The greatest multipliers that are 0 at the root.
pub fn multipliers(s: Balance, d: &[[u32; 64]; 64], vs: &[u8], root: u8) -> [i64; 64]
    requires { Metric (cell d.now) vs.now × Certified (cell d.now) vs.now (state_of s) × (s.count < limit)
        × Memᴰ root vs.now }
    ensures { result ≡ greatest (cell d.now) vs.now (state_of s) root }
{
    let lengths = Lengths {
        d,
        f: &s.amounts,
        u: &s.potentials,
    };
    let list = VertexList { vertices: vs };
    let found = search_towards(lengths, list, root, root, vs.len());
    true_costs(&found.distance, &s.potentials, list, usize::from(root))
}
