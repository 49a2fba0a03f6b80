// One unit more along a path, and the potentials raised.
ghost use Rattle.std.specs.Prelude.{◌≡◌, ◌<◌, ◌≤◌};
ghost use Rattle.postman.specs.Steps.{amount};
ghost use Rattle.residual_search.specs.Bounds.{AtMost};
ghost use Rattle.residual_search.specs.Search.{beyond};
ghost use Rattle.residual_search.specs.Step.{push, augment, raise};
ghost use Rattle.balance.specs.Invariant.{limit};

use residual_search::vertex_list::VertexList;

// One unit more from v to w: one less of what is sent from w to v, where something is.
fn push(g: &mut [u16; 4096], v: usize, w: usize)
    requires { (v < 64) × (w < 64) × (amount g.old v w < 65535) }
    ensures { g.new ≡ push g.old v w }
{
    if g[w * 64 + v] > 0 {
        g[w * 64 + v] -= 1;
    } else {
        g[v * 64 + w] += 1;
    }
}

// One unit more along the way from h to t.
pub(crate) fn augment_along(g: &mut [u16; 4096], next: &[u8; 64], h: u8, t: u8)
    requires { (h < 64) × (t < 64) × AtMost 63 next.now × AtMost limit g.old }
    ensures { g.new ≡ augment next.now t 64 g.old h }
{
    let mut v = h;
    for _ in 0..64u8 {
        if v == t {
            return;
        }
        let w = next[usize::from(v)];
        push(g, usize::from(v), usize::from(w));
        v = w;
    }
}

// The potentials, raised by the distances, by no more than `most`.
pub(crate) fn raise_by(x: &[u64; 64], most: u64, u: &[u64; 64], vs: VertexList) -> [u64; 64]
    requires { (most ≤ beyond) × AtMost beyond u.now }
    ensures { result ≡ raise x.now most u.now vs.entry.vertices.now }
{
    let mut raised = *u;
    for &v in vs.vertices {
        let i = usize::from(v);
        raised[i] = u[i] + x[i].min(most);
    }
    raised
}
