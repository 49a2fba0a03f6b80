// Residual lengths between the vertices.
ghost use Rattle.std.specs.Prelude.{◌≡◌, ◌<◌, ◌≤◌};
ghost use Rattle.residual_search.specs.Bounds.{AtMost};
ghost use Rattle.residual_search.specs.Search.{beyond};

// What residual lengths come from: the distances, the amounts that are sent, and the potentials.
#[derive(Clone, Copy)]
pub struct Lengths<'a> {
    pub d: &'a [[u32; 64]; 64],
    pub f: &'a [u16; 4096],
    pub u: &'a [u64; 64],
    pub ghost low: { AtMost beyond u.now },
}

impl Lengths<'_> {
    ghost use Rattle.residual_search.specs.Lengths.{length_in};

    // The residual length of the pair (i, j).
    pub(crate) fn length(self, i: usize, j: usize) -> u64
        requires { (i < 64) × (j < 64) }
        ensures { (result ≡ length_in self.entry i j) × (result ≤ 1103806595071) }
    {
        if self.f[j * 64 + i] > 0 {
            0
        } else {
            (u64::from(self.d[i][j]) + self.u[j]).saturating_sub(self.u[i])
        }
    }
}
