// The test of multipliers.
// Steps for other crates, which ask something of their caller.
ghost use Rattle.std.specs.Prelude.{◌≡◌, ◌&&◌, ◌<◌};
ghost use Rattle.integers.specs.Linear.{Within};
ghost use Rattle.residual_search.specs.Search.{beyond};
ghost use Rattle.multiplier_steps.specs.Steps.{AreSmall};
ghost use Rattle.multiplier_steps.specs.Lawful.{passes, is_pair_lawful, is_vertex_lawful, are_lawful};

use pair_costs::pairs::reduced;
use residual_search::vertex_list::VertexList;

// Whether a pair's reduced cost is not negative, and 0 where something is sent.
fn pass(d: u32, f: u16, xi: i64, xj: i64) -> bool
    requires { Within beyond xi × Within beyond xj }
    ensures { result ≡ passes d f xi xj }
{
    let c = reduced(d, xi, xj);
    0 <= c && (f == 0 || c <= 0)
}

// Whether the pair from i to j passes.
fn pair_lawful(d: &[[u32; 64]; 64], f: &[u16; 4096], x: &[i64; 64], i: usize, j: usize) -> bool
    requires { (i < 64) × (j < 64) × AreSmall beyond x.now }
    ensures { result ≡ is_pair_lawful d.now f.now x.now i j }
{
    pass(d[i][j], f[i * 64 + j], x[i], x[j])
}

// Whether all pairs from i pass.
fn vertex_lawful(
    d: &[[u32; 64]; 64],
    f: &[u16; 4096],
    vs: VertexList,
    x: &[i64; 64],
    i: usize,
) -> bool
    requires { (i < 64) × AreSmall beyond x.now }
    ensures { result ≡ is_vertex_lawful d.now f.now x.now vs.entry.vertices.now i }
{
    vs.vertices
        .iter()
        .all(|&v| pair_lawful(d, f, x, i, usize::from(v)))
}

// Whether all pairs pass.
pub fn are_lawful(d: &[[u32; 64]; 64], f: &[u16; 4096], vs: VertexList, x: &[i64; 64]) -> bool
    requires { AreSmall beyond x.now }
    ensures { result ≡ are_lawful d.now f.now x.now vs.entry.vertices.now }
{
    vs.vertices
        .iter()
        .all(|&v| vertex_lawful(d, f, vs, x, usize::from(v)))
}
