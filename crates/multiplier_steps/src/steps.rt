// Multipliers between the steps of the ascent. They are signed; none lies further from 0 than 2 to the 40, so that no sum overflows.
// Steps for other crates, which ask something of their caller.
ghost use Rattle.std.specs.Prelude.{◌≡◌, ◌<◌, max, ◌-ℤ◌, length};
ghost use Rattle.std.specs.Int.Signed.{shr_z};
ghost use Rattle.integers.specs.Linear.{Within};
ghost use Rattle.residual_search.specs.Search.{beyond};
ghost use Rattle.multiplier_steps.specs.Steps.{AreSmall, capped as cappedTo, capped_all, rooted as rootedAt, carried_to, carried_on, span as largest};

use residual_search::vertex_list::VertexList;

// No multiplier lies further from 0: 2 to the 40.
const BEYOND: i64 = 1_099_511_627_776;

// A number, no further from 0 than 2 to the 40.
pub fn capped(a: i64) -> i64
    ensures { (result ≡ cappedTo a) × Within beyond result }
{
    a.clamp(-BEYOND, BEYOND)
}

// The multipliers of vs, capped; 0 elsewhere.
#[tactic(auto, using(crate::specs::Laws::Turns::turn_by_turn), unfolding(crate::specs::Steps::capped_all))]
pub fn capped_all(x: &[i64; 64], vs: VertexList) -> [i64; 64]
    ensures { result ≡ capped_all x.now vs.entry.vertices.now }
{
    let mut u: [i64; 64] = [0; 64];
    for &v in vs.vertices {
        let v = usize::from(v);
        u[v] = capped(x[v]);
    }
    u
}

// The multipliers less that of the first vertex, which is the root; 0 elsewhere.
#[tactic(auto, using(crate::specs::Laws::Turns::turn_by_turn), unfolding(crate::specs::Steps::rooted))]
pub fn rooted(x: &[i64; 64], vs: VertexList) -> [i64; 64]
    requires { (0 < length vs.vertices.now) × AreSmall beyond x.now }
    ensures { result ≡ rootedAt x.now vs.entry.vertices.now }
{
    let base = x[usize::from(vs.vertices[0])];
    let mut u: [i64; 64] = [0; 64];
    for &v in vs.vertices {
        let v = usize::from(v);
        u[v] = x[v] - base;
    }
    u
}

// A multiplier, and half of the last change once more.
#[tactic(auto, using(crate::specs::Laws::Steps::half_small))]
fn carry(y: i64, x: i64, before: i64) -> i64
    requires { Within beyond y × Within beyond x × Within beyond before }
    ensures { result ≡ carried_to y x before }
{
    y + ((x - before) >> 1)
}

// The multipliers y, with half of the change from `before` to x once more.
#[tactic(auto, using(crate::specs::Laws::Turns::turn_by_turn), unfolding(crate::specs::Steps::carried_on))]
pub fn carry_on(y: [i64; 64], x: &[i64; 64], before: &[i64; 64], vs: VertexList) -> [i64; 64]
    requires { AreSmall beyond x.now × AreSmall beyond before.now }
    ensures { result ≡ carried_on vs.entry.vertices.now y x.now before.now }
{
    let mut z = y;
    for &v in vs.vertices {
        let v = usize::from(v);
        z[v] = carry(capped(y[v]), x[v], before[v]);
    }
    z
}

// The largest distance to the first vertex.
#[tactic(auto, using(crate::specs::Laws::Turns::turn_by_turn), unfolding(crate::specs::Steps::span))]
pub fn span(d: &[[u32; 64]; 64], vs: VertexList) -> u64
    requires { 0 < length vs.vertices.now }
    ensures { result ≡ largest d.now vs.entry.vertices.now }
{
    let root = usize::from(vs.vertices[0]);
    let mut most: u64 = 0;
    for &v in vs.vertices {
        let v = usize::from(v);
        most = most.max(u64::from(d[v][root]));
    }
    most
}
