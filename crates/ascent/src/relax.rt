// Multipliers brought back under document 01's two conditions: every vertex whose multiplier
// changed asks of all others, until none is open.
ghost use Rattle.std.specs.Prelude.{◌≡◌, ◌&&◌, ◌<◌, eqb};
ghost use Rattle.integers.specs.Linear.{Within};
ghost use Rattle.residual_search.specs.Search.{beyond};
ghost use Rattle.ascent.specs.Relax.{back_place, is_ahead, asks, overtakes as overtakesIn, move_vertex, move_all, ask as askAll, sweep as sweepAll, are_closed, settled};

use multiplier_steps::steps::{capped, capped_all};
use residual_search::vertex_list::VertexList;

// Where the amount stands that decides what w asks of v.
fn place(up: bool, v: usize, w: usize) -> usize
    requires { (v < 64) × (w < 64) }
    ensures { (result ≡ back_place up v w) × (result < 4096) }
{
    if up { v * 64 + w } else { w * 64 + v }
}

// Whether it asks for more than its own multiplier.
fn ahead(up: bool, back: u16) -> bool
    ensures { result ≡ is_ahead up back }
{
    up == (back > 0)
}

// What a vertex with the multiplier `base` asks.
fn asked(up: bool, back: u16, near: u32, far: u32, base: i64) -> i64
    requires { Within beyond base }
    ensures { result ≡ asks up back near far base }
{
    if ahead(up, back) {
        base + i64::from(near)
    } else {
        base - i64::from(far)
    }
}

// Whether a multiplier follows what is asked: up, where that is more; else where it is less.
fn overtakes(up: bool, c: i64, old: i64) -> bool
    ensures { result ≡ overtakesIn up c old }
{
    if up { old < c } else { c < old }
}

// What the multipliers are brought back under: the distances, the amounts and the vertices; up from below, or down from above.
#[derive(Clone, Copy)]
pub(crate) struct Pairs<'a> {
    pub(crate) d: &'a [[u32; 64]; 64],
    pub(crate) f: &'a [u16; 4096],
    pub(crate) vs: VertexList<'a>,
    pub(crate) up: bool,
}

impl<'a> Pairs<'a> {
    // v follows what w asks.
    fn move_vertex(&self, v: usize, w: usize, base: i64, x: &mut [i64; 64], marks: &mut [u8; 64])
        requires { (v < 64) × (w < 64) × Within beyond base }
        ensures { (x.new, marks.new)
            ≡ move_vertex self.now.d.now self.now.f.now self.now.up w base (x.old, marks.old) v }
    {
        let back = self.f[place(self.up, v, w)];
        let c = asked(self.up, back, self.d[v][w], self.d[w][v], base);
        if overtakes(self.up, c, x[v]) {
            x[v] = c;
            marks[v] = 1;
        }
    }

    // All follow what w asks.
    #[tactic(auto, using(multiplier_steps::specs::Laws::Turns::turn_by_turn), unfolding(crate::specs::Relax::move_all))]
    fn move_all(&self, w: usize, base: i64, x: &mut [i64; 64], marks: &mut [u8; 64])
        requires { (w < 64) × Within beyond base }
        ensures { (x.new, marks.new)
            ≡ move_all self.now.d.now self.now.f.now self.now.up self.now.vs.vertices.now w base (x.old, marks.old) }
    {
        for &v in self.vs.vertices {
            self.move_vertex(usize::from(v), w, base, x, marks);
        }
    }

    // w asks, if it is open.
    fn ask(&self, w: usize, x: &mut [i64; 64], marks: &mut [u8; 64])
        requires { w < 64 }
        ensures { (x.new, marks.new)
            ≡ askAll self.now.d.now self.now.f.now self.now.up self.now.vs.vertices.now (x.old, marks.old) w }
    {
        if marks[w] > 0 {
            marks[w] = 0;
            let base = capped(x[w]);
            self.move_all(w, base, x, marks);
        }
    }

    // Each open vertex asks once.
    #[tactic(auto, using(multiplier_steps::specs::Laws::Turns::turn_by_turn), unfolding(crate::specs::Relax::sweep))]
    fn sweep(&self, x: &mut [i64; 64], marks: &mut [u8; 64])
        ensures { (x.new, marks.new)
            ≡ sweepAll self.now.d.now self.now.f.now self.now.up self.now.vs.vertices.now (x.old, marks.old) }
    {
        for &w in self.vs.vertices {
            self.ask(usize::from(w), x, marks);
        }
    }

    // The multipliers under the two conditions: the largest that each allows the others, or, up, the least. Capped, so that they are small.
    pub(crate) fn settle(&self, x: [i64; 64]) -> [i64; 64]
        ensures { result ≡ settled self.now.d.now self.now.f.now self.now.up self.now.vs.vertices.now x }
    {
        let mut y = x;
        let mut marks: [u8; 64] = [1; 64];
        for _ in 0..64usize {
            if all_closed(&marks, self.vs) {
                break;
            }
            self.sweep(&mut y, &mut marks);
        }
        capped_all(&y, self.vs)
    }
}

// Whether no vertex is open.
fn all_closed(marks: &[u8; 64], vs: VertexList) -> bool
    ensures { result ≡ are_closed vs.entry.vertices.now marks.now }
{
    vs.vertices.iter().all(|&v| marks[usize::from(v)] == 0)
}
