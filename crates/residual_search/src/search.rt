// Dijkstra's search towards a vertex, over residual lengths.
// Steps for other crates, which ask something of their caller.
ghost use Rattle.std.specs.Prelude.{◌≡◌, cond, ◌<◌, ◌≤◌, min, get_or, set, eqb, ltb};
ghost use mathlib.Core.List.{Memᴰ};
ghost use Rattle.residual_search.specs.Search.{beyond, relax, nearest};
ghost use Rattle.residual_search.specs.Until.{until, settled_by};
ghost use Rattle.residual_search.specs.Lengths.{length_in};
ghost use Rattle.residual_search.specs.Found.{found_of};

use crate::lengths::Lengths;
use crate::vertex_list::VertexList;

// Further than every distance.
const BEYOND: u64 = 1099511627776;

// The distances to a vertex, the next vertices on the way, and when each vertex was settled.
#[derive(Clone, Copy)]
pub struct Found {
    pub distance: [u64; 64],
    pub next: [u8; 64],
    pub rank: [u8; 64],
}

// The distance of a vertex that is not settled.
fn open_distance(rank: u8, x: u64) -> u64
    ensures { result ≡ cond (eqb rank 0) x beyond }
{
    if rank == 0 { x } else { BEYOND }
}

impl Found {
    // v goes by w where that is nearer, at the distance c. What its distance is then.
    fn relax_at(&mut self, v: usize, c: u64, w: u8) -> u64
        requires { v < 64 }
        ensures distance { self.new.distance ≡ set self.old.distance v (min c (get_or self.old.distance v 0)) }
        ensures next { self.new.next ≡ set self.old.next v (cond (ltb c (get_or self.old.distance v 0)) w (get_or self.old.next v 0)) }
        ensures rank { self.new.rank ≡ self.old.rank }
        ensures now { result ≡ min c (get_or self.old.distance v 0) }
    {
        if c < self.distance[v] {
            self.distance[v] = c;
            self.next[v] = w;
        }
        self.distance[v]
    }

    // Every vertex may go by w, which is `base` away from the target. The nearest then of the
    // vertices that are not settled, as each is relaxed.
    fn relax(&mut self, lengths: Lengths, vs: VertexList, w: u8, base: u64, goal: u8) -> u8
        requires { (w < 64) × (base ≤ beyond) × (goal < 64) × Memᴰ goal vs.vertices.now }
        ensures relaxed { (self.new.distance, self.new.next)
            ≡ relax (length_in lengths.entry) vs.entry.vertices.now w base (self.old.distance, self.old.next) }
        ensures rank { self.new.rank ≡ self.old.rank }
        ensures nearest { result ≡ nearest vs.entry.vertices.now goal self.new.distance self.new.rank }
        ensures in_range { result < 64 }
    {
        let by = usize::from(w);
        let end = usize::from(goal);
        let last = (base + lengths.length(end, by)).min(self.distance[end]);
        let mut best = goal;
        let mut low = open_distance(self.rank[end], last);
        for &v in vs.vertices {
            let i = usize::from(v);
            let c = base + lengths.length(i, by);
            let y = self.relax_at(i, c, w);
            let key = open_distance(self.rank[i], y);
            if key < low {
                best = v;
                low = key;
            }
        }
        best
    }
}

// How many vertices are to be settled at most, of n: t alone, where it is the goal.
pub fn settled_by(t: u8, goal: u8, n: usize) -> usize
    ensures { result ≡ settled_by t goal n }
{
    if t == goal { 1 } else { n }
}

// The search towards t, until the goal is the nearest, or `most` vertices are settled.
pub fn search_towards(lengths: Lengths, vs: VertexList, t: u8, goal: u8, most: usize) -> Found
    requires { (t < 64) × (goal < 64) × Memᴰ goal vs.vertices.now × (most ≤ 64) }
    ensures { found_of result
        ≡ until (length_in lengths.entry) vs.entry.vertices.now t goal most }
{
    let mut found = Found {
        distance: [BEYOND; 64],
        next: [t; 64],
        rank: [0; 64],
    };
    found.rank[usize::from(t)] = 1;
    let mut w = found.relax(lengths, vs, t, 0, goal);
    let mut k = 1;
    while usize::from(k) < most && w != goal {
        k += 1;
        found.rank[usize::from(w)] = k;
        let base = found.distance[usize::from(w)];
        w = found.relax(lengths, vs, w, base, goal);
    }
    found
}
