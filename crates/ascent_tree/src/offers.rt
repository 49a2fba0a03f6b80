// The cheapest pair for each two components.
// Steps for other crates, which ask something of their caller.
ghost use Rattle.std.specs.Prelude.{◌≡◌, ◌*◌, ◌<◌, pos, get_or};
ghost use Rattle.residual_search.specs.Search.{beyond};
ghost use Rattle.multiplier_steps.specs.Steps.{AreSmall};
ghost use Rattle.ascent_tree.specs.Offers.{part, offer, offers_from, offers as offersOf};

use pair_costs::pairs::reduced;
use residual_search::vertex_list::VertexList;

// The component of a vertex.
fn part_of(component: &[u8; 64], v: usize) -> usize
    requires { v < 64 }
    ensures { (result ≡ part component.now v) × (result < 8) }
{
    usize::from(component[v] % 8)
}

// The pair from i to j is offered. What is the tail's, its component's row and its multiplier, is looked up once for all pairs from it.
fn offer_pair(
    d: &[[u32; 64]; 64],
    x: &[i64; 64],
    component: &[u8; 64],
    i: usize,
    row: usize,
    xi: i64,
    j: usize,
    m: &mut [i64; 64],
    at: &mut [u16; 64],
)
    requires { (i < 64) × (j < 64) × (row ≡ part component.now i * 8) × (xi ≡ get_or x.now i (pos 0)) × AreSmall beyond x.now }
    ensures { (m.new, at.new)
        ≡ offer d.now x.now component.now i (m.old, at.old) j }
{
    let l = row + part_of(component, j);
    let c = reduced(d[i][j], xi, x[j]);
    if c < m[l] {
        m[l] = c;
        at[l] = (i * 64 + j) as u16;
    }
}

// All pairs from i are offered.
#[tactic(auto, using(multiplier_steps::specs::Laws::Turns::turn_by_turn), unfolding(crate::specs::Offers::offers_from))]
fn offer_from(
    d: &[[u32; 64]; 64],
    x: &[i64; 64],
    component: &[u8; 64],
    vs: VertexList,
    i: usize,
    m: &mut [i64; 64],
    at: &mut [u16; 64],
)
    requires { (i < 64) × AreSmall beyond x.now }
    ensures { (m.new, at.new)
        ≡ offers_from d.now x.now component.now vs.entry.vertices.now (m.old, at.old) i }
{
    let row = part_of(component, i) * 8;
    let xi = x[i];
    for &v in vs.vertices {
        offer_pair(d, x, component, i, row, xi, usize::from(v), m, at);
    }
}

// The offers: reduced costs, which are signed, and the pairs that make them.
#[derive(Clone, Copy)]
pub struct Cheapest {
    pub costs: [i64; 64],
    pub pairs: [u16; 64],
}

// All pairs are offered.
#[tactic(auto, using(multiplier_steps::specs::Laws::Turns::turn_by_turn), unfolding(crate::specs::Offers::offers))]
pub fn offers(d: &[[u32; 64]; 64], x: &[i64; 64], component: &[u8; 64], vs: VertexList) -> Cheapest
    requires { AreSmall beyond x.now }
    ensures { (result.costs, result.pairs) ≡ offersOf d.now x.now component.now vs.entry.vertices.now }
{
    let mut m: [i64; 64] = [1099511627776; 64];
    let mut at: [u16; 64] = [0; 64];
    for &v in vs.vertices {
        offer_from(d, x, component, vs, usize::from(v), &mut m, &mut at);
    }
    Cheapest {
        costs: m,
        pairs: at,
    }
}
