// A(u): the least reduced cost of a pair for each two components, and the cheapest arborescence over these.
// Steps for other crates, which ask something of their caller.
ghost use Rattle.std.specs.Prelude.{◌≡◌, false, ℕ, ◌<◌, ◌≤◌, get_or, ltb, pos, ◌+ℤ◌, ◌-ℤ◌};
ghost use Rattle.integers.specs.Linear.{Within};
ghost use Rattle.postman.specs.Plan.{Plan, WellFormed};
ghost use Rattle.postman.specs.LagrangianBound.{cheapest_arborescence};
ghost use Rattle.postman.specs.Steps.{Feasible};
ghost use Rattle.pair_costs.specs.PairCosts.{cost_of, ArePairCosts, AreLeastOffers, HoldsNetwork, multipliers_in};

use cheapest_tree::cheapest;

// More than any reduced cost is not.
const HIGHEST: i64 = 8257410;

// "d(i,j) − u(i) + u(j)"
pub fn reduced(d: u32, a: i64, b: i64) -> i64
    requires { Within 1099511627776 a × Within 1099511627776 b }
    ensures { result ≡ pos d -ℤ a +ℤ b }
{
    i64::from(d) - a + b
}

// The reduced cost of a pair.
fn cost(d: &[[u32; 64]; 64], u: &[i64; 64], i: usize, j: usize) -> i64
    requires { (i < 64) × (j < 64) × Within 1099511627776 (get_or u.now i (pos 0)) × Within 1099511627776 (get_or u.now j (pos 0)) }
    ensures { result ≡ cost_of d.now u.now i j }
{
    reduced(d[i][j], u[i], u[j])
}

// The least reduced cost for each two components.
fn pair_costs(
    d: &[[u32; 64]; 64],
    u: &[i64; 64],
    component: &[u8; 64],
    required: &[bool; 64],
) -> [i64; 64]
    requires { ArePairCosts d.now u.now component.now required.now }
    ensures { AreLeastOffers d.now u.now component.now required.now 4096 result }
{
    let mut m = [HIGHEST; 64];
    for l in 0..4096 {
        let i = l / 64;
        let j = l % 64;
        if required[i] && required[j] {
            let x = usize::from(component[i]) * 8 + usize::from(component[j]);
            m[x] = m[x].min(cost(d, u, i, j));
        }
    }
    m
}

// The components there are at first.
fn all_left(k: usize) -> [bool; 8]
    ensures { (q : ℕ) → q < 8 → get_or result q false ≡ ltb q k }
{
    std::array::from_fn(|q| q < k)
}

// A(u), the least sum of reduced costs over all arborescences of links, for multipliers u under which no pair of
// required vertices has a negative reduced cost.
pub fn cheapest_arborescence(
    d: &[[u32; 64]; 64],
    u: &[i64; 64],
    component: &[u8; 64],
    required: &[bool; 64],
    k: usize,
) -> i64
    requires { (1 ≤ k) × (k ≤ 8) × ArePairCosts d.now u.now component.now required.now }
    ensures { (p : Plan) → WellFormed p → HoldsNetwork p d.now component.now required.now k
        → Feasible p (multipliers_in u.now) → result ≡ cheapest_arborescence p (multipliers_in u.now) }
{
    cheapest::solve(pair_costs(d, u, component, required), all_left(k))
}
