// L(u), and the floor.
// Steps for other crates, which ask something of their caller.
ghost use Rattle.std.specs.Prelude.{◌≡◌, cond, ◌≤◌, pos, ◌+ℤ◌, ◌*ℤ◌, replicate};
ghost use Rattle.integers.specs.Linear.{Within};
ghost use Rattle.postman.specs.Lists.{maxℤ};
ghost use Rattle.postman.specs.Plan.{Plan};
ghost use Rattle.postman.specs.LagrangianBound.{lagrangian_bound};
ghost use Rattle.pair_costs.specs.PairCosts.{multipliers_in};
ghost use Rattle.multiplier_steps.specs.Steps.{AreSmall};
ghost use Rattle.lagrangian.specs.Price.{price_of};
ghost use Rattle.lagrangian.specs.Priced.{IsPriced};

// "the larger of L(0) and L(u)"
#[tactic(auto, using(crate::specs::Laws::Price::max_is))]
fn larger(a: i64, b: i64) -> i64
    ensures { result ≡ maxℤ a b }
{
    a.max(b)
}

// A sum, and u(i) × D(i).
fn plus(sum: i64, u: i64, d: i64) -> i64
    requires { Within 67644702720 sum × Within 4128705 u × Within 256 d }
    ensures { result ≡ sum +ℤ u *ℤ d }
{
    sum + u * d
}

// "sum of u(i) × D(i)"
fn price(u: &[i64; 64], imbalance: &[i64; 64]) -> i64
    requires { AreSmall 4128705 u.now × AreSmall 256 imbalance.now }
    ensures { (result ≡ price_of u.now imbalance.now 64) × Within 67644702720 result }
{
    let mut sum: i64 = 0;
    for (i, &level) in u.iter().enumerate() {
        sum = plus(sum, level, imbalance[i]);
    }
    sum
}

// Three parts of a bound.
fn total(required_cost: u64, price: i64, cheapest: i64) -> i64
    requires { (required_cost ≤ 4398046511104) × Within 67644702720 price × Within 66059280 cheapest }
    ensures { result ≡ pos required_cost +ℤ price +ℤ cheapest }
{
    required_cost as i64 + price + cheapest
}

// "L(u) = R + (sum of u(i) × D(i)) + A(u)."
pub fn lagrangian(
    table: &[[u32; 64]; 64],
    u: &[i64; 64],
    component: &[u8; 64],
    required: &[bool; 64],
    k: usize,
    required_cost: u64,
    imbalance: &[i64; 64],
) -> i64
    requires { (p : Plan) × IsPriced p table.now u.now component.now required.now k required_cost imbalance.now }
    ensures { (p : Plan)
        → IsPriced p table.now u.now component.now required.now k required_cost
        imbalance.now → result ≡ lagrangian_bound p (multipliers_in u.now) }
{
    let a = pair_costs::pairs::cheapest_arborescence(table, u, component, required, k);
    total(required_cost, price(u, imbalance), a)
}

// The floor: "the cost if whole, else the larger of L(0) and L(u)", where `bound` is L(u).
pub fn floor_of(
    table: &[[u32; 64]; 64],
    component: &[u8; 64],
    required: &[bool; 64],
    k: usize,
    required_cost: u64,
    imbalance: &[i64; 64],
    bound: i64,
    whole: bool,
    cost: u64,
) -> i64
    requires { ((p : Plan) × IsPriced p table.now (replicate 64 (pos 0)) component.now required.now k required_cost imbalance.now)
        × (cost ≤ 4398046511104) }
    ensures { (p : Plan)
        → IsPriced p table.now (replicate 64 (pos 0)) component.now required.now k required_cost
        imbalance.now → result ≡ cond whole (pos cost) (maxℤ (lagrangian_bound p (λ i. pos 0)) bound) }
{
    if whole {
        return cost as i64;
    }
    let without = lagrangian(
        table,
        &[0; 64],
        component,
        required,
        k,
        required_cost,
        imbalance,
    );
    larger(without, bound)
}
