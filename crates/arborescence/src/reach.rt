// The components reached from component 0, on sets of components as numbers.
// Steps for other crates, which ask something of their caller.
ghost use Rattle.std.specs.Prelude.{◌≡◌, ◌-◌, ◌^◌, ◌<◌, ◌≤◌, get_or};
ghost use Rattle.arborescence.specs.Reach.{enter, sweep, reaches_all};

// The set of component i alone.
pub fn single(i: usize) -> u64
    requires { i < 64 }
    ensures { result ≡ 2 ^ i }
{
    1 << i
}

// s with component i, where the set m of its sources meets s.
#[tactic(auto, unfolding(crate::specs::Reach::enter))]
fn entered(m: u64, i: usize, s: u64) -> u64
    requires { i < 64 }
    ensures { result ≡ enter m i s }
{
    if s & m == 0 { s } else { s | single(i) }
}

// One try for each component but 0.
fn swept(sets: &[u64; 8], k: usize, s: u64) -> u64
    requires { (1 ≤ k) × (k ≤ 8) }
    ensures { result ≡ sweep (λ q. get_or sets.now q 0) (k - 1) s }
{
    let mut r = s;
    for j in 1..k {
        r = entered(sets[j], j, r);
    }
    r
}

// Whether all k components are reached, each entered from the components of its set. It stops at the sweep that
// reaches all, and at the first that adds none.
pub fn all_reached(sets: &[u64; 8], k: usize) -> bool
    requires { (1 ≤ k) × (k ≤ 8) }
    ensures { result ≡ reaches_all (λ q. get_or sets.now q 0) k }
{
    let all = single(k) - 1;
    let mut r = 1;
    for _ in 0..k {
        let s = swept(sets, k, r);
        if s == all {
            return true;
        }
        if s == r {
            return false;
        }
        r = s;
    }
    r == all
}
