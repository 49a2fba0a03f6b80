// Whether the links that a machine holds for a district are a tree of its plan. They are, in every machine that entries and
// turns lead to; no drive is laid from others.
// Steps for other crates, which ask something of their caller.
ghost use Rattle.std.specs.Prelude.{◌≡◌, true, ◌%◌, ◌^◌, ◌≤◌, ◌<◌, get_or};
ghost use Rattle.tree_check.specs.Tree.{IsEntry, IsHeldTree};

use arborescence::reach::{all_reached, single};

// Whether the link from t to h enters component q from another.
fn enters(t: u8, h: u8, links: &[bool; 4096], component: &[u8; 64], q: usize) -> bool
    ensures { (result ≡ true → IsEntry links.now component.now t h q)
        × (IsEntry links.now component.now t h q → result ≡ true) }
{
    if 64 <= t || 64 <= h {
        return false;
    }
    let (i, j) = (usize::from(t), usize::from(h));
    links[i * 64 + j] && usize::from(component[j]) == q && usize::from(component[i]) != q
}

// The set of the component of t alone.
fn source_set(t: u8, component: &[u8; 64]) -> u64
    requires { t < 64 }
    ensures { result ≡ 2 ^ (get_or component.now t 0 % 64) }
{
    single(usize::from(component[usize::from(t)]) % 64)
}

// Whether the first k - 1 links enter components 1 to k - 1, and going back along them arrives at component 0.
pub fn is_tree(
    tails: [u8; 8],
    heads: [u8; 8],
    links: &[bool; 4096],
    component: &[u8; 64],
    k: usize,
) -> bool
    requires { (1 ≤ k) × (k ≤ 8) }
    ensures { (result ≡ true → IsHeldTree links.now component.now tails heads k)
        × (IsHeldTree links.now component.now tails heads k → result ≡ true) }
{
    let mut sets = [0u64; 8];
    for q in 1..k {
        let t = tails[q - 1];
        if !enters(t, heads[q - 1], links, component, q) {
            return false;
        }
        sets[q] = source_set(t, component);
    }
    all_reached(&sets, k)
}
