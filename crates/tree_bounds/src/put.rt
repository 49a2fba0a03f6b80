// A number for each vertex of a list.
ghost use Rattle.std.specs.Prelude.{ℕ, ◌<◌, ◌≤◌, length, get_or};
ghost use Rattle.tree_bounds.specs.Reducible.{ArePut};

// What `of` gives for each of the vertices vs, at its place; 0 at the others.
pub(crate) fn put<F: Fn(usize) -> u64>(vs: &[u8], of: F) -> [u64; 64]
    requires callable { (k : ℕ) → k < length vs.now → (get_or vs.now k 0 < 64) × F.pre of (get_or vs.now k 0) }
    requires low { (v x : ℕ) → F.post of v x → x ≤ 8257410 }
    ensures { ArePut (F.post of) vs.now (length vs.now) result }
{
    let mut r = [0; 64];
    for v in vs {
        let v = usize::from(*v);
        r[v] = of(v);
    }
    r
}
