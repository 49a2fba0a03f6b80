// The cheapest arborescence over a matrix of costs, by Edmonds: every component takes its cheapest entry; a circle of them is shrunk to one
// component, and the contracted matrix is solved.
// Steps for other crates, which ask something of their caller.
ghost use Rattle.std.specs.Prelude.{◌≡◌, ◌≢◌, true, false, ℕ, ◌/◌, ◌%◌, ◌<◌, ◌≤◌, get_or, set, pos, ◌≤ℤ◌};
ghost use Rattle.std.specs.Option.{MatchOption};
ghost use Rattle.postman.specs.Lists.{iterate};
ghost use Rattle.cheapest_tree.specs.Cheapest.{tree_cost, IsCheapest};
ghost use Rattle.cheapest_tree.specs.CostMatrix.{matrix_of, others_in, IsCostMatrix, highest, line_of, costs_in, IsBest, HasEntries, entry_of, pay_of, IsLost, IsMarked, IsPlace, IsShrunk, kept_of, less as less_by};

// The costs along row f.
#[tactic(auto, unfolding(crate::specs::CostMatrix::place_of))]
fn row_costs(w: &[i64; 64], f: usize) -> [i64; 8]
    requires { f < 8 }
    ensures { (x : ℕ) → x < 8 → costs_in result x ≡ line_of w.now true f x }
{
    std::array::from_fn(|x| w[f * 8 + x])
}

// The costs along column f.
#[tactic(auto, unfolding(crate::specs::CostMatrix::place_of))]
fn column_costs(w: &[i64; 64], f: usize) -> [i64; 8]
    requires { f < 8 }
    ensures { (x : ℕ) → x < 8 → costs_in result x ≡ line_of w.now false f x }
{
    std::array::from_fn(|x| w[x * 8 + f])
}

// A cheapest member of a row or a column, of those that may be taken; `first` is one of them.
fn best(line: [i64; 8], may: [bool; 8], first: usize) -> usize
    requires { (first < 8) × (get_or may first false ≡ true) }
    ensures { IsBest (costs_in line) may 8 result }
{
    let mut r = first;
    for x in 0..8 {
        if may[x] && line[x] < line[r] {
            r = x;
        }
    }
    r
}

// A cheapest entry of component q; component 0 where q is the root or is not left.
fn entry(w: &[i64; 64], left: [bool; 8], q: usize) -> usize
    requires { (q < 8) × (get_or left 0 false ≡ true) }
    ensures in_range { result < 8 }
    ensures root { q ≡ 0 → result ≡ 0 }
    ensures best { 1 ≤ q → get_or left q false ≡ true → IsBest (line_of w.now false q) (set left q false) 8 result }
{
    if q > 0 && left[q] {
        let mut may = left;
        may[q] = false;
        best(column_costs(w, q), may, 0)
    } else {
        0
    }
}

// The entries of all components.
fn entries(w: &[i64; 64], left: [bool; 8]) -> [usize; 8]
    requires { get_or left 0 false ≡ true }
    ensures { HasEntries w.now left 8 result }
{
    std::array::from_fn(|q| entry(w, left, q))
}

// What component q pays.
fn pay(w: &[i64; 64], left: [bool; 8], e: [usize; 8], q: usize) -> i64
    requires { (q < 8) × (get_or e q 0 < 8) }
    ensures { result ≡ pay_of w.now left e q }
{
    if left[q] { w[e[q] * 8 + q] } else { 0 }
}

// The sum of what they pay.
fn paid(w: &[i64; 64], left: [bool; 8], e: [usize; 8]) -> i64
    requires { IsCostMatrix w.now left × HasEntries w.now left 8 e }
    ensures { result ≡ tree_cost (matrix_of w.now) (others_in left) (entry_of e) }
{
    let mut s = 0;
    for q in (1..8).rev() {
        s += pay(w, left, e, q);
    }
    s
}

// A cost less a part of it; 0 where the part is more.
fn cost_less(a: i64, m: i64) -> i64
    requires { (pos 0 ≤ℤ a) × (a ≤ℤ pos highest) × (pos 0 ≤ℤ m) × (m ≤ℤ pos highest) }
    ensures { result ≡ less_by a m }
{
    if a < m { 0 } else { a - m }
}

// The costs less what each component pays.
fn reduced(w: &[i64; 64], left: [bool; 8], e: [usize; 8]) -> [i64; 64]
    requires { IsCostMatrix w.now left × HasEntries w.now left 8 e }
    ensures { (i : ℕ) → i < 64 → get_or result i (pos 0) ≡ less_by (get_or w.now i (pos 0)) (pay_of w.now left e (i % 8)) }
{
    std::array::from_fn(|i| cost_less(w[i], pay(w, left, e, i % 8)))
}

// Where going back 8 entries from component x leads.
fn back(e: [usize; 8], x: usize) -> usize
    requires { (x < 8) × ((q : ℕ) → q < 8 → get_or e q 0 < 8) }
    ensures { (result < 8) × (result ≡ iterate 8 (entry_of e) x) }
{
    let mut y = x;
    for _ in 0..8u8 {
        y = e[y];
    }
    y
}

// A component on a circle of entries, where there is one.
fn lost(left: [bool; 8], e: [usize; 8]) -> Option<usize>
    requires { (q : ℕ) → q < 8 → get_or e q 0 < 8 }
    ensures { MatchOption result (IsLost left e 8 0) (λ y. (y < 8) × (y ≢ 0) × IsLost left e 8 y) }
{
    for q in 1..8 {
        if left[q] {
            let y = back(e, q);
            if y != 0 {
                return Some(y);
            }
        }
    }
    None
}

// The components of the circle through y.
fn circle(e: [usize; 8], y: usize) -> [bool; 8]
    requires { (y < 8) × ((q : ℕ) → q < 8 → get_or e q 0 < 8) }
    ensures { IsMarked e y 8 result }
{
    let mut on = [false; 8];
    let mut x = y;
    for _ in 0..8u8 {
        on[x] = true;
        x = e[x];
    }
    on
}

// Where the cost of entering t from s stands once the components that are marked are one, kept as c.
fn source_place(v: &[i64; 64], on: [bool; 8], c: usize, s: usize, t: usize) -> usize
    requires { (c < 8) × (s < 8) × (t < 8) × (get_or on c false ≡ true) }
    ensures { IsPlace v.now on c s t result }
{
    if t == c {
        s * 8 + best(row_costs(v, s), on, c)
    } else if s == c {
        best(column_costs(v, t), on, c) * 8 + t
    } else {
        s * 8 + t
    }
}

// The costs of the contracted matrix.
fn contracted(v: &[i64; 64], on: [bool; 8], c: usize) -> [i64; 64]
    requires { (c < 8) × (get_or on c false ≡ true) }
    ensures { IsShrunk v.now on c 64 result }
{
    std::array::from_fn(|i| v[source_place(v, on, c, i / 8, i % 8)])
}

// The components that are left in the contracted matrix.
fn remaining(left: [bool; 8], on: [bool; 8], c: usize) -> [bool; 8]
    ensures { (x : ℕ) → x < 8 → get_or result x false ≡ kept_of left on c x }
{
    std::array::from_fn(|x| left[x] && (!on[x] || x == c))
}

// The least cost of an arborescence of the components that are left.
pub fn solve(w: [i64; 64], left: [bool; 8]) -> i64
    requires { IsCostMatrix w left }
    ensures { IsCheapest (others_in left) (matrix_of w) result }
{
    let e = entries(&w, left);
    let s = paid(&w, left, e);
    let Some(y) = lost(left, e) else {
        return s;
    };
    let v = reduced(&w, left, e);
    let on = circle(e, y);
    let m = contracted(&v, on, y);
    let l = remaining(left, on, y);
    s + solve(m, l)
}
