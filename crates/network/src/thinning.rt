// The pairs of required vertices that are links.
ghost use Rattle.std.specs.Prelude.{◌≡◌, false, ℕ, ◌+◌, ◌*◌, ◌/◌, ◌%◌, ◌≤◌, ◌<◌, eqb, length, get_or};
ghost use Rattle.postman.specs.Lists.{any_of, below};
ghost use Rattle.postman.specs.Steps.{cell};
ghost use Rattle.network.specs.Thinning.{flag, is_pair, is_pair as is_pair_of, between, far, nearby, ways_of, has_no_way, rows_thinned};

// Whether i and j, of which a and b say whether they are required, are a pair.
fn is_pair(i: usize, j: usize, a: bool, b: bool) -> bool
    ensures { result ≡ is_pair i j a b }
{
    i != j && a && b
}

// All pairs of required vertices, (i, j) at 64 i + j.
pub(crate) fn pairs(required: [bool; 64]) -> [bool; 4096]
    ensures { (length result ≡ 4096) × ((i j : ℕ) → i < 64 → j < 64
        → flag result i j ≡ is_pair i j (get_or required i false) (get_or required j false)) }
{
    std::array::from_fn(
        |x|
            requires { x < 4096 }
            ensures { result ≡ is_pair_of (x / 64) (x % 64) (get_or required (x / 64) false) (get_or required (x % 64) false) }
        { is_pair(x / 64, x % 64, required[x / 64], required[x % 64]) },
    )
}

// Whether the way by a third vertex, of costs b and c, costs a.
fn splits(a: u32, b: u32, c: u32) -> bool
    ensures { result ≡ eqb a (b + c) }
{
    u64::from(a) == u64::from(b) + u64::from(c)
}

// 2 to the 30, which no path costs.
const FAR: u32 = 1073741824;

// The distance of a pair, and FAR of what is no pair or has no path: the sum of two such numbers stays below 2 to the 32.
fn near(pair: bool, d: u32) -> u32
    ensures { (result ≡ nearby pair d) × (result ≤ far) }
{
    if pair { d.min(FAR) } else { FAR }
}

// The distances of the pairs from i.
fn row_near(d: &[[u32; 64]; 64], pairs: &[bool; 4096], i: usize) -> [u32; 64]
    requires { i < 64 }
    ensures { (k : ℕ) → k < 64 → get_or result k 0 ≡ nearby (flag pairs.now i k) (cell d.now i k) }
{
    std::array::from_fn(|k| near(pairs[i * 64 + k], d[i][k]))
}

// Those of all pairs, by their heads: of (k, j) at 64 j + k.
fn columns_near(d: &[[u32; 64]; 64], pairs: &[bool; 4096]) -> [u32; 4096]
    ensures { (x : ℕ) → x < 4096
        → get_or result x 0 ≡ nearby (flag pairs.now (x % 64) (x / 64)) (cell d.now (x % 64) (x / 64)) }
{
    std::array::from_fn(|x| near(pairs[x % 64 * 64 + x / 64], d[x % 64][x / 64]))
}

// The number of ways of cost a by a third vertex to j, of distances from a row and from the columns. They are
// counted side by side, with no end at the first.
fn ways(row: &[u32; 64], columns: &[u32; 4096], j: usize, a: u32) -> u32
    requires { (j < 64) × ((k : ℕ) → k < 64 → (get_or row.now k 0 ≤ far) × (get_or columns.now (j * 64 + k) 0 ≤ far)) }
    ensures { result ≡ ways_of row.now columns.now j a }
{
    let mut n: u32 = 0;
    for (&b, &c) in row.iter().zip(&columns[j * 64..j * 64 + 64]) {
        n += u32::from(b + c == a);
    }
    n
}

// Whether there is surely no such way.
fn is_short(row: &[u32; 64], columns: &[u32; 4096], j: usize, a: u32) -> bool
    requires { (j < 64) × ((k : ℕ) → k < 64 → (get_or row.now k 0 ≤ far) × (get_or columns.now (j * 64 + k) 0 ≤ far)) }
    ensures { result ≡ has_no_way row.now columns.now j a }
{
    a < FAR && ways(row, columns, j, a) == 0
}

// Thinning. Each pair that is held has its turn, and is dropped at the first via vertex by pairs that are still held: the `break` moves on
// to the next pair. Where no distances add up to that of the pair, no via vertex is looked for.
pub(crate) fn thin(d: &[[u32; 64]; 64], pairs: [bool; 4096]) -> [bool; 4096]
    requires { length pairs ≡ 4096 }
    ensures { result ≡ rows_thinned d.now pairs 64 }
{
    let mut held = pairs;
    let columns = columns_near(d, &pairs);
    for i in 0..64 {
        let row = row_near(d, &pairs, i);
        for j in 0..64 {
            'pair: loop {
                if !held[i * 64 + j] {
                    break 'pair;
                }
                if is_short(&row, &columns, j, d[i][j]) {
                    break 'pair;
                }
                for k in 0..64 {
                    if splits(d[i][j], d[i][k], d[k][j]) && held[i * 64 + k] && held[k * 64 + j] {
                        held[i * 64 + j] = false;
                        break 'pair;
                    }
                }
                break 'pair;
            }
        }
    }
    held
}
