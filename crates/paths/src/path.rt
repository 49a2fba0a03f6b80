// The arcs of a shortest path, looked up among lent rows: those of the arcs, and one column of
// weights, to the vertex that the path leads to.
// Steps for other crates, which ask something of their caller.
ghost use Rattle.std.specs.Prelude.{◌≡◌, ◌&&◌, [], ℕ, ◌+◌, ◌*◌, ◌<◌, ◌≤◌, eqb, ltb, length, get_or};
ghost use Rattle.postman.specs.Plan.{WellFormed};
ghost use Rattle.postman.specs.Distance.{no_path, distance};
ghost use Rattle.plan.specs.Rows.{plan_in};
ghost use Rattle.paths.specs.ShortestPath.{next_in, shortest_path};
ghost use Rattle.paths.specs.Leaving.{tail_of, IsLeavingChain};
ghost use Rattle.shortest.specs.StepContracts.{IsColumn, overwrite};

// Whether an arc is open, leaves v, and leads on at just the weight that is left.
fn leads(tail: u16, standing: u16, cost: u16, v: usize, after: u32, left: u32) -> bool
    ensures { result ≡ (ltb standing 2 && eqb tail v && eqb (64 * cost + 1 + after) left) }
{
    standing < 2
        && usize::from(tail) == v
        && 64 * u64::from(cost) + 1 + u64::from(after) == u64::from(left)
}

// The arcs that leave each vertex, in ascending order: in place v the first that leaves v, in place 64 + k the next one after
// arc k. Made from the last arc to the first.
pub fn chain_of(arcs: &[[u16; 5]]) -> [u16; 320]
    requires { (length arcs.now ≤ 256) × ((k : ℕ) → k < length arcs.now → tail_of arcs.now k < 64) }
    ensures { IsLeavingChain arcs.now result }
{
    let mut chain = [arcs.len() as u16; 320];
    for k in (0..arcs.len()).rev() {
        let t = usize::from(arcs[k][0]);
        chain[64 + k] = chain[t];
        chain[t] = k as u16;
    }
    chain
}

// The lowest numbered arc with which a lightest path from v begins, to the vertex of the column. The arcs that leave v are met in ascending
// order, so that the first that is taken is the one.
fn next_arc(arcs: &[[u16; 5]], chain: &[u16; 320], column: &[u32], v: usize) -> usize
    requires { WellFormed (plan_in (length column.now) arcs.now) × IsLeavingChain arcs.now chain.now
        × (v < length column.now) }
    ensures { result ≡ next_in arcs.now column.now v }
{
    let mut k = usize::from(chain[v]);
    while k < arcs.len() {
        let h = usize::from(arcs[k][1]);
        if leads(arcs[k][0], arcs[k][2], arcs[k][3], v, column[h], column[v]) {
            return k;
        }
        k = usize::from(chain[64 + k]);
    }
    arcs.len()
}

// Writes the arcs of the path of fewest arcs from i to j into the places from `at` on, and answers the place after them.
pub fn path(
    arcs: &[[u16; 5]],
    chain: &[u16; 320],
    column: &[u32],
    i: usize,
    j: usize,
    places: &mut [u16],
    at: usize,
) -> usize
    requires well_formed { WellFormed (plan_in (length column.now) arcs.now) × IsColumn (plan_in (length column.now) arcs.now) j column.now
        × IsLeavingChain arcs.now chain.now }
    requires has_path { (i < length column.now) × (j < length column.now)
        × (distance (plan_in (length column.now) arcs.now) i j < no_path) }
    requires room { at + length (shortest_path (plan_in (length column.now) arcs.now) i j) ≤ length places.old }
    ensures places_written { places.new
        ≡ overwrite places.old at (shortest_path (plan_in (length column.now) arcs.now) i j) }
    ensures next_place { result ≡ at + length (shortest_path (plan_in (length column.now) arcs.now) i j) }
{
    let mut v = i;
    let mut to = at;
    while v != j {
        let k = next_arc(arcs, chain, column, v);
        places[to] = k as u16;
        v = usize::from(arcs[k][1]);
        to += 1;
    }
    to
}

// The column of the weights to j, out of lent rows of their table.
pub fn column_to(table: &[[u32; 64]], j: usize) -> [u32; 64]
    requires { (length table.now ≤ 64) × (j < 64) }
    ensures { (length result ≡ 64) × ((i : ℕ) → i < length table.now → get_or result i 0 ≡ get_or (get_or table.now i []) j 0) }
{
    let mut column = [0; 64];
    for (i, row) in table.iter().enumerate() {
        column[i] = row[j];
    }
    column
}
