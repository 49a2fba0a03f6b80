// The entries of a page: one search for each first vertex, when the first pair with it is met,
// and from its row the entries of all its pairs.
ghost use Rattle.std.specs.Prelude.{◌≡◌, ◌++◌, map, ◌<◌, ◌≤◌, length, drop};
ghost use Rattle.postman.specs.DistanceCall.{entry as entry_of, search_count};
ghost use Rattle.postman.specs.Steps.{ArePairs};
ghost use Rattle.plan.specs.GoodPlan.{good_plan};
ghost use Rattle.distances.specs.Filling.{entry_by, IsRowPut, IsSearchPut};

use crate::pairs::{first, second};
use plan::good_plan::GoodPlan;

// An entry once the row of `source` is known: the distance, if the pair begins there, else what it was.
fn entry(row: &[u32; 64], source: usize, from: usize, to: usize, old: u32) -> u32
    requires { to < 64 }
    ensures { result ≡ entry_by source row.now from to old }
{
    if from == source { row[to] } else { old }
}

// The entries of the pairs whose first vertex is `source`.
fn put_row(row: &[u32; 64], source: usize, pairs: &[u16], distances: &mut [u32])
    requires { ArePairs 64 pairs.now × (length pairs.now ≤ length distances.old) }
    ensures { IsRowPut source row.now pairs.now distances.old distances.new }
{
    for (k, x) in pairs.iter().enumerate() {
        distances[k] = entry(row, source, first(*x), second(*x), distances[k]);
    }
}

// One search.
fn search(good: &GoodPlan, source: usize, pairs: &[u16], distances: &mut [u32])
    requires { ArePairs (good_plan good.now).n pairs.now × (length pairs.now ≤ length distances.old)
        × (source < 64) }
    ensures { IsSearchPut (good_plan good.now) source pairs.now distances.old distances.new }
{
    let row = shortest::distance::row(good, source);
    put_row(&row, source, pairs, distances);
}

// The entries of all pairs, from the start of the list, and the number of searches.
pub(crate) fn put_entries(good: &GoodPlan, pairs: &[u16], distances: &mut [u32]) -> u16
    requires { ArePairs (good_plan good.now).n pairs.now × (length pairs.now ≤ length distances.old) }
    ensures searches { result ≡ search_count pairs.now }
    ensures entries_written { distances.new
        ≡ map (entry_of (good_plan good.now)) pairs.now ++ drop (length pairs.now) distances.old }
{
    let mut searches: u16 = 0;
    let mut searched = [false; 64];
    for x in pairs {
        let source = first(*x);
        if !searched[source] {
            search(good, source, pairs, distances);
            searched[source] = true;
            searches += 1;
        }
    }
    searches
}
