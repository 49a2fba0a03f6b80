// The cost of a tree: "R, plus the d of its links, plus the least balancing once the links are counted in D as arcs".
// Steps for other crates, which ask something of their caller.
ghost use Rattle.std.specs.Prelude.{◌≡◌, ◌≤◌, ◌<◌, length};
ghost use Rattle.postman.specs.Balancing.{completion_cost};
ghost use Rattle.postman.specs.Steps.{cell};
ghost use Rattle.drive_legs.specs.Filled.{links_of};
ghost use Rattle.multipliers.specs.Prepared.{IsTree};
ghost use Rattle.preparation.specs.Prepared.{prepared_plan};
ghost use Rattle.tree_check.specs.Cost.{table_cost, AreVertices};

use preparation::links::with_links;
use preparation::prepared::Prepared;

fn distance_at(d: &[[u32; 64]; 64], tail: u8, head: u8) -> u64
    requires { (tail < 64) × (head < 64) }
    ensures { result ≡ cell d.now tail head }
{
    u64::from(d[usize::from(tail)][usize::from(head)])
}

// The d of the links.
fn link_cost(d: &[[u32; 64]; 64], tails: &[u8], heads: &[u8]) -> u64
    requires { AreVertices tails.now × AreVertices heads.now × (length heads.now ≡ length tails.now)
        × (table_cost d.now (links_of tails.now heads.now) ≤ 1131527310) }
    ensures { result ≡ table_cost d.now (links_of tails.now heads.now) }
{
    let mut cost = 0u64;
    for (&tail, &head) in tails.iter().zip(heads) {
        cost += distance_at(d, tail, head);
    }
    cost
}

pub fn tree_cost(p: &Prepared<'_>, tails: &[u8], heads: &[u8]) -> u64
    requires { IsTree (prepared_plan p.now) tails.now heads.now }
    ensures { result ≡ completion_cost (prepared_plan p.now) (links_of tails.now heads.now) }
{
    let full = with_links(p, tails, heads);
    let links = link_cost(p.table, tails, heads);
    p.parts.network.required_cost + links + full.cost
}
