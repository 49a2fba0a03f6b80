// Whether what a machine holds for a district can be gone on from: nothing where no tree was tried, else a tree of its plan and what that
// costs. It can, in every machine that entries and turns lead to; no drive is laid from anything else.
ghost use Rattle.std.specs.Prelude.{◌≡◌, ◌≤◌, take};
ghost use Rattle.preparation.specs.Prepared.{prepared_plan};
ghost use Rattle.held_file.specs.Padded.{padded};
ghost use Rattle.district_turn.specs.DistrictTurn.{is_holding};

use preparation::prepared::Prepared;
use tree_check::cost::tree_cost;
use tree_check::tree::is_tree;
use tree_search::trees::Reached;

pub(crate) fn is_holding(p: &Prepared<'_>, g: Reached) -> bool
    ensures { result ≡ is_holding (prepared_plan p.now) g }
{
    if g.tried == 0 {
        return true;
    }
    let net = &p.parts.network;
    let k = usize::from(net.components);
    if !is_tree(g.tails, g.heads, &net.links, &net.component, k) {
        return false;
    }
    let n = k - 1;
    g.cost == tree_cost(p, &g.tails[..n], &g.heads[..n])
}

// The first n of eight, and zeros behind them.
pub(crate) fn first_of(xs: [u8; 8], n: usize) -> [u8; 8]
    requires { n ≤ 8 }
    ensures { result ≡ padded 8 0 (take n xs) }
{
    let mut r = [0u8; 8];
    r[..n].copy_from_slice(&xs[..n]);
    r
}
