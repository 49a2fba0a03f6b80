// The state of the required arcs once the links of a tree are added.
// Steps for other crates, which ask something of their caller.
ghost use Rattle.std.specs.Prelude.{◌≡◌};
ghost use Rattle.postman.specs.Steps.{cell};
ghost use Rattle.balance.specs.Records.{state_of};
ghost use Rattle.balance.specs.Balance.{balance as balanceOf};
ghost use Rattle.drive_legs.specs.Filled.{links_of};
ghost use Rattle.multipliers.specs.Drive.{table_of};
ghost use Rattle.multipliers.specs.Prepared.{IsTree};
ghost use Rattle.preparation.specs.Prepared.{prepared_plan};

use crate::prepared::Prepared;
use balance::state::Balance;

pub fn with_links(p: &Prepared<'_>, tails: &[u8], heads: &[u8]) -> Balance
    requires { IsTree (prepared_plan p.now) tails.now heads.now }
    ensures { state_of result
        ≡ balanceOf (cell (table_of (prepared_plan p.now))) (prepared_plan p.now) (links_of tails.now heads.now) }
{
    let v = p.parts.vertices;
    balance::state::add_all(p.parts.base, p.table, &v.list[..v.count], tails, heads)
}
