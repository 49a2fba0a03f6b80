// Potentials that price a branch.
// Steps for other crates, which ask something of their caller.
ghost use Rattle.std.specs.Prelude.{ℕ, ◌≤◌, ◌<◌, ◌+◌, get_or};
ghost use Rattle.tree_bounds.specs.Pricing.{IsLifted};
ghost use Rattle.tree_bounds.specs.Fields.{CanRestIn, IsBoundedIn};

use crate::field::Field;

// Potentials; what they price the required arcs and the links chosen at, or less; and what the branch's trees cost at least by them, but
// for the reduced cost of the link that is chosen next.
#[derive(Clone, Copy)]
pub struct Pricing {
    pub potentials: [u64; 64],
    pub value: u64,
    pub bound: u64,
}

impl Pricing {
    // The prices of a branch from those of a branch below, whose last link goes from tail to head; the old ones where they would be
    // negative.
    pub fn lifted(self, new: Pricing, tail: u8, head: u8) -> Pricing
        requires { (tail < 64) × (head < 64) × (new.value ≤ 3000000000000) × ((v : ℕ) → get_or new.potentials v 0 ≤ 3005697240) }
        ensures { IsLifted self new tail head result }
    {
        let p = new.potentials;
        let more = new.value + p[usize::from(tail)];
        let less = p[usize::from(head)];
        if more < less {
            self
        } else {
            Pricing {
                value: more - less,
                bound: 0,
                ..new
            }
        }
    }

    // The prices with their bound, where R and the d of the links chosen are `fixed`: the components from a on are yet to be chosen for.
    pub fn bounded(self, fixed: u64, at: &Field, a: usize) -> Pricing
        requires { CanRestIn at.now self.potentials a × (fixed + self.value ≤ 3050000000000) }
        ensures { IsBoundedIn at.now self fixed a result }
    {
        Pricing {
            bound: fixed + self.value + at.rest(&self.potentials, a),
            ..self
        }
    }
}
