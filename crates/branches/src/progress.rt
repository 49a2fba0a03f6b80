// The best so far, and how many trees are yet to be skipped, and left to be tried after those.
ghost use Rattle.std.specs.Prelude.{◌≡◌, ℕ};
ghost use Rattle.branches.specs.Links.{links_in};
ghost use Rattle.branches.specs.Progress.{pass_over, try_tree};
ghost use Rattle.branches.specs.Holding.{held_in, is_entered};

#[derive(Clone, Copy)]
pub struct Progress {
    pub cost: u64,
    pub tails: [u8; 8],
    pub heads: [u8; 8],
    pub skip: u64,
    pub left: u64,
}

impl Progress {
    // n trees are passed over.
    pub fn passed(self, n: u64) -> Progress
        ensures { (m : ℕ) → held_in m result ≡ pass_over (held_in m self) n }
    {
        let over = n.saturating_sub(self.skip);
        Progress {
            skip: self.skip.saturating_sub(n),
            left: self.left.saturating_sub(over),
            ..self
        }
    }

    // Whether a branch of n trees is gone into, where they cost at least `least`.
    pub fn enters(self, n: u64, least: u64) -> bool
        ensures { result ≡ is_entered self n least }
    {
        self.skip < n && self.left != 0 && least < self.cost
    }

    // The better of the best so far and a tree, if it is tried.
    fn kept(self, cost: u64, tails: [u8; 8], heads: [u8; 8]) -> Progress
        ensures { (m : ℕ) → pass_over (held_in m result) 1 ≡ try_tree (λ t. cost) (held_in m self) (links_in m tails heads) }
    {
        if self.skip == 0 && 0 < self.left && cost < self.cost {
            Progress {
                cost,
                tails,
                heads,
                ..self
            }
        } else {
            self
        }
    }

    // A tree, and what it costs.
    pub fn completed(self, cost: u64, tails: [u8; 8], heads: [u8; 8]) -> Progress
        ensures { (m : ℕ) → held_in m result ≡ try_tree (λ t. cost) (held_in m self) (links_in m tails heads) }
    {
        self.kept(cost, tails, heads).passed(1)
    }
}
