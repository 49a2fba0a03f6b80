// The cheapest arborescence: a circle of cheapest links is shrunk, and the contracted matrix solved.
#![tactic(auto)]

pub mod cheapest;
