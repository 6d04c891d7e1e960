//! The weights of a pool.

use crate::packages::Quantities;
use std::marker::Model;

/// A weight for each category, 0 where it is no member. Contracts see the list of them.
#[derive(Drop)]
pub struct Weights {
    weights: Quantities,
}

impl Model for Weights {
    ghost use Rattle.std.specs.Prelude.{List, ℕ};

    ghost Value = { List ℕ };

    ghost view = { λ w. w.weights.items };
}

impl Weights {
    ghost use Rattle.std.specs.Prelude.{◌≡◌};

    pub fn new(weights: Quantities) -> Weights
        ensures { result ≡ weights.items }
    {
        Weights { weights }
    }

    pub fn as_slice(&self) -> &[u16]
        ensures { result.now ≡ self.now }
    {
        self.weights.as_slice()
    }
}
