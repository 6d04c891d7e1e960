//! What workers make, number by number.

ghost use Rattle.std.specs.Prelude.{◌≡◌, ◌<◌, ◌≤◌, ℕ, ⊤, IfOk};
ghost use Rattle.auction_terms.specs.declared.limits.TheConstants.{MOST_GROUPS};

use std::alloc::{AllocError, Global};

/// Makes something of each number below a count, as a program of the number of a group. Several workers share one.
pub trait Maker {
    /// What is made of a number.
    type Made: Send + Drop;

    // How many numbers there are.
    ghost count_of: { Self → ℕ };

    // How many groups come to the gate.
    ghost groups_of: { Self → ℕ };

    // Holds of a number of which something may be made.
    ghost is_due: { Self → ℕ → Type 0 } = { λ _ _. ⊤ };

    // Holds of a number and what may be made of it.
    ghost makes: { Self → ℕ → Self.Made → Type 0 };

    /// How many numbers there are, from 0 on.
    fn count(&self) -> usize
        ensures count { result ≡ count_of self.now }
        ensures few { result ≤ MOST_GROUPS };

    /// How many groups come to the gate, whose numbers are from 1 on there.
    fn groups(&self) -> usize
        ensures groups { result ≡ groups_of self.now }
        ensures few { result ≤ MOST_GROUPS };

    /// What is made of a number.
    fn make(&self, alloc: Global, number: usize) -> Result<Self::Made, AllocError>
        requires below { number < count_of self.now }
        requires due { is_due self.now number }
        ensures { IfOk result (λ made. makes self.now number made) };
}
