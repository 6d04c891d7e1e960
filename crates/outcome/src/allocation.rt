//! Allocations as lists of choices.

ghost use Rattle.std.specs.Prelude.{◌≡◌};
ghost use Rattle.outcome.specs.Ties.{same_choices};

use auction_terms::Choice;
use std::marker::Model;

/// Who wins which bid. Contracts see the list of the choices, by rising bidder.
#[derive(Drop)]
pub struct Allocation {
    choices: Vec<Choice>,
}

impl Model for Allocation {
    ghost use Rattle.std.specs.Prelude.{List};
    ghost use Rattle.auction_terms.specs.declared.bids.Choice.{Choice};
    ghost use Rattle.outcome.specs.PointAllocation.{HasRisingBidders};

    ghost Value = { List Choice };

    ghost view = { λ a. a.choices.items };

    ghost invariant = { λ a. HasRisingBidders a.choices.items };
}

impl Allocation {
    ghost use Rattle.std.specs.Prelude.{◌≡◌};
    ghost use Rattle.outcome.specs.PointAllocation.{HasRisingBidders};

    pub(crate) fn new(choices: Vec<Choice>) -> Allocation
        requires { HasRisingBidders choices.items }
        ensures { result ≡ choices.items }
    {
        Allocation { choices }
    }

    /// The bidders with the numbers of their bids, by rising bidder.
    pub fn choices(&self) -> &[Choice]
        ensures choices { result.now ≡ self.now }
        ensures rising { HasRisingBidders self.now }
    {
        self.choices.as_slice()
    }
}

/// Whether the same bidders win the same bids.
pub fn same_winners(one: &Allocation, other: &Allocation) -> bool
    ensures { result ≡ same_choices one.now other.now }
{
    one.choices() == other.choices()
}
