//! Groups of bidders.

use std::marker::Model;

/// A set of bidder numbers. Contracts see the list of them, rising.
#[derive(Drop)]
pub struct Group {
    numbers: Vec<u16>,
}

impl Model for Group {
    ghost use Rattle.std.specs.Prelude.{List, ℕ};
    ghost use Rattle.auction_terms.specs.Groups.{IsGroup};

    ghost Value = { List ℕ };

    ghost view = { λ g. g.numbers.items };

    ghost invariant = { λ g. IsGroup g.numbers.items };
}

impl Group {
    ghost use Rattle.std.specs.Prelude.{◌≡◌, ◌==◌, length};
    ghost use Rattle.auction_terms.specs.Groups.{IsGroup, has};

    pub(crate) fn new(numbers: Vec<u16>) -> Group
        requires { IsGroup numbers.items }
        ensures { result ≡ numbers.items }
    {
        Group { numbers }
    }

    /// Whether a bidder is in the group.
    pub fn has(&self, bidder: u16) -> bool
        ensures member { result ≡ has self.now bidder }
        ensures group { IsGroup self.now }
    {
        self.numbers.contains(&bidder)
    }

    /// The numbers of its bidders, rising.
    pub fn numbers(&self) -> &[u16]
        ensures numbers { result.now ≡ self.now }
        ensures group { IsGroup self.now }
    {
        self.numbers.as_slice()
    }

    pub(crate) fn is_empty(&self) -> bool
        ensures { result ≡ (length self.now == 0) }
    {
        self.numbers.len() == 0
    }
}
