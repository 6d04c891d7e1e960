//! What is kept of a form.

ghost use Rattle.std.specs.Prelude.{◌≡◌};

use bid_book::HandedIn;

/// What is kept of a form: whose it is, how many bids it has, the entry of the journal that has it, and the commitment to its text.
#[derive(Drop)]
pub struct Commitment {
    pub bidder: u16,
    pub bids: u32,
    pub entry: u64,
    pub commit: [u8; 64],
}

impl HandedIn for Commitment {
    ghost bidder_of = { λ c. c.bidder };

    fn bidder(&self) -> u16 {
        self.bidder
    }

    fn is_same(&self, other: &Commitment) -> bool {
        self.bidder == other.bidder
            && self.bids == other.bids
            && self.entry == other.entry
            && self.commit == other.commit
    }
}
