//! What a bidder hands in.

ghost use Rattle.std.specs.Prelude.{◌≡◌, ◌↔◌, ℕ, IsTrue};

use bid_forms::Form;

/// What a bidder hands in: a form, or what is kept in its place. It is of one bidder, and can be compared.
pub trait HandedIn: Drop {
    /// The number of its bidder.
    ghost bidder_of: { Self → ℕ };

    /// The number of its bidder.
    fn bidder(&self) -> u16
        ensures { result ≡ bidder_of self.now };

    /// Whether both are the same.
    fn is_same(&self, other: &Self) -> bool
        ensures { IsTrue result ↔ (self.now ≡ other.now) };
}

impl HandedIn for Form {
    ghost bidder_of = { λ form. form.bidder };

    fn bidder(&self) -> u16 {
        self.bidder()
    }

    fn is_same(&self, other: &Form) -> bool {
        self.is_same(other)
    }
}
