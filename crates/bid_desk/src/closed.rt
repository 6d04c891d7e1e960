//! The book of a settled round.

use auction_terms::Rules;
use bid_book::{Book, Entry};
use bid_forms::Form;
use std::marker::Model;

/// The rules, the settled history, and the forms that it leaves standing.
#[derive(Drop)]
pub struct ClosedBook {
    rules: Rules,
    book: Book,
}

impl Model for ClosedBook {
    ghost use Rattle.bid_desk.specs.Closing.{Closing, IsClosing, closing};

    ghost Value = { Closing };

    ghost view = { λ c. closing c.rules c.book };

    ghost invariant = { λ c. IsClosing (closing c.rules c.book) };
}

impl ClosedBook {
    ghost use Rattle.std.specs.Prelude.{◌≡◌, length, map, IfSome};
    ghost use Rattle.std.specs.Option.{option_map, option_copied};
    ghost use Rattle.auction_terms.specs.Allocations.{form_of};
    ghost use Rattle.auction_terms.specs.Limits.{IsBook, IsLots};
    ghost use Rattle.auction_terms.specs.Terms.{lots_in};
    ghost use Rattle.bid_forms.specs.Offers.{Meets};
    ghost use Rattle.bid_book.specs.History.{entry_value, standing_of};
    ghost use Rattle.bid_desk.specs.Closing.{IsClosing, bids_in, book_of, closing};

    pub(crate) fn new(rules: Rules, book: Book) -> ClosedBook
        requires { IsClosing (closing rules book) }
        ensures { result ≡ closing rules book }
    {
        ClosedBook { rules, book }
    }

    /// The rules. They, and the standing forms, are within the limits of an auction.
    pub fn rules(&self) -> &Rules
        ensures rules { result.now ≡ self.now.rules }
        ensures lots { IsLots (lots_in self.now.rules) }
        ensures book { IsBook (lots_in self.now.rules) (book_of self.now) }
        ensures bidders { length (book_of self.now) ≡ length self.now.rules.bidders }
    {
        &self.rules
    }

    /// What every closed book keeps to: its rules and its standing forms are within the limits of an auction.
    pub fn within_limits(&self)
        ensures lots { IsLots (lots_in self.now.rules) }
        ensures book { IsBook (lots_in self.now.rules) (book_of self.now) }
        ensures bidders { length (book_of self.now) ≡ length self.now.rules.bidders }
    {
        self.rules();
    }

    /// What the history of a closed book is: legal, of its rules, and closed.
    pub fn well_formed(&self)
        ensures closing { IsClosing self.now }
    {
        self.history();
    }

    /// The settled history.
    pub fn history(&self) -> &[Entry]
        ensures entries { map entry_value result.now ≡ self.now.history }
        ensures closing { IsClosing self.now }
    {
        self.book.history()
    }

    /// The form that a bidder leaves standing.
    pub fn form(&self, bidder: u16) -> Option<&Form>
        ensures standing { option_copied result ≡ option_map (λ s. s.form)
            (standing_of self.now.history bidder) }
        ensures bids { bids_in (option_copied result) ≡ form_of (book_of self.now) bidder }
        ensures meets { IfSome result (λ form. Meets self.now.rules form.now) }
    {
        match self.book.standing(bidder) {
            None => None,
            Some(standing) => Some(&*standing.form),
        }
    }
}
