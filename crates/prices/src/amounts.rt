//! What winners offer.

ghost use Rattle.std.specs.Prelude.{◌≡◌, ◌≤◌};
ghost use Rattle.auction_terms.specs.declared.limits.TheConstants.{GREATEST_AMOUNT};
ghost use Rattle.auction_terms.specs.Allocations.{amount_of};
ghost use Rattle.bid_desk.specs.Closing.{book_of};

use auction_terms::Choice;
use bid_desk::ClosedBook;

/// The amount of a bid of the book.
pub fn amount_of(book: &ClosedBook, choice: Choice) -> u64
    ensures amount { result ≡ amount_of (book_of book.now) choice }
    ensures small { result ≤ GREATEST_AMOUNT }
{
    book.within_limits();
    outcome::amount_of(book, choice)
}
