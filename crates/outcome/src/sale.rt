//! What a report looks up of a closed book.

ghost use Rattle.std.specs.Prelude.{◌≡◌, slice_index};
ghost use Rattle.std.specs.Option.{option_map_or};
ghost use Rattle.auction_terms.specs.Allocations.{amount_of, bid_at, quantity_of};
ghost use Rattle.bid_desk.specs.Closing.{book_of};
ghost use Rattle.bid_desk.specs.Sale.{bidder_name, sale_of};

use auction_terms::{Bid, Choice};
use bid_desk::ClosedBook;

/// The name of a bidder.
pub fn name_of(book: &ClosedBook, bidder: u16) -> &[u8]
    ensures { result.now ≡ bidder_name (sale_of book.now).names bidder }
{
    if bidder == 0 {
        return b"".as_slice();
    }
    match book.rules().bidders().get(bidder as usize - 1) {
        Some(found) => found.name.as_bytes(),
        None => b"".as_slice(),
    }
}

/// The amount of a bid, by its number among these.
fn amount_in(bids: &[Bid], number: u16) -> u64
    ensures { result ≡ option_map_or (λ x. x.amount) (bid_at bids.now number) 0 }
{
    if number == 0 {
        return 0;
    }
    match bids.get(number as usize - 1) {
        Some(bid) => bid.amount,
        None => 0,
    }
}

/// The amount of a bid of the book.
pub fn amount_of(book: &ClosedBook, choice: Choice) -> u64
    ensures { result ≡ amount_of (book_of book.now) choice }
{
    match book.form(choice.bidder) {
        Some(form) => amount_in(form.bids(), choice.bid),
        None => 0,
    }
}

/// The quantity of a category in a bid, by its number among these.
fn quantity_in(bids: &[Bid], number: u16, category: usize) -> u16
    ensures { result ≡ option_map_or (λ x. slice_index x.package category) (bid_at bids.now number)
        0 }
{
    if number == 0 {
        return 0;
    }
    match bids.get(number as usize - 1) {
        Some(bid) => bid.package.quantities().get(category).copied().unwrap_or(0),
        None => 0,
    }
}

/// The quantity of a category in a bid of the book.
pub fn quantity_of(book: &ClosedBook, category: usize, choice: Choice) -> u16
    ensures { result ≡ quantity_of (book_of book.now) category choice }
{
    match book.form(choice.bidder) {
        Some(form) => quantity_in(form.bids(), choice.bid, category),
        None => 0,
    }
}
