//! The reserves of the lots that winners take.

ghost use Rattle.std.specs.Prelude.{◌≡◌, ◌≤◌, ◌*◌, All, length, map};
ghost use Rattle.std.specs.Option.{option_map_or};
ghost use Rattle.auction_terms.specs.declared.limits.TheConstants.{MOST_CATEGORIES};
ghost use Rattle.auction_terms.specs.Allocations.{bid_at, weighed_choice};
ghost use Rattle.auction_terms.specs.Packages.{weighed};
ghost use Rattle.auction_terms.specs.Terms.{IsCategory};
ghost use Rattle.bid_desk.specs.Closing.{book_of};
ghost use Rattle.prices.specs.Prices.{reserves_in};

use auction_terms::{Bid, Category, Choice};
use bid_desk::ClosedBook;

fn weighed_reserve(categories: &[Category], quantities: &[u16]) -> u64
    requires few { length categories.now ≤ MOST_CATEGORIES }
    requires limits { All IsCategory categories.now }
    ensures { result ≡ weighed (map (λ category. category.reserve) categories.now)
        quantities.now }
{
    let mut sum = 0;
    for place in 0..quantities.len().min(categories.len()) {
        sum += categories[place].reserve * u64::from(quantities[place]);
    }
    sum
}

// The reserve of a bid, by its number among these.
fn reserve_in(categories: &[Category], bids: &[Bid], number: u16) -> u64
    requires few { length categories.now ≤ MOST_CATEGORIES }
    requires limits { All IsCategory categories.now }
    ensures { result ≡ option_map_or
        (λ x. weighed (map (λ category. category.reserve) categories.now) x.package)
        (bid_at bids.now number) 0 }
{
    if number == 0 {
        return 0;
    }
    match bids.get(number as usize - 1) {
        Some(bid) => weighed_reserve(categories, bid.package.quantities()),
        None => 0,
    }
}

/// The reserve of the lots of a bid of the book.
pub fn reserve_of(book: &ClosedBook, choice: Choice) -> u64
    ensures { result ≡ weighed_choice (reserves_in book.now.rules) (book_of book.now) choice }
{
    match book.form(choice.bidder) {
        Some(form) => reserve_in(book.rules().categories(), form.bids(), choice.bid),
        None => 0,
    }
}
