//! What the lots are worth that an allocation leaves, totals, and opportunity costs.

ghost use Rattle.std.specs.Prelude.{◌≡◌, ◌≤◌, ◌<◌, ◌+◌, ◌*◌, ◌^◌, length, sum_by, ◌-◌, map, slice_index};
ghost use Rattle.auction_terms.specs.Terms.{lots_in};
ghost use Rattle.auction_terms.specs.Allocations.{amount_of, total, loads, quantity_of};
ghost use Rattle.auction_terms.specs.declared.limits.TheConstants.{GREATEST_QUANTITY, GREATEST_VALUE, MOST_CATEGORIES};
ghost use Rattle.bid_desk.specs.Closing.{book_of};
ghost use Rattle.outcome.specs.Report.{amounts_of_group, cost};
ghost use Rattle.auction_terms.specs.Packages.{left, worth};

use crate::allocation::Allocation;
use crate::sale::{amount_of, quantity_of};
use auction_terms::{Choice, Group};
use bid_desk::ClosedBook;

/// How many lots of a category the choices take.
pub fn lots_taken(book: &ClosedBook, category: usize, choices: &[Choice]) -> u128
    ensures load { result ≡ sum_by (quantity_of (book_of book.now) category) choices.now }
    ensures small { result ≤ length choices.now * 2 ^ 16 }
{
    let mut lots: u128 = 0;
    for choice in choices {
        lots += u128::from(quantity_of(book, category, *choice));
    }
    lots
}

/// What the lots of a category are worth that the choices leave.
fn worth_left_of(book: &ClosedBook, category: usize, choices: &[Choice]) -> u128
    requires { category < length book.now.rules.categories }
    ensures worth { result ≡ slice_index (map (λ c. c.value) book.now.rules.categories) category
        * (slice_index (map (λ c. c.supply) book.now.rules.categories) category
        - sum_by (quantity_of (book_of book.now) category) choices.now) }
    ensures small { result ≤ GREATEST_VALUE * GREATEST_QUANTITY }
{
    let kind = &book.rules().categories()[category];
    if kind.value == 0 {
        return 0;
    }
    let left = u128::from(kind.supply).saturating_sub(lots_taken(book, category, choices));
    u128::from(kind.value) * left
}

/// What the lots are worth that the choices leave.
fn worth_left(book: &ClosedBook, choices: &[Choice]) -> u128
    ensures worth { result ≡ worth (lots_in book.now.rules)
        (left (lots_in book.now.rules).supply
        (loads (lots_in book.now.rules) (book_of book.now) choices.now)) }
    ensures small { result ≤ MOST_CATEGORIES * (GREATEST_VALUE * GREATEST_QUANTITY) }
{
    let mut sum: u128 = 0;
    for category in 0..book.rules().categories().len() {
        sum += worth_left_of(book, category, choices);
    }
    sum
}

/// The sum of the amounts.
pub fn amounts_of(book: &ClosedBook, choices: &[Choice]) -> u128
    ensures sum { result ≡ sum_by (amount_of (book_of book.now)) choices.now }
    ensures small { result ≤ length choices.now * 2 ^ 64 }
{
    let mut sum: u128 = 0;
    for choice in choices {
        sum += u128::from(amount_of(book, *choice));
    }
    sum
}

/// The sum of the amounts, and what the lots are worth that are left.
pub fn total_of(book: &ClosedBook, choices: &[Choice]) -> u128
    ensures sum { result ≡ total (lots_in book.now.rules) (book_of book.now) choices.now }
    ensures small { result ≤ length choices.now * 2 ^ 64 + MOST_CATEGORIES
        * (GREATEST_VALUE * GREATEST_QUANTITY) }
{
    amounts_of(book, choices) + worth_left(book, choices)
}

/// The sum of the amounts of an allocation, and what the lots are worth that it leaves.
pub fn total(book: &ClosedBook, allocation: &Allocation) -> u128
    ensures sum { result ≡ total (lots_in book.now.rules) (book_of book.now) allocation.now }
    ensures small { result < 2 ^ 127 }
{
    total_of(book, allocation.choices())
}

/// The sum of the amounts of the group's bidders.
pub fn amounts_in(book: &ClosedBook, group: &Group, choices: &[Choice]) -> u128
    ensures sum { result ≡ amounts_of_group (book_of book.now) group.now choices.now }
    ensures small { result ≤ length choices.now * 2 ^ 64 }
{
    let mut sum: u128 = 0;
    for choice in choices {
        if group.has(choice.bidder) {
            sum += u128::from(amount_of(book, *choice));
        }
    }
    sum
}

/// The total without the group, less what the others have in the first allocation.
pub fn cost_of(book: &ClosedBook, first: &[Choice], group: &Group, choices: &[Choice]) -> i128
    ensures { result ≡ cost (lots_in book.now.rules) (book_of book.now) first.now group.now
        choices.now }
{
    let without = total_of(book, choices) as i128;
    let all = total_of(book, first) as i128;
    let theirs = amounts_in(book, group, first) as i128;
    without - (all - theirs)
}

/// The opportunity cost of a group, by an allocation without it, beside the first one.
pub fn cost(book: &ClosedBook, first: &Allocation, group: &Group, without: &Allocation) -> i128
    ensures { result ≡ cost (lots_in book.now.rules) (book_of book.now) first.now group.now
        without.now }
{
    cost_of(book, first.choices(), group, without.choices())
}
