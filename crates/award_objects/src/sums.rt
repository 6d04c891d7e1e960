//! The objects of sums.

ghost use Rattle.std.specs.Prelude.{◌≡◌, ◌≤◌, ◌*◌, ◌^◌, All, length, map, sum, sum_by};
ghost use Rattle.std.specs.List.{zip};
ghost use Rattle.auction_terms.specs.Allocations.{loads, weighed_choice};
ghost use Rattle.auction_terms.specs.Terms.{lots_in};
ghost use Rattle.auction_terms.specs.declared.limits.TheConstants.{MOST_CATEGORIES};
ghost use Rattle.bid_desk.specs.Closing.{book_of};
ghost use Rattle.bid_desk.specs.Sale.{sale_of};
ghost use Rattle.byte_sinks.specs.Adds.{Adds};
ghost use Rattle.byte_sinks.specs.Objects.{object_text};
ghost use Rattle.prices.specs.Prices.{reserves_in};
ghost use Rattle.award_objects.specs.Objects as of_objects;
ghost use Rattle.award_objects.specs.Objects.{alone_of, lots_sum, outcome_seen, prices_sum, prices_sum_text, sum_known, sums_text, winners_sum};

use crate::lots::{unsold, value_left};
use crate::objects::Outcome;
use crate::payments::{alone_of, in_lowest_terms};
use auction_terms::{Category, Choice};
use bid_desk::ClosedBook;
use byte_sinks::{Member, Sink, Writer, add_object};
use outcome::{Allocation, Pricing, amounts_of, paid, paid_in_pounds};
use prices::reserve_of;

// The sum of the reserves of the winners' lots.
fn reserves_of(book: &ClosedBook, choices: &[Choice]) -> u128
    ensures sum { result ≡ sum_by (weighed_choice (reserves_in book.now.rules) (book_of book.now))
        choices.now }
    ensures small { result ≤ length choices.now * 2 ^ 64 }
{
    let mut sum: u128 = 0;
    for choice in choices {
        sum += u128::from(reserve_of(book, *choice));
    }
    sum
}

// Adds the sums of what the winners bid, and of the reserves of their lots.
fn add_winners_sum<S: Sink>(writer: &mut Writer<'_, S>, book: &ClosedBook, choices: &[Choice])
    ensures { Adds S.state writer.old writer.new
        (object_text (winners_sum book.now.rules (sale_of book.now) choices.now)) }
{
    let members = [
        Member::text(b"sum", b"winners"),
        Member::number(b"amount", amounts_of(book, choices)),
        Member::number(b"reserve", reserves_of(book, choices)),
    ];
    add_object(writer, &members);
}

// How many lots there are.
fn all_supplied(categories: &[Category]) -> u128
    ensures sum { result ≡ sum_by (λ category. category.supply) categories.now }
    ensures small { result ≤ length categories.now * 2 ^ 32 }
{
    let mut sum: u128 = 0;
    for category in categories {
        sum += u128::from(category.supply);
    }
    sum
}

// How many lots are sold.
fn all_sold(sold: &[u128]) -> u128
    requires few { length sold.now ≤ MOST_CATEGORIES }
    requires small { All (λ n. n ≤ 2 ^ 80) sold.now }
    ensures { result ≡ sum sold.now }
{
    let mut sum: u128 = 0;
    for lots in sold {
        sum += *lots;
    }
    sum
}

// How many lots stay unsold.
fn all_unsold(categories: &[Category], sold: &[u128]) -> u128
    requires { length sold.now ≡ length categories.now }
    ensures sum { result ≡ sum_by of_objects.unsold (zip categories.now sold.now) }
    ensures small { result ≤ length categories.now * 2 ^ 32 }
{
    let mut sum: u128 = 0;
    for (place, category) in categories.iter().enumerate() {
        sum += unsold(category, sold[place]);
    }
    sum
}

// What these are worth.
fn all_value_left(categories: &[Category], sold: &[u128]) -> u128
    requires few { length categories.now ≤ MOST_CATEGORIES }
    requires count { length sold.now ≡ length categories.now }
    ensures { result ≡ sum_by of_objects.value_left (zip categories.now sold.now) }
{
    let mut sum: u128 = 0;
    for (place, category) in categories.iter().enumerate() {
        sum += value_left(category, sold[place]);
    }
    sum
}

// Adds the sums of lots, by how many of each category are sold.
fn add_lots_sum<S: Sink>(writer: &mut Writer<'_, S>, book: &ClosedBook, sold: &[u128])
    requires count { length sold.now ≡ length book.now.rules.categories }
    requires small { All (λ n. n ≤ 2 ^ 80) sold.now }
    ensures { Adds S.state writer.old writer.new
        (object_text (lots_sum book.now.rules sold.now)) }
{
    let categories = book.rules().categories();
    let members = [
        Member::text(b"sum", b"lots"),
        Member::number(b"supply", all_supplied(categories)),
        Member::number(b"sold", all_sold(sold)),
        Member::number(b"unsold", all_unsold(categories, sold)),
        Member::number(b"value_left", all_value_left(categories, sold)),
    ];
    add_object(writer, &members);
}

// What the winners cost alone, if a group is listed for each that is this winner alone.
fn all_alone(outcome: &Outcome<'_>, first: &Allocation) -> Option<u128>
    requires { length outcome.now.groups.now ≡ length outcome.now.won.now }
    ensures { result ≡ sum_known (map (alone_of outcome.now.book.now.rules
        (sale_of outcome.now.book.now) first.now outcome.now.groups.now outcome.now.won.now)
        first.now) }
{
    let mut sum: u128 = 0;
    for choice in first.choices() {
        match alone_of(outcome, first, *choice) {
            Some(cost) => sum += cost,
            None => return None,
        }
    }
    Some(sum)
}

// Adds the sums of prices.
fn add_prices_sum<S: Sink>(
    writer: &mut Writer<'_, S>,
    outcome: &Outcome<'_>,
    first: &Allocation,
    pricing: &Pricing,
)
    requires { length outcome.now.groups.now ≡ length outcome.now.won.now }
    ensures { Adds S.state writer.old writer.new (object_text (prices_sum
        outcome.now.book.now.rules (sale_of outcome.now.book.now) outcome.now.groups.now
        outcome.now.won.now first.now pricing.now)) }
{
    let choices = first.choices();
    let exact = in_lowest_terms(pricing.parts(), paid(pricing.prices(), choices));
    let members = [
        Member::text(b"sum", b"prices"),
        Member::number(b"pays", paid_in_pounds(pricing, choices)),
        Member::list(b"exact", &exact),
        Member::number_if(b"alone", all_alone(outcome, first)),
    ];
    add_object(writer, &members);
}

// Adds the sums of prices, if there are any.
fn add_prices_sum_if<S: Sink>(writer: &mut Writer<'_, S>, outcome: &Outcome<'_>, first: &Allocation)
    requires { length outcome.now.groups.now ≡ length outcome.now.won.now }
    ensures { Adds S.state writer.old writer.new (prices_sum_text outcome.now.book.now.rules
        (sale_of outcome.now.book.now) outcome.now.groups.now outcome.now.won.now first.now
        outcome.now.pricing.now) }
{
    match outcome.pricing {
        Some(pricing) => add_prices_sum(writer, outcome, first, pricing),
        None => writer.add(b""),
    }
}

/// Adds the sums of winners, of lots, by how many of each category are sold, and of prices.
pub(crate) fn add_sums<S: Sink>(
    writer: &mut Writer<'_, S>,
    outcome: &Outcome<'_>,
    first: &Allocation,
    sold: &[u128],
)
    requires count { length outcome.now.groups.now ≡ length outcome.now.won.now }
    requires sold { sold.now ≡ loads (lots_in outcome.now.book.now.rules)
        (book_of outcome.now.book.now) first.now }
    requires lots { length sold.now ≡ length outcome.now.book.now.rules.categories }
    requires small { All (λ n. n ≤ 2 ^ 80) sold.now }
    ensures { Adds S.state writer.old writer.new (sums_text outcome.now.book.now.rules
        (sale_of outcome.now.book.now) outcome.now.groups.now (outcome_seen outcome.now)
        first.now) }
{
    add_winners_sum(writer, outcome.book, first.choices());
    add_lots_sum(writer, outcome.book, sold);
    add_prices_sum_if(writer, outcome, first);
}
