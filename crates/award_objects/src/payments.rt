//! The objects of prices.

ghost use Rattle.std.specs.Prelude.{◌≡◌, ◌≤◌, ◌*◌, ◌^◌, ◌∷◌, [], ◌*ℤ◌, IfSome, flat_map, length, map, pos};
ghost use Rattle.std.specs.Ordering.{int_eq};
ghost use Rattle.std.specs.List.{zip};
ghost use Rattle.auction_terms.specs.Terms.{lots_in};
ghost use Rattle.bid_desk.specs.Closing.{book_of};
ghost use Rattle.bid_desk.specs.Sale.{sale_of};
ghost use Rattle.byte_sinks.specs.Adds.{Adds};
ghost use Rattle.byte_sinks.specs.Objects as of_lists;
ghost use Rattle.byte_sinks.specs.Objects.{object_text, scalar_seen};
ghost use Rattle.outcome.specs.Pricing.{price_in};
ghost use Rattle.prices.specs.Alone as of_alone;
ghost use Rattle.prices.specs.Alone.{cost_alone};
ghost use Rattle.prices.specs.Prices.{paid_by_group, reserves_in};
ghost use Rattle.award_objects.specs.Objects as of_objects;
ghost use Rattle.award_objects.specs.Objects.{are_bound, price_members, prices_text};

use crate::items::{Items, MOST_ITEMS};
use crate::objects::Outcome;
use arrayvec::ArrayVec;
use auction_terms::{Choice, Group, Groups, gcd};
use bid_desk::ClosedBook;
use byte_sinks::{Member, Scalar, Sink, Writer, add_object};
use outcome::{Allocation, Pricing, cost, is_exact, name_of, price_of};
use prices::reserve_of;

// What the winners of a group pay together, in parts of a pound.
fn paid_in_parts_by(prices: &[u64], group: &Group, choices: &[Choice]) -> u128
    ensures sum { result ≡ paid_by_group (price_in prices.now) group.now choices.now }
    ensures small { result ≤ length choices.now * 2 ^ 64 }
{
    let mut sum: u128 = 0;
    for choice in choices {
        if group.has(choice.bidder) {
            sum += u128::from(price_of(prices, choice.bidder));
        }
    }
    sum
}

// Whether a cost is that many parts of a pound. A cost below 0 isn't.
fn is_cost(parts: u64, cost: i128, paid: u128) -> bool
    requires { 1 ≤ parts }
    ensures { result ≡ int_eq (pos parts *ℤ cost) (pos paid) }
{
    cost >= 0 && is_exact(parts, cost as u128, paid)
}

// Whether the group pays just its cost.
fn is_bound(
    book: &ClosedBook,
    pricing: &Pricing,
    first: &Allocation,
    group: &Group,
    without: &Allocation,
) -> bool
    ensures { result ≡ of_objects.is_bound (sale_of book.now) pricing.now first.now
        (group.now, without.now) }
{
    let paid = paid_in_parts_by(pricing.prices(), group, first.choices());
    is_cost(pricing.parts(), cost(book, first, group, without), paid)
}

// For each group, whether something is so.
type Flags = ArrayVec<bool, MOST_ITEMS>;

// Which groups pay just their cost.
fn are_bound(outcome: &Outcome<'_>, pricing: &Pricing, first: &Allocation) -> Flags
    requires { length outcome.now.groups.now ≡ length outcome.now.won.now }
    ensures { result.items ≡ are_bound (sale_of outcome.now.book.now) pricing.now first.now
        outcome.now.groups.now outcome.now.won.now }
{
    let mut bound = ArrayVec::new();
    for place in 0..outcome.groups.count() {
        let group = outcome.groups.group(place + 1);
        let without = &outcome.won[place];
        bound.push(is_bound(outcome.book, pricing, first, group, without));
    }
    bound
}

// The numbers of the groups with this bidder that pay just their cost.
fn bound_by(groups: &Groups, bound: &[bool], bidder: u16) -> Items<'static>
    requires { length bound.now ≡ length groups.now }
    ensures { map scalar_seen result.items
        ≡ map of_lists.Scalar.Number (of_objects.bound_by groups.now bound.now bidder) }
{
    let mut numbers = ArrayVec::new();
    for place in 0..groups.count() {
        if groups.group(place + 1).has(bidder) && bound[place] {
            numbers.push(Scalar::Number(place as u128 + 1));
        }
    }
    numbers
}

// Whether a group is this bidder alone.
fn is_alone(group: &Group, bidder: u16) -> bool
    ensures { result ≡ of_alone.is_alone bidder group.now }
{
    let numbers = group.numbers();
    numbers.len() == 1 && numbers[0] == bidder
}

// What a winner costs alone, by its group and an allocation without it.
fn alone_by(
    book: &ClosedBook,
    first: &Allocation,
    choice: Choice,
    group: &Group,
    without: &Allocation,
) -> u128
    requires { group.now ≡ choice.bidder ∷ [] }
    ensures cost { result ≡ cost_alone (reserves_in book.now.rules) (lots_in book.now.rules)
        (book_of book.now) first.now without.now choice }
    ensures small { result ≤ 2 ^ 64 }
{
    book.within_limits();
    // Their contracts say that the bidders of their choices rise.
    let _rising = first.choices();
    let _rising_too = without.choices();
    let cost = cost(book, first, group, without);
    let reserve = i128::from(reserve_of(book, choice));
    cost.max(reserve).unsigned_abs()
}

/// What a winner costs alone, if a group is listed that is this winner alone.
pub(crate) fn alone_of(outcome: &Outcome<'_>, first: &Allocation, choice: Choice) -> Option<u128>
    requires { length outcome.now.groups.now ≡ length outcome.now.won.now }
    ensures cost { result ≡ of_objects.alone_of outcome.now.book.now.rules
        (sale_of outcome.now.book.now) first.now outcome.now.groups.now outcome.now.won.now
        choice }
    ensures small { IfSome result (λ cost. cost ≤ 2 ^ 64) }
{
    for place in 0..outcome.groups.count() {
        let group = outcome.groups.group(place + 1);
        if is_alone(group, choice.bidder) {
            let without = &outcome.won[place];
            return Some(alone_by(outcome.book, first, choice, group, without));
        }
    }
    None
}

/// An exact amount in pounds, from parts of a pound: numerator and denominator, in lowest terms.
pub(crate) fn in_lowest_terms(parts: u64, exact: u128) -> [Scalar<'static>; 2]
    requires { 1 ≤ parts }
    ensures { map scalar_seen result
        ≡ map of_lists.Scalar.Number (of_objects.in_lowest_terms parts exact) }
{
    let divisor = gcd(exact, parts);
    [
        Scalar::Number(exact / u128::from(divisor)),
        Scalar::Number(u128::from(parts / divisor)),
    ]
}

// Whether a winner pays just the reserve of its lots.
fn pays_reserve(book: &ClosedBook, pricing: &Pricing, choice: Choice) -> bool
    ensures { result ≡ of_objects.is_by_reserve book.now.rules (sale_of book.now) pricing.now
        choice }
{
    let exact = price_of(pricing.prices(), choice.bidder);
    let reserve = reserve_of(book, choice);
    is_exact(pricing.parts(), u128::from(reserve), u128::from(exact))
}

// Adds the object of a winner's price, where it is known which groups pay just their cost.
fn add_price<S: Sink>(
    writer: &mut Writer<'_, S>,
    outcome: &Outcome<'_>,
    first: &Allocation,
    pricing: &Pricing,
    bound: &[bool],
    choice: Choice,
)
    requires count { length outcome.now.groups.now ≡ length outcome.now.won.now }
    requires bound { bound.now ≡ are_bound (sale_of outcome.now.book.now) pricing.now first.now
        outcome.now.groups.now outcome.now.won.now }
    ensures { Adds S.state writer.old writer.new (object_text (price_members
        outcome.now.book.now.rules (sale_of outcome.now.book.now) outcome.now.groups.now
        outcome.now.won.now first.now pricing.now choice)) }
{
    let book = outcome.book;
    let price = price_of(pricing.prices(), choice.bidder);
    let exact = in_lowest_terms(pricing.parts(), u128::from(price));
    let bound_by = bound_by(outcome.groups, bound, choice.bidder);
    let members = [
        Member::text(b"price", name_of(book, choice.bidder)),
        Member::number(b"pays", u128::from(pricing.pounds(choice.bidder))),
        Member::list(b"exact", &exact),
        Member::number_if(b"alone", alone_of(outcome, first, choice)),
        Member::list(b"bound_by", bound_by.as_slice()),
        Member::flag(b"by_reserve", pays_reserve(book, pricing, choice)),
    ];
    add_object(writer, &members);
}

// Adds the objects of the winners' prices.
fn add_each_price<S: Sink>(
    writer: &mut Writer<'_, S>,
    outcome: &Outcome<'_>,
    first: &Allocation,
    pricing: &Pricing,
)
    requires { length outcome.now.groups.now ≡ length outcome.now.won.now }
    ensures { Adds S.state writer.old writer.new (flat_map (λ c. object_text (price_members
        outcome.now.book.now.rules (sale_of outcome.now.book.now) outcome.now.groups.now
        outcome.now.won.now first.now pricing.now c)) first.now) }
{
    let bound = are_bound(outcome, pricing, first);
    let choices = first.choices();
    for choice in choices {
        add_price(writer, outcome, first, pricing, bound.as_slice(), *choice);
    }
}

/// Adds the objects of prices, if there are any.
pub(crate) fn add_prices<S: Sink>(
    writer: &mut Writer<'_, S>,
    outcome: &Outcome<'_>,
    first: &Allocation,
)
    requires { length outcome.now.groups.now ≡ length outcome.now.won.now }
    ensures { Adds S.state writer.old writer.new (prices_text outcome.now.book.now.rules
        (sale_of outcome.now.book.now) outcome.now.groups.now outcome.now.won.now first.now
        outcome.now.pricing.now) }
{
    match outcome.pricing {
        Some(pricing) => add_each_price(writer, outcome, first, pricing),
        None => writer.add(b""),
    }
}
