//! The objects of categories and pools, with what an allocation takes of them.

ghost use Rattle.std.specs.Prelude.{◌≡◌, ◌≤◌, ◌^◌, ◌++◌, All, flat_map, length};
ghost use Rattle.std.specs.List.{zip};
ghost use Rattle.auction_terms.specs.Allocations.{loads};
ghost use Rattle.auction_terms.specs.Packages.{weighed};
ghost use Rattle.auction_terms.specs.Terms.{lots_in};
ghost use Rattle.auction_terms.specs.declared.limits.TheConstants.{MOST_CATEGORIES};
ghost use Rattle.bid_desk.specs.Closing.{book_of};
ghost use Rattle.byte_sinks.specs.Adds.{Adds};
ghost use Rattle.byte_sinks.specs.Objects.{object_text};
ghost use Rattle.award_objects.specs.Objects as of_objects;
ghost use Rattle.award_objects.specs.Objects.{category_members, lots_text, pool_members};

use arrayvec::ArrayVec;
use auction_terms::{Category, Choice, MOST_CATEGORIES, Pool};
use bid_desk::ClosedBook;
use byte_sinks::{Member, Sink, Writer, add_object};
use outcome::lots_taken;

/// How many lots of each category are sold.
pub(crate) type Sold = ArrayVec<u128, MOST_CATEGORIES>;

/// How many lots of each category the choices take.
pub(crate) fn sold_by(book: &ClosedBook, choices: &[Choice]) -> Sold
    ensures loads { result.items
        ≡ loads (lots_in book.now.rules) (book_of book.now) choices.now }
    ensures count { length result.items ≡ length book.now.rules.categories }
    ensures small { All (λ lots. lots ≤ 2 ^ 80) result.items }
{
    let mut sold = ArrayVec::new();
    for category in 0..book.rules().categories().len() {
        sold.push(lots_taken(book, category, choices));
    }
    sold
}

/// How many lots of a category stay unsold, if that many are sold.
pub(crate) fn unsold(category: &Category, sold: u128) -> u128
    ensures lots { result ≡ of_objects.unsold (category.now, sold) }
    ensures small { result ≤ 2 ^ 32 }
{
    u128::from(category.supply).saturating_sub(sold)
}

/// What these are worth.
pub(crate) fn value_left(category: &Category, sold: u128) -> u128
    ensures value { result ≡ of_objects.value_left (category.now, sold) }
    ensures small { result ≤ 2 ^ 96 }
{
    u128::from(category.value) * unsold(category, sold)
}

// Adds the object of a category, of which that many lots are sold.
fn add_category<S: Sink>(writer: &mut Writer<'_, S>, category: &Category, sold: u128)
    ensures { Adds S.state writer.old writer.new
        (object_text (category_members (category.now, sold))) }
{
    let members = [
        Member::text(b"category", category.name.as_bytes()),
        Member::number(b"supply", u128::from(category.supply)),
        Member::number(b"reserve", u128::from(category.reserve)),
        Member::number(b"value", u128::from(category.value)),
        Member::number(b"sold", sold),
        Member::number(b"unsold", unsold(category, sold)),
        Member::number(b"value_left", value_left(category, sold)),
    ];
    add_object(writer, &members);
}

// Adds the objects of the categories.
fn add_categories<S: Sink>(writer: &mut Writer<'_, S>, categories: &[Category], sold: &[u128])
    requires { length sold.now ≡ length categories.now }
    ensures { Adds S.state writer.old writer.new
        (flat_map (λ item. object_text (category_members item)) (zip categories.now sold.now)) }
{
    for (place, category) in categories.iter().enumerate() {
        add_category(writer, category, sold[place]);
    }
}

// Lots, each times its weight.
fn weighed(weights: &[u16], lots: &[u128]) -> u128
    requires few { length weights.now ≤ MOST_CATEGORIES }
    requires small { All (λ n. n ≤ 2 ^ 80) lots.now }
    ensures { result ≡ weighed weights.now lots.now }
{
    let mut load: u128 = 0;
    for place in 0..lots.len().min(weights.len()) {
        load += u128::from(weights[place]) * lots[place];
    }
    load
}

// Adds the object of a pool, by how many lots of each category are sold.
fn add_pool<S: Sink>(writer: &mut Writer<'_, S>, pool: &Pool, sold: &[u128])
    requires few { length pool.now.weights ≤ MOST_CATEGORIES }
    requires small { All (λ n. n ≤ 2 ^ 80) sold.now }
    ensures { Adds S.state writer.old writer.new (object_text (pool_members sold.now pool.now)) }
{
    let cap = u128::from(pool.cap);
    let load = weighed(pool.weights.as_slice(), sold);
    let members = [
        Member::text(b"pool", pool.name.as_bytes()),
        Member::number(b"cap", cap),
        Member::number(b"load", load),
        Member::number(b"left", cap.saturating_sub(load)),
    ];
    add_object(writer, &members);
}

// Adds the objects of the pools.
fn add_pools<S: Sink>(writer: &mut Writer<'_, S>, pools: &[Pool], sold: &[u128])
    requires few { All (λ pool. length pool.weights ≤ MOST_CATEGORIES) pools.now }
    requires small { All (λ n. n ≤ 2 ^ 80) sold.now }
    ensures { Adds S.state writer.old writer.new
        (flat_map (λ pool. object_text (pool_members sold.now pool)) pools.now) }
{
    for pool in pools {
        add_pool(writer, pool, sold);
    }
}

/// Adds the objects of the categories, and of the pools.
pub(crate) fn add_lots<S: Sink>(writer: &mut Writer<'_, S>, book: &ClosedBook, sold: &[u128])
    requires count { length sold.now ≡ length book.now.rules.categories }
    requires small { All (λ n. n ≤ 2 ^ 80) sold.now }
    ensures { Adds S.state writer.old writer.new (lots_text book.now.rules sold.now) }
{
    let rules = book.rules();
    add_categories(writer, rules.categories(), sold);
    add_pools(writer, rules.pools(), sold);
}
