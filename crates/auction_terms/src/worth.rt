//! What lots are worth that are left, and the nets of bids.

ghost use Rattle.std.specs.Prelude.{◌≡◌, ◌≤◌, ◌<◌, ◌*◌, ◌^◌, All, length, map, slice_index};
ghost use Rattle.auction_terms.specs.Packages.{weighed};
ghost use Rattle.auction_terms.specs.Terms.{IsCategory};
ghost use Rattle.auction_terms.specs.inside.Terms.{has_values};
ghost use Rattle.auction_terms.specs.declared.limits.TheConstants.{GREATEST_AMOUNT, GREATEST_VALUE, MOST_CATEGORIES};

use crate::bids::Bid;
use crate::packages::{Package, weighed};
use crate::rules::{Category, Pool, Rules};

// What lots of a category are worth.
fn product(value: u64, lots: u16) -> u64
    requires { value ≤ GREATEST_VALUE }
    ensures worth { result ≡ value * lots }
    ensures limit { result ≤ 10 ^ 17 }
{
    value * u64::from(lots)
}

// The value at a place, in the words of lists, by which sums over the categories are stated.
fn value_at(categories: &[Category], place: usize) -> u64
    requires place { place < length categories.now }
    requires limits { All IsCategory categories.now }
    ensures value { result ≡ slice_index (map (λ category. category.value) categories.now) place }
    ensures limit { result ≤ GREATEST_VALUE }
{
    categories[place].value
}

fn worth_of(categories: &[Category], quantities: &[u16]) -> u64
    requires few { length categories.now ≤ MOST_CATEGORIES }
    requires limits { All IsCategory categories.now }
    ensures worth { result ≡ weighed (map (λ category. category.value) categories.now)
        quantities.now }
    ensures limit { result ≤ MOST_CATEGORIES * 10 ^ 17 }
{
    let mut sum = 0;
    for place in 0..quantities.len().min(categories.len()) {
        sum += product(value_at(categories, place), quantities[place]);
    }
    sum
}

// The same, without adding up where no lot has a value.
fn worth_where(is_valued: bool, categories: &[Category], quantities: &[u16]) -> u64
    requires known { is_valued ≡ has_values categories.now }
    requires few { length categories.now ≤ MOST_CATEGORIES }
    requires limits { All IsCategory categories.now }
    ensures worth { result ≡ weighed (map (λ category. category.value) categories.now)
        quantities.now }
    ensures limit { result ≤ MOST_CATEGORIES * 10 ^ 17 }
{
    if is_valued {
        worth_of(categories, quantities)
    } else {
        0
    }
}

fn worth_of_supply(categories: &[Category]) -> u64
    requires few { length categories.now ≤ MOST_CATEGORIES }
    requires limits { All IsCategory categories.now }
    ensures worth { result ≡ weighed (map (λ category. category.value) categories.now)
        (map (λ category. category.supply) categories.now) }
    ensures limit { result ≤ MOST_CATEGORIES * 10 ^ 17 }
{
    let mut sum = 0;
    for category in categories {
        sum += product(category.value, category.supply as u16);
    }
    sum
}

impl Rules {
    ghost use Rattle.std.specs.Prelude.{◌≡◌, ◌≤◌, ◌*◌, ◌^◌, neg_ℤ, pos, ◌≤ℤ◌};
    ghost use Rattle.auction_terms.specs.Packages.{worth_of_all};
    ghost use Rattle.auction_terms.specs.Domination.{net};
    ghost use Rattle.auction_terms.specs.Terms.{lots_in};

    /// What all lots are worth, where none is sold.
    pub fn worth_of_all(&self) -> u64
        ensures worth { result ≡ worth_of_all (lots_in self.now) }
        ensures limit { result ≤ MOST_CATEGORIES * 10 ^ 17 }
    {
        worth_of_supply(self.categories())
    }

    /// The amount of a bid, less what its package is worth where it is left.
    pub fn net(&self, bid: &Bid) -> i64
        requires { bid.now.amount ≤ GREATEST_AMOUNT }
        ensures net { result ≡ net (lots_in self.now) bid.now }
        ensures least { neg_ℤ (pos (MOST_CATEGORIES * 10 ^ 17)) ≤ℤ result }
    {
        let quantities = bid.package.quantities();
        bid.amount as i64 - worth_where(self.has_values(), self.categories(), quantities) as i64
    }
}

impl Pool {
    ghost use Rattle.std.specs.Prelude.{◌≡◌, ◌≤◌, ◌^◌};
    ghost use Rattle.auction_terms.specs.Packages.{weighed};

    /// How much a package loads the pool.
    pub fn load(&self, package: &Package) -> u64
        ensures load { result ≡ weighed self.now.weights «package».now }
        ensures limit { result ≤ 2 ^ 37 }
    {
        weighed(self.weights.as_slice(), package.quantities())
    }
}
