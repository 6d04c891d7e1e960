//! Packages of lots.

use crate::limits::MOST_CATEGORIES;
use crate::rules::{Category, Pool, Rules};
use arrayvec::ArrayVec;
use std::marker::Model;

/// Room for a quantity of each category, in two bytes each. It is in the package itself, so that a bid
/// takes no memory of its own.
pub type Quantities = ArrayVec<u16, MOST_CATEGORIES>;

/// A quantity per category. Contracts see the list of them.
#[derive(Drop)]
pub struct Package {
    quantities: Quantities,
}

impl Model for Package {
    ghost use Rattle.std.specs.Prelude.{List, ℕ};
    ghost use Rattle.auction_terms.specs.Packages.{IsPackage};

    ghost Value = { List ℕ };

    ghost view = { λ p. p.quantities.items };

    ghost invariant = { λ p. IsPackage p.quantities.items };
}

impl Package {
    ghost use Rattle.std.specs.Prelude.{◌≡◌, ◌≤◌, ◌-◌, length, slice_index};
    ghost use Rattle.auction_terms.specs.Packages.{IsPackage, fits, is_within, size};
    ghost use Rattle.auction_terms.specs.Terms.{lots_in};

    /// A package of these quantities: 1 to 32 of them, each 0 to 10,000.
    pub fn new(quantities: Vec<u32>) -> Package
        requires { IsPackage quantities.items }
        ensures { result ≡ quantities.items }
    {
        Package {
            quantities: quantities_of(&quantities),
        }
    }

    /// A package of these quantities, as `new` makes it.
    pub fn of(quantities: Quantities) -> Package
        requires { IsPackage quantities.items }
        ensures { result ≡ quantities.items }
    {
        Package { quantities }
    }

    /// The quantities, in the order of the categories.
    pub fn quantities(&self) -> &[u16]
        ensures quantities { result.now ≡ self.now }
        ensures package { IsPackage self.now }
    {
        self.quantities.as_slice()
    }

    /// The quantity of a category, counted from 1.
    pub fn quantity(&self, category: usize) -> u32
        requires some { 1 ≤ category }
        requires within { category ≤ length self.now }
        ensures { result ≡ slice_index self.now (category - 1) }
    {
        u32::from(self.quantities[category - 1])
    }

    /// How many lots it has.
    pub fn size(&self) -> u32
        ensures { result ≡ size self.now }
    {
        sum_of(&self.quantities)
    }

    /// Whether no category is above its supply, and no pool above its cap.
    pub fn fits(&self, rules: &Rules) -> bool
        requires { length self.now ≡ length rules.now.categories }
        ensures { result ≡ fits (lots_in rules.now) self.now }
    {
        within_supply(&self.quantities, rules.categories())
            && within_caps(&self.quantities, rules.pools())
    }

    /// Whether another package is at most this one in every category.
    pub fn covers(&self, other: &Package) -> bool
        requires { length self.now ≡ length other.now }
        ensures { result ≡ is_within other.now self.now }
    {
        all_within(&other.quantities, &self.quantities)
    }
}

ghost use Rattle.std.specs.Prelude.{◌≡◌, ◌≤◌, ◌^◌, length, map};
ghost use Rattle.std.specs.List.{list_all};
ghost use Rattle.auction_terms.specs.Packages.{IsPackage, is_within, size, weighed};
ghost use Rattle.auction_terms.specs.inside.Packages.{is_within_cap};
ghost use Rattle.auction_terms.specs.inside.Terms.{cap_of};

// The quantities, each in two bytes.
fn quantities_of(quantities: &[u32]) -> Quantities
    requires { IsPackage quantities.now }
    ensures { result.items ≡ quantities.now }
{
    let mut room = ArrayVec::new();
    for quantity in quantities {
        room.push(*quantity as u16);
    }
    room
}

fn sum_of(quantities: &[u16]) -> u32
    requires { IsPackage quantities.now }
    ensures { result ≡ size quantities.now }
{
    let mut total = 0;
    for quantity in quantities {
        total += u32::from(*quantity);
    }
    total
}

// Whether each quantity is at most the other.
fn all_within(smaller: &[u16], greater: &[u16]) -> bool
    requires { length smaller.now ≡ length greater.now }
    ensures { result ≡ is_within smaller.now greater.now }
{
    for (place, &quantity) in smaller.iter().enumerate() {
        if quantity > greater[place] {
            return false;
        }
    }
    true
}

fn within_supply(quantities: &[u16], categories: &[Category]) -> bool
    requires { length quantities.now ≡ length categories.now }
    ensures { result ≡ is_within quantities.now (map (λ category. category.supply) categories.now) }
{
    for (place, &quantity) in quantities.iter().enumerate() {
        if u32::from(quantity) > categories[place].supply {
            return false;
        }
    }
    true
}

// The sum of the quantities, each times its weight.
pub(crate) fn weighed(weights: &[u16], quantities: &[u16]) -> u64
    requires { length quantities.now ≤ MOST_CATEGORIES }
    ensures sum { result ≡ weighed weights.now quantities.now }
    ensures limit { result ≤ 2 ^ 37 }
{
    let mut sum = 0;
    for place in 0..quantities.len().min(weights.len()) {
        sum += u64::from(weights[place]) * u64::from(quantities[place]);
    }
    sum
}

// Whether the quantities load a pool no more than its cap.
fn within_cap(quantities: &[u16], pool: &Pool) -> bool
    requires { length quantities.now ≤ MOST_CATEGORIES }
    ensures { result ≡ is_within_cap quantities.now (cap_of pool.now) }
{
    weighed(pool.weights.as_slice(), quantities) <= pool.cap
}

fn within_caps(quantities: &[u16], pools: &[Pool]) -> bool
    requires { length quantities.now ≤ MOST_CATEGORIES }
    ensures { result ≡ list_all (is_within_cap quantities.now) (map cap_of pools.now) }
{
    for pool in pools {
        if !within_cap(quantities, pool) {
            return false;
        }
    }
    true
}
