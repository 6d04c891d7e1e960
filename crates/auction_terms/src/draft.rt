//! The rules as far as they were read.

ghost use Rattle.std.specs.Prelude.{◌≡◌, ◌≤◌, IfOk, find, length, map};
ghost use Rattle.std.specs.Option.{option_copied};
ghost use Rattle.auction_terms.specs.Entries.{is_member_of, pool_with};
ghost use Rattle.auction_terms.specs.inside.Entries.{weight_in};
ghost use Rattle.auction_terms.specs.declared.limits.TheConstants.{GREATEST_AMOUNT, MOST_BIDDERS, MOST_CATEGORIES, MOST_POOLS};

use crate::names::Name;
use crate::packages::Quantities;
use crate::rules::{Bidder, Category, Pool, Rules};
use crate::weights::Weights;
use arrayvec::ArrayVec;
use std::alloc::{AllocError, Global};
use std::marker::Model;

/// A pool without its weights.
#[derive(Drop)]
pub struct NamedCap {
    pub name: Name,
    pub cap: u64,
}

/// A category of a pool.
#[derive(Drop)]
pub struct Member {
    pub pool: Name,
    pub category: Name,
    pub weight: u16,
}

// What the records after the header say. Contracts see the four lists.
#[derive(Drop)]
pub(crate) struct Draft {
    categories: Vec<Category>,
    bidders: Vec<Bidder>,
    pools: Vec<NamedCap>,
    members: Vec<Member>,
}

impl Model for Draft {
    ghost use Rattle.auction_terms.specs.inside.Entries.{AreEntriesWithinLimits, entries};
    ghost use Rattle.auction_terms.specs.Entries.{Entries};

    ghost Value = { Entries };

    ghost view = { λ d. entries d.categories.items d.bidders.items d.pools.items d.members.items };

    ghost invariant = { λ d. AreEntriesWithinLimits (entries d.categories.items d.bidders.items d.pools.items d.members.items) };
}

impl Draft {
    ghost use Rattle.std.specs.Prelude.{◌≡◌, ◌≤◌, ◌<◌, [], ◌∷◌, ◌++◌, false, IfOk, OnOk, length};
    ghost use Rattle.auction_terms.specs.inside.Entries.{IsMember, IsNamedCap, entries};
    ghost use Rattle.auction_terms.specs.Entries.{terms_of};
    ghost use Rattle.auction_terms.specs.RulesText.{has_name};
    ghost use Rattle.auction_terms.specs.Terms.{IsBidder, IsCategory};

    pub(crate) fn new(alloc: Global) -> Draft
        ensures { result ≡ entries [] [] [] [] }
    {
        Draft {
            categories: Vec::new(alloc),
            bidders: Vec::new(alloc),
            pools: Vec::new(alloc),
            members: Vec::new(alloc),
        }
    }

    pub(crate) fn categories(&self) -> &[Category]
        ensures { result.now ≡ self.now.categories }
    {
        &self.categories
    }

    pub(crate) fn bidders(&self) -> &[Bidder]
        ensures { result.now ≡ self.now.bidders }
    {
        &self.bidders
    }

    pub(crate) fn pools(&self) -> &[NamedCap]
        ensures { result.now ≡ self.now.pools }
    {
        &self.pools
    }

    pub(crate) fn members(&self) -> &[Member]
        ensures { result.now ≡ self.now.members }
    {
        &self.members
    }

    pub(crate) fn add_category(&mut self, category: Category) -> Result<(), AllocError>
        requires limits { IsCategory category }
        requires room { length self.old.categories < MOST_CATEGORIES }
        requires new_name { has_name (λ other. other.name) self.old.categories category.name
            ≡ false }
        ensures { OnOk result (self.new ≡ entries (self.old.categories ++ category ∷ [])
            self.old.bidders self.old.pools self.old.members) }
    {
        self.categories.push(category)?;
        Ok(())
    }

    pub(crate) fn add_bidder(&mut self, bidder: Bidder) -> Result<(), AllocError>
        requires limits { IsBidder bidder }
        requires room { length self.old.bidders < MOST_BIDDERS }
        requires new_name { has_name (λ other. other.name) self.old.bidders bidder.name ≡ false }
        ensures { OnOk result (self.new ≡ entries self.old.categories
            (self.old.bidders ++ bidder ∷ []) self.old.pools self.old.members) }
    {
        self.bidders.push(bidder)?;
        Ok(())
    }

    pub(crate) fn add_pool(&mut self, pool: NamedCap) -> Result<(), AllocError>
        requires limits { IsNamedCap pool }
        requires room { length self.old.pools < MOST_POOLS }
        requires new_name { has_name (λ other. other.name) self.old.pools pool.name ≡ false }
        ensures { OnOk result (self.new ≡ entries self.old.categories self.old.bidders
            (self.old.pools ++ pool ∷ []) self.old.members) }
    {
        self.pools.push(pool)?;
        Ok(())
    }

    pub(crate) fn add_member(&mut self, member: Member) -> Result<(), AllocError>
        requires limits { IsMember member }
        ensures { OnOk result (self.new ≡ entries self.old.categories self.old.bidders
            self.old.pools (self.old.members ++ member ∷ [])) }
    {
        self.members.push(member)?;
        Ok(())
    }

    pub(crate) fn into_rules(self, alloc: Global, step: u64) -> Result<Rules, AllocError>
        requires least_step { 1 ≤ step }
        requires greatest_step { step ≤ GREATEST_AMOUNT }
        requires some_category { 1 ≤ length self.categories }
        requires some_bidder { 1 ≤ length self.bidders }
        ensures { IfOk result (λ rules. rules ≡ terms_of step self) }
    {
        let Draft {
            categories,
            bidders,
            pools,
            members,
        } = self;
        let pools = weighed_pools(alloc, &categories, &members, pools)?;
        Ok(Rules::new(step, categories, bidders, pools))
    }
}

fn member_at<'m>(members: &'m [Member], pool: &[u8], category: &[u8]) -> Option<&'m Member>
    ensures { option_copied result ≡ find (is_member_of pool.now category.now) members.now }
{
    members.iter().find(|member| member.pool.as_bytes() == pool
        && member.category.as_bytes() == category)
}

// The weight of a category in a pool, 0 where it is no member.
fn weight_in(members: &[Member], pool: &[u8], category: &[u8]) -> u16
    ensures { result ≡ weight_in members.now pool.now category.now }
{
    match member_at(members, pool, category) {
        Some(member) => member.weight,
        None => 0,
    }
}

fn weights_in(categories: &[Category], members: &[Member], pool: &[u8]) -> Weights
    requires { length categories.now ≤ MOST_CATEGORIES }
    ensures { result ≡ map (λ category. weight_in members.now pool.now category.name)
        categories.now }
{
    let mut weights: Quantities = ArrayVec::new();
    for category in categories {
        weights.push(weight_in(members, pool, category.name.as_bytes()));
    }
    Weights::new(weights)
}

// The pools, each with its weights.
fn weighed_pools(
    alloc: Global,
    categories: &[Category],
    members: &[Member],
    caps: Vec<NamedCap>,
) -> Result<Vec<Pool>, AllocError>
    requires { length categories.now ≤ MOST_CATEGORIES }
    ensures { IfOk result (λ pools. pools.items
        ≡ map (pool_with categories.now members.now) caps.items) }
{
    let mut pools = Vec::new(alloc);
    for NamedCap { name, cap } in caps {
        let weights = weights_in(categories, members, name.as_bytes());
        pools.push(Pool { name, cap, weights })?;
    }
    Ok(pools)
}
