//! Why a bid is in no program.

ghost use Rattle.std.specs.Prelude.{◌≡◌, ◌≤◌, ◌<◌, ◌+◌, All, List, length, slice_index_or};
ghost use Rattle.auction_terms.specs.Terms.{lots_in};
ghost use Rattle.auction_terms.specs.declared.bids.Bid.{Bid};
ghost use Rattle.auction_terms.specs.declared.limits.TheConstants.{MOST_BIDS, MOST_CATEGORIES};
ghost use Rattle.presolve.specs.Reasons.{over_cap, over_supply, why_left_out};
ghost use Rattle.presolve.specs.inside.Sieves.{IsSieve};
ghost use Rattle.presolve.specs.inside.Sizes.{AreNumbered};

use crate::order::SizedBid;
use crate::search::first_beating;
use crate::sieve::Sieve;
use auction_terms::{Package, Rules};

/// The first reason for which no program has a bid. Categories and pools are named by their places, from 0.
#[derive(Clone, Copy, Debug, PartialEq, Eq)]
pub enum Reason {
    /// It asks for more lots of a category than there are.
    OverSupply {
        category: usize,
        asked: u32,
        supply: u32,
    },
    /// It loads a pool above its cap.
    OverCap {
        pool: usize,
        load: u64,
        cap: u64,
    },
    /// Its lots are worth more unsold than its amount, by so many pounds: that is what its net is below 0.
    BelowWorth {
        less: u64,
    },
    /// A bid of its form dominates it: the first that does, by its number from 1.
    Dominated {
        by: usize,
    },
}

// The first category of which a package asks for more than there is.
fn over_supply(rules: &Rules, package: &Package) -> Option<Reason>
    requires { length «package».now ≡ length rules.now.categories }
    ensures { result ≡ over_supply (lots_in rules.now) «package».now }
{
    let quantities = package.quantities();
    for (category, &quantity) in quantities.iter().enumerate() {
        let asked = u32::from(quantity);
        let supply = rules.categories()[category].supply;
        if asked > supply {
            return Some(Reason::OverSupply {
                category,
                asked,
                supply,
            });
        }
    }
    None
}

// The first pool that a package loads above its cap.
fn over_cap(rules: &Rules, package: &Package) -> Option<Reason>
    ensures { result ≡ over_cap (lots_in rules.now) «package».now }
{
    let pools = rules.pools();
    for (pool, found) in pools.iter().enumerate() {
        let load = found.load(package);
        if load > found.cap {
            return Some(Reason::OverCap {
                pool,
                load,
                cap: found.cap,
            });
        }
    }
    None
}

// Why the bid at a place of a form is in no program.
pub(crate) fn why_left_out(
    rules: &Rules,
    rivals: &[SizedBid<'_>],
    sieves: &[Sieve],
    place: usize,
) -> Option<Reason>
    requires sized { All (λ s. length s.bid.now.package ≡ length rules.now.categories) rivals.now }
    requires many { length rivals.now ≤ MOST_BIDS }
    requires sieves { All (IsSieve rivals.now) sieves.now }
    requires some { 1 ≤ length sieves.now }
    requires few { length sieves.now ≤ MOST_CATEGORIES + 1 }
    requires within { place < length rivals.now }
    ensures { (form : List Bid) (bid : Bid) → AreNumbered (lots_in rules.now) form rivals.now
        → result ≡ why_left_out (lots_in rules.now) form (slice_index_or form place bid) }
{
    let rival = &rivals[place];
    let package = &rival.bid.package;
    if let Some(reason) = over_supply(rules, package) {
        return Some(reason);
    }
    if let Some(reason) = over_cap(rules, package) {
        return Some(reason);
    }
    if rival.net < 0 {
        return Some(Reason::BelowWorth {
            less: rival.net.unsigned_abs(),
        });
    }
    let first = first_beating(rivals, sieves, place, rival)?;
    Some(Reason::Dominated { by: first + 1 })
}
