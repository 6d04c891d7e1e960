//! The bids of a form in the order of their sizes.

ghost use Rattle.std.specs.Prelude.{◌≡◌, ◌≤◌, All, length, map, IfOk};
ghost use Rattle.auction_terms.specs.Packages.{size};
ghost use Rattle.auction_terms.specs.Terms.{lots_in};
ghost use Rattle.presolve.specs.inside.Sizes.{AreNumbered, fitting_from, sized_of, IsOrdered, TellsItsNet, TellsItsSize};
ghost use Rattle.presolve.specs.Sizes.{IsBySize};
ghost use Rattle.auction_terms.specs.declared.limits.TheConstants.{GREATEST_AMOUNT, MOST_BIDS};
ghost use Rattle.bid_forms.specs.Offers.{IsBidWithinLimits};

use auction_terms::{Bid, Rules};
use bid_forms::Form;
use std::alloc::{AllocError, Global};

/// A bid that fits, with its net, the size of its package and its number in its form, so that most comparisons need no look
/// at the bid itself.
#[derive(Clone, Copy)]
pub(crate) struct SizedBid<'b> {
    pub(crate) net: i64,
    pub(crate) bid: &'b Bid,
    pub(crate) size: u32,
    pub(crate) number: u16,
}

// A bid with its net, its size and its number.
fn sized<'b>(rules: &Rules, bid: &'b Bid, number: u16) -> SizedBid<'b>
    requires { bid.now.amount ≤ GREATEST_AMOUNT }
    ensures same { sized_of result ≡ record {
      size = size bid.now.package;
      number = number;
      bid =
          bid.now;
    } }
    ensures reported { TellsItsSize result }
    ensures net { TellsItsNet (lots_in rules.now) result }
{
    SizedBid {
        net: rules.net(bid),
        bid,
        size: bid.package.size(),
        number,
    }
}

// All bids of a form, with their sizes, by number.
pub(crate) fn numbered<'b>(
    alloc: Global,
    rules: &Rules,
    bids: &'b [Bid],
) -> Result<Vec<SizedBid<'b>>, AllocError>
    requires few { length bids.now ≤ MOST_BIDS }
    requires limits { All IsBidWithinLimits bids.now }
    ensures { IfOk result (λ numbered. AreNumbered (lots_in rules.now) bids.now numbered.items) }
{
    let mut numbered = Vec::with_capacity(alloc, bids.len())?;
    for (place, bid) in bids.iter().enumerate() {
        numbered.push_reserved(sized(rules, bid, place as u16 + 1));
    }
    Ok(numbered)
}

// The bids that fit, with their sizes, by number.
fn fitting<'b>(
    alloc: Global,
    rules: &Rules,
    bids: &'b [Bid],
) -> Result<Vec<SizedBid<'b>>, AllocError>
    requires few { length bids.now ≤ MOST_BIDS }
    requires sized { All (λ bid. length bid.package ≡ length rules.now.categories) bids.now }
    requires limits { All IsBidWithinLimits bids.now }
    ensures same { IfOk result (λ fitting. map sized_of fitting.items
        ≡ fitting_from (lots_in rules.now) 1 bids.now) }
    ensures reported { IfOk result (λ fitting. All TellsItsSize fitting.items) }
    ensures nets { IfOk result (λ fitting. All (TellsItsNet (lots_in rules.now)) fitting.items) }
{
    let mut fitting = Vec::with_capacity(alloc, bids.len())?;
    for (place, bid) in bids.iter().enumerate() {
        if bid.package.fits(rules) {
            fitting.push(sized(rules, bid, place as u16 + 1))?;
        }
    }
    Ok(fitting)
}

// The bids that fit, by rising size, ties by number.
pub(crate) fn ordered<'b>(
    alloc: Global,
    rules: &Rules,
    bids: &'b [Bid],
) -> Result<Vec<SizedBid<'b>>, AllocError>
    requires few { length bids.now ≤ MOST_BIDS }
    requires sized { All (λ bid. length bid.package ≡ length rules.now.categories) bids.now }
    requires limits { All IsBidWithinLimits bids.now }
    ensures { IfOk result (λ ordered. IsOrdered (lots_in rules.now) bids.now ordered.items) }
{
    let mut ordered = fitting(alloc, rules, bids)?;
    ordered.sort_unstable_by_key(
        |bid: &SizedBid| -> (u32, u16)
            ensures { result ≡ (bid.now.size, bid.now.number) }
        { (bid.size, bid.number) },
    );
    Ok(ordered)
}

/// The numbers of the bids that fit, by rising size of package, ties by number.
pub fn by_size(alloc: Global, form: &Form, rules: &Rules) -> Result<Vec<u16>, AllocError>
    requires { All (λ bid. length bid.package ≡ length rules.now.categories) form.now.bids }
    ensures { IfOk result (λ numbers. IsBySize (lots_in rules.now) form.now.bids numbers.items) }
{
    let ordered = ordered(alloc, rules, form.bids())?;
    let mut numbers = Vec::with_capacity(alloc, ordered.len())?;
    for bid in &ordered {
        numbers.push_reserved(bid.number);
    }
    Ok(numbers)
}
