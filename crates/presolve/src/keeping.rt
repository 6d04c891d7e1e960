//! The kept bids of a closed book.

ghost use Rattle.std.specs.Prelude.{◌≡◌, ◌≤◌, ◌++◌, All, filter, length, map, IfOk, OnOk};
ghost use Rattle.auction_terms.specs.Allocations.{form_of};
ghost use Rattle.auction_terms.specs.Bids.{IsKeptBid};
ghost use Rattle.auction_terms.specs.Domination.{is_kept};
ghost use Rattle.auction_terms.specs.Groups.{has};
ghost use Rattle.auction_terms.specs.Keeping.{kept_of, offers_of_form};
ghost use Rattle.auction_terms.specs.inside.Keeping.{is_kept_offer};
ghost use Rattle.auction_terms.specs.Offers.{offers};
ghost use Rattle.auction_terms.specs.Terms.{lots_in};
ghost use Rattle.auction_terms.specs.declared.limits.TheConstants.{MOST_BIDDERS, MOST_BIDS};
ghost use Rattle.bid_desk.specs.Closing.{book_of};
ghost use Rattle.bid_forms.specs.Offers.{IsBidWithinLimits};
ghost use Rattle.presolve.specs.Flags.{kept_in_form};
ghost use Rattle.presolve.specs.inside.Flags.{flagged_from};

use crate::flags::Flags;
use auction_terms::{Bid, Group, Kept, KeptBid};
use bid_desk::ClosedBook;
use std::alloc::{AllocError, Global};
use std::thread::Threads;

/// The kept bids of a group, by rising bidder, then bid: those of bidders outside the group that fit, whose net isn't below
/// 0, and that no bid of their form dominates. For several groups, make the `Flags` once.
pub fn kept<'b>(
    rt: &(impl Threads + Sync),
    alloc: Global,
    book: &'b ClosedBook,
    group: &Group,
) -> Result<Kept<'b>, AllocError>
    ensures { IfOk result (λ kept. offers kept
        ≡ kept_of (lots_in book.now.rules) (book_of book.now) (has group.now)) }
{
    let flags = Flags::new(rt, alloc, book)?;
    flags.kept(alloc, book, group)
}

// Adds the kept bids of a bidder, unless it is in the group.
pub(crate) fn keep_bidder<'b>(
    kept: &mut Vec<KeptBid<'b>>,
    book: &'b ClosedBook,
    group: &Group,
    bidder: u16,
    flags: &[bool],
) -> Result<(), AllocError>
    requires some { 1 ≤ bidder }
    requires bidders { bidder ≤ MOST_BIDDERS }
    requires flags { flags.now ≡ map (is_kept (lots_in book.now.rules)
        (form_of (book_of book.now) bidder)) (form_of (book_of book.now) bidder) }
    requires each { All IsKeptBid kept.old.items }
    ensures added { OnOk result (offers kept.new.items
        ≡ offers kept.old.items ++ filter
        (is_kept_offer (lots_in book.now.rules) (book_of book.now) (has group.now))
        (offers_of_form bidder 1 (form_of (book_of book.now) bidder))) }
    ensures each { OnOk result (All IsKeptBid kept.new.items) }
{
    if group.has(bidder) {
        return Ok(());
    }
    keep_form(kept, book, bidder, flags)
}

// Adds the kept bids of a bidder's form.
pub(crate) fn keep_form<'b>(
    kept: &mut Vec<KeptBid<'b>>,
    book: &'b ClosedBook,
    bidder: u16,
    flags: &[bool],
) -> Result<(), AllocError>
    requires some { 1 ≤ bidder }
    requires bidders { bidder ≤ MOST_BIDDERS }
    requires flags { flags.now ≡ map (is_kept (lots_in book.now.rules)
        (form_of (book_of book.now) bidder)) (form_of (book_of book.now) bidder) }
    requires each { All IsKeptBid kept.old.items }
    ensures added { OnOk result (offers kept.new.items
        ≡ offers kept.old.items ++ kept_in_form (lots_in book.now.rules) bidder
        (form_of (book_of book.now) bidder)) }
    ensures each { OnOk result (All IsKeptBid kept.new.items) }
{
    match book.form(bidder) {
        None => Ok(()),
        Some(form) => keep_flagged(kept, bidder, form.bids(), flags),
    }
}

// Adds the bids of a form whose flag is set.
fn keep_flagged<'b>(
    kept: &mut Vec<KeptBid<'b>>,
    bidder: u16,
    bids: &'b [Bid],
    flags: &[bool],
) -> Result<(), AllocError>
    requires some { 1 ≤ bidder }
    requires bidders { bidder ≤ MOST_BIDDERS }
    requires few { length bids.now ≤ MOST_BIDS }
    requires limits { All IsBidWithinLimits bids.now }
    requires flags { length flags.now ≡ length bids.now }
    requires each { All IsKeptBid kept.old.items }
    ensures added { OnOk result (offers kept.new.items
        ≡ offers kept.old.items ++ flagged_from bidder 1 bids.now flags.now) }
    ensures each { OnOk result (All IsKeptBid kept.new.items) }
{
    for (place, offer) in bids.iter().enumerate() {
        if flags[place] {
            let bid = place as u16 + 1;
            kept.push(KeptBid { bidder, bid, offer })?;
        }
    }
    Ok(())
}
