//! Which bids of a closed book are kept. It doesn't depend on who is left out, so one `Flags` serves every group.

ghost use Rattle.std.specs.Prelude.{◌≡◌, ◌≤◌, ◌-◌, IfOk, map, ◌<◌, ◌↔◌, IsTrue, length, ◌+◌, ◌&&◌};
ghost use Rattle.std.specs.Prelude.{All};
ghost use Rattle.std.specs.List.{range_with_len};
ghost use Rattle.auction_terms.specs.Allocations.{form_of};
ghost use Rattle.auction_terms.specs.Terms.{lots_in};
ghost use Rattle.bid_desk.specs.Closing.{book_of};
ghost use Rattle.presolve.specs.Flags.{flags_of, flags_of_form};
ghost use Rattle.presolve.specs.inside.Flags.{flags_of_bidders, IsRepeated};
ghost use Rattle.auction_terms.specs.Domination.{is_kept};
ghost use Rattle.auction_terms.specs.declared.limits.TheConstants.{MOST_BIDS};
ghost use Rattle.bid_forms.specs.Offers.{IsBidWithinLimits};

use crate::few_bids::has_few_bids;
use crate::keeping::{keep_bidder, keep_form};
use crate::order::ordered;
use crate::search::is_beaten;
use crate::sieve::sieves;
use auction_terms::{Bid, Choice, Group, Kept, KeptBid, Rules};
use bid_desk::ClosedBook;
use rayon::prelude::*;
use std::alloc::{AllocError, Global};
use std::marker::Model;
use std::thread::{Threads, join};

/// Whether each bid is kept. Contracts see a list for each bidder, with a flag for each bid of its form.
#[derive(Drop)]
pub struct Flags {
    forms: Vec<Vec<bool>>,
}

impl Model for Flags {
    ghost use Rattle.std.specs.Prelude.{List, Bool, map};

    ghost Value = { List (List Bool) };

    ghost view = { λ f. map (λ form. form.items) f.forms.items };
}

impl Flags {
    ghost use Rattle.std.specs.Prelude.{◌≡◌, ◌≤◌, ◌++◌, All, IfOk, OnOk, filter, length};
    ghost use Rattle.auction_terms.specs.Allocations.{form_of};
    ghost use Rattle.auction_terms.specs.Bids.{IsKeptBid};
    ghost use Rattle.auction_terms.specs.Groups.{has};
    ghost use Rattle.auction_terms.specs.Keeping.{kept_of};
    ghost use Rattle.auction_terms.specs.Offers.{offers};
    ghost use Rattle.auction_terms.specs.Terms.{lots_in};
    ghost use Rattle.bid_desk.specs.Closing.{book_of};
    ghost use Rattle.presolve.specs.Flags.{flags_of, kept_among, kept_in_form};
    ghost use Rattle.presolve.specs.inside.Flags.{is_offer_of};

    /// The flags of a book, by several threads.
    pub fn new(
        rt: &(impl Threads + Sync),
        alloc: Global,
        book: &ClosedBook,
    ) -> Result<Flags, AllocError>
        ensures { IfOk result (λ flags. flags
            ≡ flags_of (lots_in book.now.rules) (book_of book.now)) }
    {
        let forms = flags_by_bidder(rt, alloc, book)?;
        Ok(Flags { forms })
    }

    /// The kept bids of a group, by rising bidder, then bid, where these are the flags of the book.
    pub fn kept<'b>(
        &self,
        alloc: Global,
        book: &'b ClosedBook,
        group: &Group,
    ) -> Result<Kept<'b>, AllocError>
        requires { self.now ≡ flags_of (lots_in book.now.rules) (book_of book.now) }
        ensures { IfOk result (λ kept. offers kept
            ≡ kept_of (lots_in book.now.rules) (book_of book.now) (has group.now)) }
    {
        book.within_limits();
        let mut kept = Vec::new(alloc);
        for (place, flags) in self.forms.iter().enumerate() {
            keep_bidder(&mut kept, book, group, place as u16 + 1, flags)?;
        }
        Ok(Kept::new(kept))
    }

    /// The kept bids of a group that are among these choices, by rising bidder, then bid, where these are the flags of the book.
    pub fn kept_among<'b>(
        &self,
        alloc: Global,
        book: &'b ClosedBook,
        group: &Group,
        choices: Vec<Choice>,
    ) -> Result<Kept<'b>, AllocError>
        requires { self.now ≡ flags_of (lots_in book.now.rules) (book_of book.now) }
        ensures { IfOk result (λ kept. offers kept
            ≡ kept_among (lots_in book.now.rules) (book_of book.now) (has group.now)
            choices.items) }
    {
        book.within_limits();
        let mut sorted = choices;
        sorted.sort_unstable_by_key(
            |choice: &Choice| -> (u16, u16)
                ensures { result ≡ (choice.now.bidder, choice.now.bid) }
            { (choice.bidder, choice.bid) },
        );
        let mut kept = Vec::new(alloc);
        for place in 0..sorted.len() {
            if !is_repeated(&sorted, place) {
                self.keep_choice(&mut kept, book, group, sorted[place])?;
            }
        }
        Ok(Kept::new(kept))
    }

    // Adds the bid of a choice, if it is kept.
    fn keep_choice<'b>(
        &self,
        kept: &mut Vec<KeptBid<'b>>,
        book: &'b ClosedBook,
        group: &Group,
        choice: Choice,
    ) -> Result<(), AllocError>
        requires flags { self.now ≡ flags_of (lots_in book.now.rules) (book_of book.now) }
        requires each { All IsKeptBid kept.old.items }
        ensures added { OnOk result (offers kept.new.items
            ≡ offers kept.old.items ++ filter (is_offer_of choice)
            (kept_of (lots_in book.now.rules) (book_of book.now) (has group.now))) }
        ensures each { OnOk result (All IsKeptBid kept.new.items) }
    {
        book.within_limits();
        let Choice { bidder, bid } = choice;
        if group.has(bidder) {
            return Ok(());
        }
        let Some(form) = book.form(bidder) else {
            return Ok(());
        };
        let bids = form.bids();
        if bid == 0 || usize::from(bid) > bids.len() {
            return Ok(());
        }
        let place = usize::from(bid) - 1;
        let flags = &self.forms[usize::from(bidder) - 1];
        if flags[place] {
            let offer = &bids[place];
            kept.push(KeptBid { bidder, bid, offer })?;
        }
        Ok(())
    }

    /// The kept bids of one bidder's form, in order, where these are the flags of the book.
    pub fn kept_in_form<'b>(
        &self,
        alloc: Global,
        book: &'b ClosedBook,
        bidder: u16,
    ) -> Result<Kept<'b>, AllocError>
        requires flags { self.now ≡ flags_of (lots_in book.now.rules) (book_of book.now) }
        requires some { 1 ≤ bidder }
        requires bidders { bidder ≤ length (book_of book.now) }
        ensures { IfOk result (λ kept. offers kept
            ≡ kept_in_form (lots_in book.now.rules) bidder (form_of (book_of book.now) bidder)) }
    {
        book.within_limits();
        let mut own = Vec::new(alloc);
        let flags = &self.forms[bidder as usize - 1];
        keep_form(&mut own, book, bidder, flags)?;
        Ok(Kept::new(own))
    }
}

// The flags of every form, by rising bidder. Both halves of the bidders are flagged side by side, each by as many threads
// as `rayon` takes: with fewer, longer pieces more processors would be without work at the end. Few bids take one thread.
fn flags_by_bidder(
    rt: &(impl Threads + Sync),
    alloc: Global,
    book: &ClosedBook,
) -> Result<Vec<Vec<bool>>, AllocError>
    ensures { IfOk result (λ forms. map (λ form. form.items) forms.items
        ≡ flags_of (lots_in book.now.rules) (book_of book.now)) }
{
    let bidders = book.rules().bidders().len() as u16;
    let middle = bidders / 2 + 1;
    let end = bidders + 1;
    if has_few_bids(book) {
        return flags_between(rt, alloc, book, 1, end, usize::from(end));
    }
    let (front, back) = join(
        rt,
        move || -> Result<Vec<Vec<bool>>, AllocError>
            ensures { IfOk result (λ forms. map (λ form. form.items) forms.items
                ≡ flags_of_bidders (lots_in book.entry.now.rules) (book_of book.entry.now)
                (range_with_len 1 (middle - 1))) }
        { flags_between(rt, alloc, book, 1, middle, 1) },
        move || -> Result<Vec<Vec<bool>>, AllocError>
            ensures { IfOk result (λ forms. map (λ form. form.items) forms.items
                ≡ flags_of_bidders (lots_in book.entry.now.rules) (book_of book.entry.now)
                (range_with_len middle (end - middle))) }
        { flags_between(rt, alloc, book, middle, end, 1) },
    );
    let mut forms = front?;
    let mut others = back?;
    forms.append(&mut others)?;
    Ok(forms)
}

// The flags of the forms of bidders from the first up to the end, by threads that take at least so many forms each.
fn flags_between(
    rt: &(impl Threads + Sync),
    alloc: Global,
    book: &ClosedBook,
    first: u16,
    end: u16,
    least: usize,
) -> Result<Vec<Vec<bool>>, AllocError>
    ensures { IfOk result (λ forms. map (λ form. form.items) forms.items
        ≡ flags_of_bidders (lots_in book.now.rules) (book_of book.now)
        (range_with_len first (end - first))) }
{
    let made: Result<Vec<Vec<bool>>, AllocError> = (first..end)
        .into_par_iter()
        .with_min_len(least)
        .map(
            |bidder: u16| -> Result<Vec<bool>, AllocError>
                ensures { IfOk result (λ flags. flags.items
                    ≡ flags_of_form (lots_in book.entry.now.rules)
                    (form_of (book_of book.entry.now) bidder)) }
            {
                match book.form(bidder) {
                    None => Ok(Vec::new(alloc)),
                    Some(form) => flags_of_form(alloc, book.rules(), form.bids()),
                }
            },
        )
        .collect(rt, alloc)?;
    made
}

// Whether the choice at a place is the one before it again.
fn is_repeated(choices: &[Choice], place: usize) -> bool
    requires { place < length choices.now }
    ensures { IsTrue result ↔ IsRepeated choices.now place }
{
    if place == 0 {
        return false;
    }
    let choice = choices[place];
    let before = choices[place - 1];
    choice.bidder == before.bidder && choice.bid == before.bid
}

// Whether each bid of a form is kept, in the form's order: its net isn't below 0, and no rival dominates it.
fn flags_of_form(alloc: Global, rules: &Rules, bids: &[Bid]) -> Result<Vec<bool>, AllocError>
    requires few { length bids.now ≤ MOST_BIDS }
    requires sized { All (λ bid. length bid.package ≡ length rules.now.categories) bids.now }
    requires limits { All IsBidWithinLimits bids.now }
    ensures { IfOk result (λ flags. flags.items
        ≡ map (is_kept (lots_in rules.now) bids.now) bids.now) }
{
    let rivals = ordered(alloc, rules, bids)?;
    let sieves = sieves(alloc, &rivals, rules.categories().len())?;
    let mut flags = vec![in alloc; false; bids.len()]?;
    for (place, rival) in rivals.iter().enumerate() {
        if rival.net >= 0 && !is_beaten(&rivals, &sieves, place, rival) {
            flags[usize::from(rival.number) - 1] = true;
        }
    }
    Ok(flags)
}
