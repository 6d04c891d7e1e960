//! Why each bid of a closed book is in no program.

ghost use Rattle.std.specs.Prelude.{◌≡◌, ◌≤◌, All, IfOk, length, map};
ghost use Rattle.auction_terms.specs.Allocations.{form_of};
ghost use Rattle.auction_terms.specs.Terms.{lots_in};
ghost use Rattle.auction_terms.specs.declared.limits.TheConstants.{MOST_BIDS};
ghost use Rattle.bid_desk.specs.Closing.{book_of};
ghost use Rattle.bid_forms.specs.Offers.{IsBidWithinLimits};
ghost use Rattle.presolve.specs.Reasons.{reasons_of, reasons_of_form};

use crate::few_bids::has_few_bids;
use crate::order::numbered;
use crate::reason::{Reason, why_left_out};
use crate::sieve::sieves;
use auction_terms::{Bid, Rules};
use bid_desk::ClosedBook;
use rayon::prelude::*;
use std::alloc::{AllocError, Global};
use std::marker::Model;
use std::thread::Threads;

/// Why each bid of a closed book is in no program, whoever is left out of it. Contracts see a list for each bidder, with the
/// first reason for each bid of its form, and none for a bid that is kept.
#[derive(Drop)]
pub struct Reasons {
    pub(crate) forms: Vec<Vec<Option<Reason>>>,
}

impl Model for Reasons {
    ghost use Rattle.std.specs.Prelude.{List, Option, map};
    ghost use Rattle.presolve.specs.declared.reason.Reason.{Reason};

    ghost Value = { List (List (Option Reason)) };

    ghost view = { λ r. map (λ form. form.items) r.forms.items };
}

impl Reasons {
    ghost use Rattle.std.specs.Prelude.{◌≡◌, IfOk};
    ghost use Rattle.auction_terms.specs.Terms.{lots_in};
    ghost use Rattle.bid_desk.specs.Closing.{book_of};
    ghost use Rattle.presolve.specs.Reasons.{reasons_of};

    /// The reasons of a book, by several threads.
    pub fn new(
        rt: &(impl Threads + Sync),
        alloc: Global,
        book: &ClosedBook,
    ) -> Result<Reasons, AllocError>
        ensures { IfOk result (λ reasons. reasons
            ≡ reasons_of (lots_in book.now.rules) (book_of book.now)) }
    {
        let forms = reasons_by_bidder(rt, alloc, book)?;
        Ok(Reasons { forms })
    }
}

// The reasons of every form, by rising bidder. Few bids take one thread.
fn reasons_by_bidder(
    rt: &(impl Threads + Sync),
    alloc: Global,
    book: &ClosedBook,
) -> Result<Vec<Vec<Option<Reason>>>, AllocError>
    ensures { IfOk result (λ forms. map (λ form. form.items) forms.items
        ≡ reasons_of (lots_in book.now.rules) (book_of book.now)) }
{
    let end = book.rules().bidders().len() as u16 + 1;
    let least = if has_few_bids(book) {
        usize::from(end)
    } else {
        1
    };
    let made: Result<Vec<Vec<Option<Reason>>>, AllocError> = (1..end)
        .into_par_iter()
        .with_min_len(least)
        .map(
            |bidder: u16| -> Result<Vec<Option<Reason>>, AllocError>
                ensures { IfOk result (λ reasons. reasons.items
                    ≡ reasons_of_form (lots_in book.entry.now.rules)
                    (form_of (book_of book.entry.now) bidder)) }
            {
                match book.form(bidder) {
                    None => Ok(Vec::new(alloc)),
                    Some(form) => reasons_of_form(alloc, book.rules(), form.bids()),
                }
            },
        )
        .collect(rt, alloc)?;
    made
}

// Why each bid of a form is in no program, in the form's order. Its rivals stay in this order, so that the first one that
// dominates a bid has the lowest number.
fn reasons_of_form(
    alloc: Global,
    rules: &Rules,
    bids: &[Bid],
) -> Result<Vec<Option<Reason>>, AllocError>
    requires few { length bids.now ≤ MOST_BIDS }
    requires sized { All (λ bid. length bid.package ≡ length rules.now.categories) bids.now }
    requires limits { All IsBidWithinLimits bids.now }
    ensures { IfOk result (λ reasons. reasons.items
        ≡ reasons_of_form (lots_in rules.now) bids.now) }
{
    let rivals = numbered(alloc, rules, bids)?;
    let sieves = sieves(alloc, &rivals, rules.categories().len())?;
    let mut reasons = Vec::with_capacity(alloc, bids.len())?;
    for place in 0..bids.len() {
        reasons.push_reserved(why_left_out(rules, &rivals, &sieves, place));
    }
    Ok(reasons)
}
