//! The pages of an auction.

use crate::gate::Gate;
use crate::page::Page;
use crate::page_maker::PageMaker;
use crate::pool::make_by;
use crate::stop::{AtGate, Nowhere, Stop};
use bid_desk::ClosedBook;
use presolve::Flags;
use std::alloc::{AllocError, Global};
use std::marker::Model;
use std::sync::Wait;
use std::thread::Threads;

/// A page for each bidder, and that of the lots.
#[derive(Drop)]
pub struct Pages {
    forms: Vec<Page>,
    lots: Page,
    ghost few: { length forms.items ≤ MOST_BIDDERS },
}

impl Model for Pages {
    ghost use Rattle.group_compiler.specs.Pages.{AllPages, all_pages};

    ghost Value = { AllPages };

    ghost view = { λ p. all_pages p.forms.items p.lots };
}

ghost use Rattle.std.specs.Prelude.{◌≤◌, length};
ghost use Rattle.auction_terms.specs.declared.limits.TheConstants.{MOST_BIDDERS};

impl Pages {
    ghost use Rattle.std.specs.Prelude.{◌≡◌, ◌≤◌, IfOk, length};
    ghost use Rattle.auction_terms.specs.Terms.{lots_in};
    ghost use Rattle.bid_desk.specs.Closing.{book_of};
    ghost use Rattle.group_compiler.specs.Gates.{AreAllPast};
    ghost use Rattle.auction_terms.specs.declared.limits.TheConstants.{MOST_WORKERS};
    ghost use Rattle.group_compiler.specs.Pages.{pages_of};
    ghost use Rattle.auction_terms.specs.declared.limits.TheConstants.{MOST_BIDDERS, MOST_GROUPS};

    /// The pages of a closed book, made by 1 to 64 workers, which draw numbers from one counter: a worker stops at the gate
    /// with the group that has the number, if there is one, and then makes the page of the bidder who has it. So each group has
    /// come past once there are pages. If memory is refused, nothing is given.
    pub fn of_book<R: Threads + Wait + Sync, G: Gate + Sync>(
        rt: &R,
        alloc: Global,
        book: &ClosedBook,
        groups: usize,
        workers: usize,
        gate: &G,
    ) -> Result<Pages, AllocError>
        requires some { 1 ≤ workers }
        requires few { workers ≤ MOST_WORKERS }
        requires groups { groups ≤ MOST_GROUPS }
        ensures pages { IfOk result (λ pages. pages
            ≡ pages_of (lots_in book.now.rules) (book_of book.now)) }
        ensures past { IfOk result (λ _. AreAllPast groups (G.is_past gate.now)) }
    {
        Pages::made_by(rt, alloc, book, groups, workers, &AtGate { gate })
    }

    /// The same pages, made by workers that stop nowhere. It waits for nothing but its own workers.
    pub fn new<R: Threads + Sync>(
        rt: &R,
        alloc: Global,
        book: &ClosedBook,
        workers: usize,
    ) -> Result<Pages, AllocError>
        requires some { 1 ≤ workers }
        requires few { workers ≤ MOST_WORKERS }
        ensures { IfOk result (λ pages. pages
            ≡ pages_of (lots_in book.now.rules) (book_of book.now)) }
    {
        Pages::made_by(rt, alloc, book, 0, workers, &Nowhere)
    }

    // The pages of a closed book, and each group has come past.
    fn made_by<R: Threads + Sync, G: Stop<R> + Sync>(
        rt: &R,
        alloc: Global,
        book: &ClosedBook,
        groups: usize,
        workers: usize,
        stop: &G,
    ) -> Result<Pages, AllocError>
        requires some { 1 ≤ workers }
        requires few { workers ≤ MOST_WORKERS }
        requires groups { groups ≤ MOST_GROUPS }
        ensures pages { IfOk result (λ pages. pages
            ≡ pages_of (lots_in book.now.rules) (book_of book.now)) }
        ensures past { IfOk result (λ _. AreAllPast groups (G.is_past stop.now)) }
    {
        let flags = Flags::new(rt, alloc, book)?;
        let maker = PageMaker {
            book,
            flags,
            groups,
        };
        let forms = make_by(rt, alloc, workers, stop, &maker)?;
        let lots = Page::of_lots(alloc, book.rules())?;
        Ok(Pages { forms, lots })
    }

    /// A page for each bidder.
    pub fn forms(&self) -> &[Page]
        ensures forms { result.now ≡ self.now.forms }
        ensures few { length result.now ≤ MOST_BIDDERS }
    {
        self.forms.as_slice()
    }

    /// The page of the lots.
    pub fn lots(&self) -> &Page
        ensures { result.now ≡ self.now.lots }
    {
        &self.lots
    }
}
