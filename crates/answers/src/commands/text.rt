//! The command `text`: the program with nobody left out.

ghost use Rattle.std.specs.Prelude.{◌≤◌, [], IfErr, OnOk};
ghost use Rattle.answers.specs.Exact.{Ends, Writes};
ghost use Rattle.answers.specs.FaithfulAnswers.{IsFaithfulToSale};
ghost use Rattle.answers.specs.Answer.{output_of};
ghost use Rattle.auction_input.specs.Settled.{held};
ghost use Rattle.auction_terms.specs.declared.limits.TheConstants.{MOST_WORKERS};
ghost use Rattle.bid_desk.specs.Sale.{sale_of};

use crate::group_texts::write_program_without;
use auction_input::{Auction, Refusal, Request};
use auction_terms::{Groups, MOST_WORKERS};
use bid_desk::ClosedBook;
use byte_sinks::Sink;
use group_compiler::Pages;
use presolve::has_few_bids;
use rayon::current_num_threads;
use std::alloc::Global;
use std::thread::Threads;

// How many workers make the pages: one for each processor, unless there is little to do.
fn page_workers(rt: &impl Threads, book: &ClosedBook) -> usize
    ensures some { 1 ≤ result }
    ensures few { result ≤ MOST_WORKERS }
{
    if has_few_bids(book) {
        return 1;
    }
    current_num_threads(rt).min(MOST_WORKERS)
}

/// Writes the text of the program with nobody left out, joined from pages that are made side by side.
pub fn write_program_of_all<R: Threads + Sync + AllocGlobal, S: Sink>(
    rt: &R,
    auction: &Auction<'_>,
    out: &mut S,
) -> Result<(), Refusal>
    ensures written { OnOk result (Writes (output_of Request.Text (held auction.now))
        (S.state out.old) (S.state out.new)) }
    ensures faithful { OnOk result (IsFaithfulToSale (sale_of auction.now.book) []) }
    ensures refused { IfErr result (Ends (output_of Request.Text (held auction.now))
        (S.state out.old) (S.state out.new)) }
{
    let alloc: Global = rt.alloc();
    let book = &auction.book;
    book.within_limits();
    let groups = Groups::only_empty(alloc)?;
    let workers = page_workers(rt, book);
    let pages = Pages::new(rt, alloc, book, workers)?;
    write_program_without(book, &pages, groups.group(1), out)?;
    Ok(())
}
