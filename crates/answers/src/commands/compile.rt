//! The command `compile`: the programs of all groups.

ghost use Rattle.std.specs.Prelude.{◌≤◌, [], IfErr, OnOk, length, map};
ghost use Rattle.byte_sinks.specs.Sinks.{GoesWhole};
ghost use Rattle.bid_desk.specs.Sale.{sale_of};
ghost use Rattle.group_compiler.specs.Compiled.{compiled};
ghost use Rattle.group_compiler.specs.Gates.{AreAllPast};
ghost use Rattle.auction_terms.specs.declared.limits.TheConstants.{MOST_WORKERS};
ghost use Rattle.answers.specs.Exact.{Ends, Writes};
ghost use Rattle.answers.specs.Answer.{output_of};
ghost use Rattle.answers.specs.FaithfulTexts.{WritesFaithfulTexts};
ghost use Rattle.answers.specs.GroupTexts.{StopsAsReported, programs_bytes};
ghost use Rattle.auction_input.specs.Settled.{held};

use crate::group_texts::{RunFault, write_joined};
use auction_input::{Auction, Refusal, Request};
use auction_terms::Groups;
use bid_desk::ClosedBook;
use byte_sinks::{Sink, WriteFault};
use group_compiler::{Gate, Pages};
use std::alloc::{AllocError, Global};
use std::sync::Wait;
use std::thread::Threads;

/// Renders the lines of each form's kept bids once, with 1 to 64 workers, and writes for each group in order a line
/// `* program k NAMES` and the text of its program. Each point of a text maps back to a feasible allocation of the same
/// total, and each feasible allocation is matched by a point of at least its total. It waits for nothing but its own workers.
pub fn write_programs<R: Threads + Sync, S: Sink>(
    rt: &R,
    alloc: Global,
    book: &ClosedBook,
    groups: &Groups,
    workers: usize,
    out: &mut S,
) -> Result<(), RunFault>
    requires some { 1 ≤ workers }
    requires few { workers ≤ MOST_WORKERS }
    ensures ok { OnOk result (GoesWhole (S.state out.old) (S.state out.new)
        (programs_bytes book.now (map (compiled book.now) groups.now))) }
    ensures faithful { OnOk result (WritesFaithfulTexts (sale_of book.now) groups.now
        (S.state out.old).taken (S.state out.new).taken) }
    ensures stopped { IfErr result (StopsAsReported book.now (map (compiled book.now) groups.now)
        (S.state out.old) (S.state out.new)) }
{
    book.within_limits();
    match Pages::new(rt, alloc, book, workers) {
        Ok(pages) => write_joined(book, &pages, groups, out),
        Err(AllocError) => Err(RunFault::OutOfMemory { written: 0 }),
    }
}

/// Writes the same where each group stops at a gate. A gate may wait, and then this call may not return.
///
/// What the gate means here: the workers make pages, and this call joins the texts from them when all are made. A worker stops
/// at the gate with the group that has the number it drew, and then makes the page of the bidder with that number. So each
/// group has come past before anything of its text is joined, but not by the worker that joins it.
pub fn run_compile<R: Threads + Wait + Sync, G: Gate + Sync, S: Sink>(
    rt: &R,
    alloc: Global,
    book: &ClosedBook,
    groups: &Groups,
    workers: usize,
    gate: &G,
    out: &mut S,
) -> Result<(), RunFault>
    requires some { 1 ≤ workers }
    requires few { workers ≤ MOST_WORKERS }
    ensures ok { OnOk result (GoesWhole (S.state out.old) (S.state out.new)
        (programs_bytes book.now (map (compiled book.now) groups.now))) }
    ensures faithful { OnOk result (WritesFaithfulTexts (sale_of book.now) groups.now
        (S.state out.old).taken (S.state out.new).taken) }
    ensures stopped { IfErr result (StopsAsReported book.now (map (compiled book.now) groups.now)
        (S.state out.old) (S.state out.new)) }
    ensures past { OnOk result (AreAllPast (length groups.now) (G.is_past gate.now)) }
{
    book.within_limits();
    match Pages::of_book(rt, alloc, book, groups.count(), workers, gate) {
        Ok(pages) => write_joined(book, &pages, groups, out),
        Err(AllocError) => Err(RunFault::OutOfMemory { written: 0 }),
    }
}

/// Writes the programs of all groups of an auction.
pub fn write_programs_of<R: Threads + Sync + AllocGlobal, S: Sink>(
    rt: &R,
    auction: &Auction<'_>,
    workers: usize,
    out: &mut S,
) -> Result<(), Refusal>
    requires some { 1 ≤ workers }
    requires few { workers ≤ MOST_WORKERS }
    ensures written { OnOk result (Writes (output_of (Request.Compile workers) (held auction.now))
        (S.state out.old) (S.state out.new)) }
    ensures refused { IfErr result (Ends (output_of (Request.Compile workers) (held auction.now))
        (S.state out.old) (S.state out.new)) }
{
    let Auction { book, groups, .. } = auction;
    match write_programs(rt, rt.alloc(), book, groups, workers, out) {
        Ok(()) => Ok(()),
        Err(RunFault::OutOfMemory { written: _ }) => Err(Refusal::OutOfMemory),
        Err(RunFault::Sink { group: _, written }) => {
            Err(Refusal::Write(WriteFault::Sink { written }))
        }
    }
}
