//! The command `map`: what one solution wins.

ghost use Rattle.std.specs.Prelude.{◌≡◌, ◌≤◌, ◌-◌, [], IfErr, IfOk, Ok, OnOk, false, length, slice_index_or};
ghost use Rattle.answers.specs.Exact.{Ends, Writes};
ghost use Rattle.answers.specs.SolutionWinners.{winners_by};
ghost use Rattle.answers.specs.Answer.{output_of};
ghost use Rattle.auction_input.specs.Refused.{Refuses};
ghost use Rattle.auction_input.specs.Settled.{held};
ghost use Rattle.auction_terms.specs.Allocations.{IsFeasible};
ghost use Rattle.auction_terms.specs.Terms.{lots_in};
ghost use Rattle.bid_desk.specs.Closing.{book_of};
ghost use Rattle.group_compiler.specs.Compiled.{program_without};

use crate::winning::won_without;
use auction_input::{Auction, Refusal, Request, only_text};
use auction_terms::Groups;
use bid_desk::ClosedBook;
use byte_sinks::Sink;
use group_compiler::Compiler;
use outcome::{Allocation, write_allocation};
use std::alloc::Global;
use std::thread::Threads;

/// Writes what the one solution wins without group k of an auction.
pub fn write_winners<R: Threads + Sync + AllocGlobal, S: Sink>(
    rt: &R,
    auction: &Auction<'_>,
    k: usize,
    out: &mut S,
) -> Result<(), Refusal>
    requires { 1 ≤ k }
    ensures written { OnOk result (Writes (output_of (Request.Map k) (held auction.now))
        (S.state out.old) (S.state out.new)) }
    ensures refused { IfErr result (Ends (output_of (Request.Map k) (held auction.now))
        (S.state out.old) (S.state out.new)) }
{
    let Auction { book, groups, .. } = auction;
    if k > groups.count() {
        return Err(Refusal::NoGroup { group: k });
    }
    let solution = only_text(auction.solutions.as_slice());
    let allocation = won_by_group(rt, book, groups, k, solution)?;
    write_allocation(book, &allocation, out)?;
    Ok(())
}

// What the solution of the program of group k wins.
fn won_by_group<R: Threads + Sync + AllocGlobal>(
    rt: &R,
    book: &ClosedBook,
    groups: &Groups,
    k: usize,
    text: &[u8],
) -> Result<Allocation, Refusal>
    requires some { 1 ≤ k }
    requires within { k ≤ length groups.now }
    ensures feasible { IfOk result (λ a. IsFeasible (lots_in book.now.rules) (book_of book.now)
        (λ b. false) a) }
    ensures won { IfOk result (λ a. winners_by
        (program_without book.now (slice_index_or groups.now (k - 1) [])) 1 text.now ≡ Ok a) }
    ensures refuses { IfErr result (Refuses (winners_by
        (program_without book.now (slice_index_or groups.now (k - 1) [])) 1 text.now)) }
{
    let alloc: Global = rt.alloc();
    let compiler = Compiler::new(rt, alloc, book, groups)?;
    won_without(alloc, &compiler, groups.group(k), 1, text)
}
