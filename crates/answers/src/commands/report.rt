//! The command `report`: what the solutions of all groups win, and what each group costs the others.

ghost use Rattle.std.specs.Prelude.{◌≤◌, IfErr, OnOk};
ghost use Rattle.answers.specs.Exact.{Ends, Writes};
ghost use Rattle.answers.specs.Answer.{output_of};
ghost use Rattle.auction_input.specs.Settled.{held};
ghost use Rattle.auction_terms.specs.declared.limits.TheConstants.{MOST_WORKERS};

use crate::report_run::{check_counts, won_by_groups};
use auction_input::{Auction, Refusal, Request};
use byte_sinks::Sink;
use group_compiler::Compiler;
use outcome::report;
use std::thread::Threads;

/// Writes what the solutions of all groups of an auction win, and the groups' opportunity costs.
pub fn write_costs<R: Threads + Sync + AllocGlobal, S: Sink>(
    rt: &R,
    auction: &Auction<'_>,
    workers: usize,
    out: &mut S,
) -> Result<(), Refusal>
    requires some { 1 ≤ workers }
    requires few { workers ≤ MOST_WORKERS }
    ensures written { OnOk result (Writes (output_of (Request.Report workers) (held auction.now))
        (S.state out.old) (S.state out.new)) }
    ensures refused { IfErr result (Ends (output_of (Request.Report workers) (held auction.now))
        (S.state out.old) (S.state out.new)) }
{
    check_counts(auction)?;
    let compiler = Compiler::new(rt, rt.alloc(), &auction.book, &auction.groups)?;
    let won = won_by_groups(rt, auction, &compiler, workers)?;
    report(&auction.book, &auction.groups, won.as_slice(), out)?;
    Ok(())
}
