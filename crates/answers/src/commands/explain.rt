//! The command `explain`: all faults of an input, or which bids are in no program.

ghost use Rattle.std.specs.Prelude.{◌⊎◌, IfErr, IfOk, IsErr, MatchBool, None, OnOk, true};
ghost use Rattle.byte_sinks.specs.Sinks.{GoesWhole};
ghost use Rattle.answers.specs.Answer.{answer, output_of};
ghost use Rattle.answers.specs.Exact.{Ends, IsUnwritten, Writes};
ghost use Rattle.answers.specs.Runs.{AsksAnswer};
ghost use Rattle.auction_input.specs.Settled.{held};
ghost use Rattle.auction_input.specs.PartCounts.{parsed_taken};
ghost use Rattle.input_faults.specs.Explained.{IsCutShort};
ghost use Rattle.input_faults.specs.FaultLines.{explanation};

use crate::commands::answer_auction;
use auction_input::{Auction, ExplainOptions, Input, Refusal, Request, check_wanted};
use byte_sinks::{Format, Sink};
use input_faults::explain;
use presolve::{Reasons, write_left_out};
use std::sync::Wait;
use std::thread::Threads;

/// Writes a line for each fault of an input, as a command takes it if one is named; where there is none, and bids are asked for, one
/// for each bid that is in no program. Tells whether there is a fault.
pub fn explain_input<R: Threads + Wait + Sync + AllocGlobal, S: Sink>(
    rt: &R,
    options: ExplainOptions,
    input: &Input,
    out: &mut S,
) -> Result<bool, Refusal>
    ensures explained { IfOk result (λ faulty. MatchBool faulty
        (IsErr (parsed_taken (Request.Explain options) input.now) × GoesWhole (S.state out.old) (S.state out.new) (explanation (Request.Explain options) input.now))
        (Writes (answer (Request.Explain options) input.now) (S.state out.old) (S.state out.new))) }
    ensures refused { IfErr result (λ r. IsCutShort
        (explanation (Request.Explain options) input.now)
        (S.state out.old) (S.state out.new) r
        ⊎ (AsksAnswer (Request.Explain options) input.now
        × IsUnwritten (Request.Explain options) input.now
        (S.state out.old) (S.state out.new) r)) }
{
    let request = Request::Explain(options);
    let faulty = explain(rt.alloc(), &request, input, out)?;
    if faulty {
        return Ok(true);
    }
    // The auction is read for its bids alone: without them nothing is written of it.
    if !options.bids {
        return Ok(false);
    }
    answer_auction(rt, &request, input, out)?;
    Ok(false)
}

// Writes which bids of an auction are in no program, and which forms are replaced.
fn write_left_out_of<R: Threads + Sync + AllocGlobal, S: Sink>(
    rt: &R,
    auction: &Auction<'_>,
    format: Format,
    out: &mut S,
) -> Result<(), Refusal>
    ensures written { OnOk result (Writes (output_of (Request.Explain (record { bids = true; target = None; format = format })) (held auction.now))
        (S.state out.old) (S.state out.new)) }
    ensures refused { IfErr result (Ends (output_of (Request.Explain (record { bids = true; target = None; format = format })) (held auction.now))
        (S.state out.old) (S.state out.new)) }
{
    let reasons = Reasons::new(rt, rt.alloc(), &auction.book)?;
    write_left_out(
        auction.book.rules(),
        auction.form_bidders.as_slice(),
        &reasons,
        format,
        out,
    )?;
    Ok(())
}

/// Writes, where it is asked for, which bids of an auction are in no program, and which forms are replaced, if the auction has what the
/// command that is named wants.
pub fn write_bids_of<R: Threads + Sync + AllocGlobal, S: Sink>(
    rt: &R,
    auction: &Auction<'_>,
    options: ExplainOptions,
    out: &mut S,
) -> Result<(), Refusal>
    ensures written { OnOk result (Writes (output_of (Request.Explain options) (held auction.now))
        (S.state out.old) (S.state out.new)) }
    ensures refused { IfErr result (Ends (output_of (Request.Explain options) (held auction.now))
        (S.state out.old) (S.state out.new)) }
{
    check_wanted(options.target, auction)?;
    if options.bids {
        return write_left_out_of(rt, auction, options.format, out);
    }
    Ok(())
}
