//! The command `verify`: a report of solutions that certificates show to be optimal, prices that are shown to cover every group,
//! and what is known of other awards.

ghost use Rattle.std.specs.Prelude.{◌≡◌, ◌++◌, ◌≤◌, IfErr, IfOk, Ok, OnOk, length, true};
ghost use Rattle.byte_sinks.specs.declared.json.Format.TheVariants as format;
ghost use Rattle.auction_terms.specs.declared.limits.TheConstants.{MOST_WORKERS};
ghost use Rattle.answers.specs.Answer.{answer, output_of, shown_outcome};
ghost use Rattle.auction_input.specs.Settled.{held};
ghost use Rattle.answers.specs.Exact.{IsUnwritten, Writes};
ghost use Rattle.answers.specs.Sold.{HasSold};
ghost use Rattle.answers.specs.Verified.{WritesTrueReport};
ghost use Rattle.answers.specs.VerifiedForms.{WritesVerifiedWithForms};
ghost use Rattle.answers.specs.inside.Forms.{held_as};
ghost use Rattle.answers.specs.inside.Proved.{IsUnproved, outcome_held, proved_text};
ghost use Rattle.auction_terms.specs.Groups.{starts_empty};
ghost use Rattle.byte_sinks.specs.Sinks.{Sends};
ghost use Rattle.answers.specs.VerifiedInputs.{WritesTrueReportOn};
ghost use Rattle.answers.specs.Output.{IsWithoutOutput};

use crate::certified::check_certificates;
use crate::claimed::claim_of;
use crate::commands::answer_auction;
use crate::commands::forms::add_forms;
use crate::pricing::pricing_of;
use crate::report_run::{check_counts, won_by_groups};
use auction_input::{Auction, FormParts, Input, Refusal, Request, read_auction, read_last_forms};
use byte_sinks::{Format, Sink, WriteFault, Writer};
use group_compiler::Compiler;
use outcome::{Allocation, OtherAwards, Pricing, add_report_with, report_with};
use std::alloc::Global;
use std::sync::Wait;
use std::thread::Threads;

/// Writes what the solutions of all groups win, and the groups' opportunity costs, where certificates show that nobody
/// wins more without its group; after it, if there are prices, what the winners pay; and what is
/// known of other awards of the same total.
pub fn verify<R: Threads + Wait + Sync + AllocGlobal, S: Sink>(
    rt: &R,
    input: &Input,
    workers: usize,
    out: &mut S,
) -> Result<(), Refusal>
    requires some { 1 ≤ workers }
    requires few { workers ≤ MOST_WORKERS }
    ensures written { OnOk result (Writes (answer (Request.Verify workers) input.now)
        (S.state out.old) (S.state out.new)) }
    ensures sold { OnOk result (HasSold (Request.Verify workers) input.now) }
    ensures true_report { OnOk result (WritesTrueReportOn workers input.now (S.state out.old).taken
        (S.state out.new).taken) }
    ensures refused { IfErr result (IsUnwritten (Request.Verify workers) input.now
        (S.state out.old) (S.state out.new)) }
{
    answer_auction(rt, &Request::Verify { workers }, input, out)
}

// What texts of solutions, certificates, claims and prices show of an auction.
#[derive(Drop)]
pub(crate) struct Proved {
    pub won: Vec<Allocation>,
    pub others: OtherAwards,
    pub pricing: Option<Pricing>,
}

// What the texts of an auction show, if they do.
pub(crate) fn proved_of<R: Threads + Sync + AllocGlobal>(
    rt: &R,
    auction: &Auction<'_>,
    workers: usize,
) -> Result<Proved, Refusal>
    requires some { 1 ≤ workers }
    requires few { workers ≤ MOST_WORKERS }
    ensures shown { IfOk result (λ proved. shown_outcome (held auction.now)
        ≡ Ok (outcome_held proved)) }
    ensures count { IfOk result (λ proved. length auction.now.groups ≡ length proved.won.items) }
    ensures first { IfOk result (λ _. starts_empty auction.now.groups ≡ true) }
    ensures refused { IfErr result (IsUnproved (held auction.now)) }
{
    check_counts(auction)?;
    let alloc: Global = rt.alloc();
    let compiler = Compiler::new(rt, alloc, &auction.book, &auction.groups)?;
    let won = won_by_groups(rt, auction, &compiler, workers)?;
    let allocations = won.as_slice();
    check_certificates(rt, alloc, auction, &compiler, allocations)?;
    auction.book.within_limits();
    let others = claim_of(alloc, auction, &compiler, allocations)?;
    let pricing = pricing_of(alloc, auction, &compiler, allocations)?;
    Ok(Proved {
        won,
        others,
        pricing,
    })
}

/// Writes what the solutions of an auction win, and the groups' opportunity costs, where certificates show that nobody wins more
/// without its group; after it, if there are prices, what the winners pay; and what is known of other awards. What is written is
/// true of the auction, whatever texts of solutions, certificates, ties and prices it came with. It waits for nothing but its own workers.
pub fn write_verified<R: Threads + Sync + AllocGlobal, S: Sink>(
    rt: &R,
    auction: &Auction<'_>,
    workers: usize,
    out: &mut S,
) -> Result<(), Refusal>
    requires some { 1 ≤ workers }
    requires few { workers ≤ MOST_WORKERS }
    ensures written { OnOk result (Writes (output_of (Request.Verify workers) (held auction.now))
        (S.state out.old) (S.state out.new)) }
    ensures true_report { OnOk result (WritesTrueReport (held auction.now) (S.state out.old).taken
        (S.state out.new).taken) }
    ensures refused { IfErr result (IsWithoutOutput (Request.Verify workers) (held auction.now)
        (S.state out.old) (S.state out.new)) }
{
    auction.book.within_limits();
    let proved = proved_of(rt, auction, workers)?;
    report_with(
        &auction.book,
        &auction.groups,
        proved.won.as_slice(),
        &proved.pricing,
        &proved.others,
        out,
    )?;
    Ok(())
}

// Writes the lines of forms, and after them what is proved of an auction.
fn write_after_forms<S: Sink>(
    parts: &FormParts<'_>,
    auction: &Auction<'_>,
    proved: &Proved,
    out: &mut S,
) -> Result<(), WriteFault>
    requires count { length auction.now.groups ≡ length proved.now.won.items }
    requires first { starts_empty auction.now.groups ≡ true }
    ensures { Sends (S.state out.old) (S.state out.new) result
        (held_as format.Words parts.now ++ proved_text auction.now proved.now) }
{
    let mut writer = Writer::new(out);
    add_forms(&mut writer, Format::Words, parts);
    add_report_with(
        &mut writer,
        &auction.book,
        &auction.groups,
        proved.won.as_slice(),
        &proved.pricing,
        &proved.others,
    );
    writer.flush()
}

/// Writes the lines that `forms` writes of an input, and after them what `verify` does: so one output says of which rules and
/// forms an award is. Nothing is written of an input that `verify` refuses.
pub fn verify_with_forms<R: Threads + Wait + Sync + AllocGlobal, S: Sink>(
    rt: &R,
    input: &Input,
    workers: usize,
    out: &mut S,
) -> Result<(), Refusal>
    requires some { 1 ≤ workers }
    requires few { workers ≤ MOST_WORKERS }
    ensures written { OnOk result (Writes (answer (Request.VerifyWithForms workers) input.now)
        (S.state out.old) (S.state out.new)) }
    ensures sold { OnOk result (HasSold (Request.VerifyWithForms workers) input.now) }
    ensures verified { OnOk result (WritesVerifiedWithForms workers input.now (S.state out.old).taken
        (S.state out.new).taken) }
    ensures refused { IfErr result (IsUnwritten (Request.VerifyWithForms workers) input.now
        (S.state out.old) (S.state out.new)) }
{
    let auction = read_auction(rt, &Request::Verify { workers }, input)?;
    let proved = proved_of(rt, &auction, workers)?;
    let parts = read_last_forms(rt, rt.alloc(), input)?;
    write_after_forms(&parts, &auction, &proved, out)?;
    Ok(())
}
