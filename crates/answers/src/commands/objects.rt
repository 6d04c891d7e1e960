//! What `forms`, `report` and `verify` say, as objects of JSON.

ghost use Rattle.std.specs.Prelude.{◌≡◌, ◌++◌, ◌≤◌, IfErr, OnOk, length, true};
ghost use Rattle.answers.specs.Answer.{answer};
ghost use Rattle.answers.specs.Exact.{IsUnwritten, Writes};
ghost use Rattle.answers.specs.Sold.{HasSold};
ghost use Rattle.answers.specs.VerifiedObjects.{WritesTrueObjectsOn};
ghost use Rattle.answers.specs.inside.Forms.{held_as};
ghost use Rattle.answers.specs.inside.Proved.{outcome_held};
ghost use Rattle.auction_input.specs.Requests.{IsRequestWithinLimits};
ghost use Rattle.auction_terms.specs.Groups.{starts_empty};
ghost use Rattle.auction_terms.specs.declared.limits.TheConstants.{MOST_WORKERS};
ghost use Rattle.award_objects.specs.Objects.{objects_shown, objects_unshown};
ghost use Rattle.bid_desk.specs.Sale.{sale_of};
ghost use Rattle.byte_sinks.specs.Sinks.{Sends};
ghost use Rattle.byte_sinks.specs.declared.json.Format.TheVariants as format;

use crate::commands::forms::{add_forms, write_forms};
use crate::commands::verify::{Proved, proved_of};
use crate::report_run::{check_counts, won_by_groups};
use auction_input::{
    Auction, FormParts, Input, Objects, Refusal, Request, read_auction, read_last_forms,
};
use award_objects::{Outcome, add_shown, add_unshown};
use byte_sinks::{Format, Sink, WriteFault, Writer};
use group_compiler::Compiler;
use outcome::Allocation;
use std::alloc::Global;
use std::sync::Wait;
use std::thread::Threads;

/// Writes what is asked for of an input, as objects of JSON.
pub(crate) fn write_objects<R: Threads + Wait + Sync + AllocGlobal, S: Sink>(
    rt: &R,
    objects: Objects,
    input: &Input,
    out: &mut S,
) -> Result<(), Refusal>
    requires limits { IsRequestWithinLimits (Request.Objects objects) }
    ensures written { OnOk result (Writes (answer (Request.Objects objects) input.now)
        (S.state out.old) (S.state out.new)) }
    ensures sold { OnOk result (HasSold (Request.Objects objects) input.now) }
    ensures refused { IfErr result (IsUnwritten (Request.Objects objects) input.now
        (S.state out.old) (S.state out.new)) }
{
    match objects {
        Objects::Forms => write_forms(rt, Format::Json, input, out),
        Objects::Report { workers } => report_as_objects(rt, input, workers, out),
        Objects::Verify { workers } => verify_as_objects(rt, input, workers, out),
    }
}

// Writes the objects of forms, and after them those of what is proved of an auction.
fn write_shown<S: Sink>(
    parts: &FormParts<'_>,
    auction: &Auction<'_>,
    proved: &Proved,
    out: &mut S,
) -> Result<(), WriteFault>
    requires count { length auction.now.groups ≡ length proved.now.won.items }
    requires first { starts_empty auction.now.groups ≡ true }
    ensures { Sends (S.state out.old) (S.state out.new) result
        (held_as format.Json parts.now ++ objects_shown auction.now.book.rules
        (sale_of auction.now.book) auction.now.groups (outcome_held proved.now)) }
{
    let mut writer = Writer::new(out);
    add_forms(&mut writer, Format::Json, parts);
    let outcome = Outcome {
        book: &auction.book,
        groups: &auction.groups,
        won: proved.won.as_slice(),
        pricing: &proved.pricing,
        others: &proved.others,
    };
    add_shown(&mut writer, &outcome);
    writer.flush()
}

/// Writes the objects that `forms` has of an input, and after them those of what `verify` finds: so one output says of which rules and
/// forms an award is. Nothing is written of an input that `verify` refuses.
pub fn verify_as_objects<R: Threads + Wait + Sync + AllocGlobal, S: Sink>(
    rt: &R,
    input: &Input,
    workers: usize,
    out: &mut S,
) -> Result<(), Refusal>
    requires some { 1 ≤ workers }
    requires few { workers ≤ MOST_WORKERS }
    ensures written { OnOk result (Writes (answer (Request.Objects (Objects.Verify workers)) input.now)
        (S.state out.old) (S.state out.new)) }
    ensures sold { OnOk result (HasSold (Request.Objects (Objects.Verify workers)) input.now) }
    ensures true_objects { OnOk result (WritesTrueObjectsOn workers input.now (S.state out.old).taken
        (S.state out.new).taken) }
    ensures refused { IfErr result (IsUnwritten (Request.Objects (Objects.Verify workers)) input.now
        (S.state out.old) (S.state out.new)) }
{
    let auction = read_auction(rt, &Request::Verify { workers }, input)?;
    let proved = proved_of(rt, &auction, workers)?;
    let parts = read_last_forms(rt, rt.alloc(), input)?;
    write_shown(&parts, &auction, &proved, out)?;
    Ok(())
}

// Writes the objects of forms, and after them those of what the solutions of an auction win.
fn write_unshown<S: Sink>(
    alloc: Global,
    parts: &FormParts<'_>,
    auction: &Auction<'_>,
    won: &[Allocation],
    out: &mut S,
) -> Result<(), WriteFault>
    requires count { length auction.now.groups ≡ length won.now }
    requires first { starts_empty auction.now.groups ≡ true }
    ensures { Sends (S.state out.old) (S.state out.new) result
        (held_as format.Json parts.now ++ objects_unshown auction.now.book.rules
        (sale_of auction.now.book) auction.now.groups won.now) }
{
    let mut writer = Writer::new(out);
    add_forms(&mut writer, Format::Json, parts);
    add_unshown(alloc, &mut writer, &auction.book, &auction.groups, won);
    writer.flush()
}

/// Writes the objects that `forms` has of an input, and after them those of what the solutions of all groups win, of which nothing is
/// proved but that it is feasible. Nothing is written of an input that `report` refuses.
pub fn report_as_objects<R: Threads + Wait + Sync + AllocGlobal, S: Sink>(
    rt: &R,
    input: &Input,
    workers: usize,
    out: &mut S,
) -> Result<(), Refusal>
    requires some { 1 ≤ workers }
    requires few { workers ≤ MOST_WORKERS }
    ensures written { OnOk result (Writes (answer (Request.Objects (Objects.Report workers)) input.now)
        (S.state out.old) (S.state out.new)) }
    ensures sold { OnOk result (HasSold (Request.Objects (Objects.Report workers)) input.now) }
    ensures refused { IfErr result (IsUnwritten (Request.Objects (Objects.Report workers)) input.now
        (S.state out.old) (S.state out.new)) }
{
    let auction = read_auction(rt, &Request::Report { workers }, input)?;
    check_counts(&auction)?;
    let compiler = Compiler::new(rt, rt.alloc(), &auction.book, &auction.groups)?;
    let won = won_by_groups(rt, &auction, &compiler, workers)?;
    let parts = read_last_forms(rt, rt.alloc(), input)?;
    write_unshown(rt.alloc(), &parts, &auction, won.as_slice(), out)?;
    Ok(())
}
