//! What is written: a text that was asked about before.

ghost use Rattle.std.specs.Prelude.{◌≡◌, ◌≤◌, ◌++◌, IfErr, IfOk, OnOk, flat_map};
ghost use Rattle.auction_terms.specs.declared.limits.TheConstants.{MOST_WORKERS};
ghost use Rattle.auction_input.specs.Input.{input_of, text_bytes};
ghost use Rattle.auction_input.specs.ParsedParts.{only_text};
ghost use Rattle.byte_sinks.specs.Sinks.{Sends};
ghost use Rattle.solving.specs.Audits.{IsLeft, WritesAccepted, given_bytes};

use crate::nowhere::Nowhere;
use answers::{answer, verify, write_pieces};
use auction_input::{INPUT_LIMIT, Input, InputFault, NamedText, Refusal, Request};
use byte_sinks::{Sink, WriteFault};
use std::alloc::{AllocError, Global};
use std::sync::Wait;
use std::thread::Threads;

/// Adds the bytes of texts.
fn add_texts(text: &mut Vec<u8>, texts: &[NamedText]) -> Result<(), AllocError>
    ensures { OnOk result (text.new.items
        ≡ text.old.items ++ flat_map (λ given. given.bytes) texts.now) }
{
    for given in texts {
        text.extend_from_slice(given.bytes())?;
    }
    Ok(())
}

/// What was found, and then the bytes that came in, as one input. It isn't larger than an input may be.
fn input_with(alloc: Global, found: &[u8], given: &Input) -> Result<Input, Refusal>
    ensures { IfOk result (λ input. input ≡ input_of (found.now ++ given_bytes given.now)) }
{
    let mut text = Vec::from_slice(alloc, found)?;
    add_texts(&mut text, given.texts())?;
    if text.len() > INPUT_LIMIT {
        return Err(Refusal::Input(InputFault::TooLarge));
    }
    Ok(Input::of_text(alloc, text)?)
}

/// Writes the text of an input.
fn write_text<S: Sink>(input: &Input, out: &mut S) -> Result<(), WriteFault>
    ensures { Sends (S.state out.old) (S.state out.new) result (only_text (text_bytes input.now)) }
{
    let pieces: [&[u8]; 1] = [input.first_text()];
    write_pieces(&pieces, out)
}

/// Writes what was found and then the bytes that came in, if `verify` accepts that as an input; else nothing.
pub fn write_audit<R: Threads + Wait + Sync + AllocGlobal, S: Sink>(
    rt: &R,
    given: &Input,
    found: &[u8],
    workers: usize,
    out: &mut S,
) -> Result<(), Refusal>
    requires some { 1 ≤ workers }
    requires few { workers ≤ MOST_WORKERS }
    ensures audit { OnOk result (WritesAccepted (Request.Verify workers) given.now
        (S.state out.old) (S.state out.new)) }
    ensures refused { IfErr result (IsLeft (Request.Verify workers) given.now
        (S.state out.old) (S.state out.new)) }
{
    let input = input_with(rt.alloc(), found, given)?;
    verify(rt, &input, workers, &mut Nowhere)?;
    write_text(&input, out)?;
    Ok(())
}

/// Writes solutions that aren't proved and then the bytes that came in, if `report` accepts that as an input; else nothing.
pub fn write_unproved<R: Threads + Wait + Sync + AllocGlobal, S: Sink>(
    rt: &R,
    given: &Input,
    found: &[u8],
    workers: usize,
    out: &mut S,
) -> Result<(), Refusal>
    requires some { 1 ≤ workers }
    requires few { workers ≤ MOST_WORKERS }
    ensures solutions { OnOk result (WritesAccepted (Request.Report workers) given.now
        (S.state out.old) (S.state out.new)) }
    ensures refused { IfErr result (IsLeft (Request.Report workers) given.now
        (S.state out.old) (S.state out.new)) }
{
    let input = input_with(rt.alloc(), found, given)?;
    answer(rt, Request::Report { workers }, &input, &mut Nowhere)?;
    write_text(&input, out)?;
    Ok(())
}
