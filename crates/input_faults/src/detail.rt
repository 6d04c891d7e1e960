//! What is at a fault, and what is wrong with it.

ghost use Rattle.std.specs.Prelude.{◌≡◌};
ghost use Rattle.auction_terms.specs.Judged.{cause_text, kept_fault};
ghost use Rattle.byte_sinks.specs.Adds.{Adds};
ghost use Rattle.input_faults.specs.Details.{beginning_message, cause_message, detail, detail_by, place_message, uncut_detail};

use crate::fault::Fault;
use crate::shown::add_shown;
use crate::wording::add_wording;
use auction_input::PartFault;
use auction_terms::{Cause, FaultAt, Wording};
use byte_sinks::{Sink, Writer};

/// Adds what is wrong, in words.
pub fn add_cause<S: Sink>(writer: &mut Writer<'_, S>, cause: &Cause)
    ensures { Adds S.state writer.old writer.new (cause_text cause.now) }
{
    match cause {
        Cause::Words(words) => add_wording(writer, *words),
        Cause::Both(words, more) => {
            add_wording(writer, *words);
            add_wording(writer, *more);
        }
        Cause::Wanted(words, name) => {
            writer.add(words.as_bytes());
            writer.add(name.as_slice());
        }
    }
}

// Adds words and the number of a field or name, what is there, and what is wrong with it.
fn add_place<S: Sink>(
    writer: &mut Writer<'_, S>,
    words: &'static str,
    number: usize,
    text: &[u8],
    cause: &Cause,
)
    ensures { Adds S.state writer.old writer.new
        (place_message words.now number text.now (cause_text cause.now)) }
{
    add_wording(writer, Wording::Between(words, number as u64, ": "));
    add_shown(writer, text);
    writer.add(b" ");
    add_cause(writer, cause);
}

// Adds what is wrong at a field or name, or with the whole record or line.
fn add_at<S: Sink>(
    writer: &mut Writer<'_, S>,
    words: &'static str,
    at: &FaultAt<Fault>,
    cause: &Cause,
)
    ensures { Adds S.state writer.old writer.new
        (cause_message words.now at.now.field at.now.text (cause_text cause.now)) }
{
    if at.field == 0 {
        writer.add(b": ");
        add_cause(writer, cause);
    } else {
        add_place(writer, words, at.field, at.text.as_slice(), cause);
    }
}

// Adds the first line of a text, which heads no part, and what is wrong with it.
fn add_beginning<S: Sink>(writer: &mut Writer<'_, S>, line: &[u8], cause: &Cause)
    ensures { Adds S.state writer.old writer.new (beginning_message line.now (cause_text cause.now)) }
{
    writer.add(b": the text begins with ");
    add_shown(writer, line);
    writer.add(b" and ");
    add_cause(writer, cause);
}

// Adds what is wrong with an input that isn't cut into parts, where its refusal doesn't say it.
fn add_uncut<S: Sink>(writer: &mut Writer<'_, S>, line: &[u8], fault: PartFault, cause: &Cause)
    ensures { Adds S.state writer.old writer.new (uncut_detail line.now fault (cause_text cause.now)) }
{
    match fault {
        PartFault::BeforeFirst => add_beginning(writer, line, cause),
        PartFault::PartName { part: _ }
        | PartFault::OfVersion1 { part: _ }
        | PartFault::OutOfMemory => writer.add(b""),
    }
}

// Adds what is wrong, in words that suit the fault.
fn add_detail_by<S: Sink>(writer: &mut Writer<'_, S>, at: &FaultAt<Fault>, cause: &Cause)
    ensures { Adds S.state writer.old writer.new
        (detail_by (kept_fault at.now) at.now.fault (cause_text cause.now)) }
{
    match at.fault {
        Fault::Parts(fault) => add_uncut(writer, at.text.as_slice(), fault, cause),
        Fault::Groups(_) => add_at(writer, ", name ", at, cause),
        Fault::PartCount(_)
        | Fault::Rules(_)
        | Fault::Form { .. }
        | Fault::AnotherForm(_)
        | Fault::CallLimit { .. }
        | Fault::Unmet(_) => add_at(writer, ", field ", at, cause),
    }
}

/// Adds the detail of a fault.
pub fn add_detail<S: Sink>(writer: &mut Writer<'_, S>, at: &FaultAt<Fault>)
    ensures { Adds S.state writer.old writer.new (detail (kept_fault at.now)) }
{
    match &at.cause {
        Some(cause) => add_detail_by(writer, at, cause),
        None => writer.add(b""),
    }
}
