//! The lines of faults.

ghost use Rattle.std.specs.Prelude.{◌≡◌, ◌++◌, ◌∷◌, [], IfOk, OnOk, flat_map};
ghost use Rattle.auction_terms.specs.Judged.{kept_fault};
ghost use Rattle.byte_sinks.specs.Adds.{Adds};
ghost use Rattle.byte_sinks.specs.Sinks.{Sends};
ghost use Rattle.byte_sinks.specs.declared.json.Format.TheVariants as format;
ghost use Rattle.input_faults.specs.FaultLines.{count_line, fault_line, more_line};
ghost use Rattle.input_faults.specs.inside.HeldLines.{held_lines, kept_line};

use crate::detail::add_detail;
use crate::fault::Fault;
use crate::objects::add_object;
use crate::placed::add_message;
use crate::wording::add_wording;
use auction_input::{NamedText, Places};
use auction_terms::{All, FaultAt, Wording};
use byte_sinks::{Format, MemorySink, Sink, WriteFault, Writer, add_number_member};
use std::alloc::{AllocError, Global};

// Adds the line of a fault, in words.
fn add_words<S: Sink>(writer: &mut Writer<'_, S>, places: &Places<'_>, at: &FaultAt<Fault>)
    ensures { Adds S.state writer.old writer.new
        (fault_line format.Words places.now (kept_fault at.now)) }
{
    let refusal = at.fault.refusal();
    add_message(writer, places.texts(), places.spot_of(&refusal), &refusal);
    add_detail(writer, at);
    writer.add(b"\n");
}

// Adds the line of a fault.
fn add_line<S: Sink>(
    alloc: Global,
    writer: &mut Writer<'_, S>,
    places: &Places<'_>,
    format: Format,
    at: &FaultAt<Fault>,
) -> Result<(), AllocError>
    ensures { OnOk result (Adds S.state writer.old writer.new
        (kept_line format places.now at.now)) }
{
    match format {
        Format::Words => {
            add_words(writer, places, at);
            Ok(())
        }
        Format::Json => add_object(alloc, writer, places, at),
    }
}

// Adds the lines of faults.
fn add_lines<S: Sink>(
    alloc: Global,
    writer: &mut Writer<'_, S>,
    places: &Places<'_>,
    format: Format,
    faults: &[FaultAt<Fault>],
) -> Result<(), AllocError>
    ensures { OnOk result (Adds S.state writer.old writer.new
        (flat_map (kept_line format places.now) faults.now)) }
{
    for at in faults {
        add_line(alloc, writer, places, format, at)?;
    }
    Ok(())
}

// Adds that there are so many more faults.
fn add_count<S: Sink>(writer: &mut Writer<'_, S>, format: Format, more: u64)
    ensures { Adds S.state writer.old writer.new (count_line format more) }
{
    match format {
        Format::Words => add_wording(writer, Wording::Between("and ", more, " more\n")),
        Format::Json => {
            add_number_member(writer, b"{", b"more", more);
            writer.add(b"}\n");
        }
    }
}

// Adds the line that counts the faults that have none.
fn add_more<S: Sink>(writer: &mut Writer<'_, S>, format: Format, more: u64)
    ensures { Adds S.state writer.old writer.new (more_line format more) }
{
    if more == 0 {
        writer.add(b"");
    } else {
        add_count(writer, format, more);
    }
}

// The lines of faults, where it is known how many parts each text has.
#[inline(never)]
fn lines_at(
    alloc: Global,
    places: &Places<'_>,
    format: Format,
    faults: &All<Fault>,
) -> Result<Vec<u8>, AllocError>
    ensures { IfOk result (λ lines. lines.items ≡ held_lines format places.now faults.now) }
{
    let mut sink = MemorySink::new(alloc);
    let mut writer = Writer::new(&mut sink);
    add_lines(alloc, &mut writer, places, format, faults.kept.as_slice())?;
    add_more(&mut writer, format, faults.more);
    match writer.flush() {
        Ok(()) => Ok(sink.into_bytes()),
        Err(WriteFault::Sink { .. }) => Err(AllocError),
    }
}

/// The lines of the faults of these texts, and how many more there are. All memory is taken here, before the first line is put.
pub fn lines_of(
    alloc: Global,
    texts: &[NamedText],
    format: Format,
    faults: &All<Fault>,
) -> Result<Vec<u8>, AllocError>
    ensures { IfOk result (λ lines. lines.items ≡ held_lines format texts.now faults.now) }
{
    let places = Places::of_texts(alloc, texts)?;
    lines_at(alloc, &places, format, faults)
}

/// Puts lines. It takes no memory.
pub fn put_lines<S: Sink>(lines: &[u8], out: &mut S) -> Result<(), WriteFault>
    ensures { Sends (S.state out.old) (S.state out.new) result lines.now }
{
    let mut writer = Writer::new(out);
    writer.add(lines);
    writer.flush()
}
