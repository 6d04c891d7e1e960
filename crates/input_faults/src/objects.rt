//! The object of JSON that tells a fault.

ghost use Rattle.std.specs.Prelude.{◌≡◌, ◌++◌, IfOk, OnOk, codes, flat_map, option_map, take};
ghost use Rattle.auction_input.specs.Line.{wrong_number};
ghost use Rattle.auction_terms.specs.Judged.{cause_text, kept_fault};
ghost use Rattle.auction_terms.specs.Wording.{code_seen};
ghost use Rattle.byte_sinks.specs.Adds.{Adds};
ghost use Rattle.input_faults.specs.FaultObjects.{cause_member, code_members, cut_member, fault_object, field_members, file_member, form_fault_members, found_members, named_members, number_in_file, next_number_if, next_number, other_members, part_members, part_number, part_of, place_members, next_text, uncut_name};
ghost use Rattle.input_faults.specs.FileNames.{shown_name};
ghost use Rattle.input_faults.specs.Shown.{shown_byte};
ghost use Rattle.input_faults.specs.declared.fault.Fault.TheVariants as whole;

use crate::detail::add_cause;
use crate::fault::Fault;
use crate::placed::{add_file_name, file_name};
use crate::shown::{add_shown_bytes, front};
use auction_input::{
    AnotherForm, BEFORE_FIRST, NamedText, PartFault, PartKind, Places, Spot, Unmet,
};
use auction_terms::{Cause, Code, FaultAt};
use bid_forms::FormFault;
use byte_sinks::{MemorySink, Sink, WriteFault, Writer, add_number_member, add_text_member};
use std::alloc::{AllocError, Global};

// The name of a file, as it is shown.
fn name_shown(alloc: Global, name: &[u8]) -> Result<Vec<u8>, AllocError>
    ensures { IfOk result (λ bytes. bytes.items ≡ shown_name name.now) }
{
    let mut sink = MemorySink::new(alloc);
    let mut writer = Writer::new(&mut sink);
    add_file_name(&mut writer, name);
    match writer.flush() {
        Ok(()) => Ok(sink.into_bytes()),
        Err(WriteFault::Sink { .. }) => Err(AllocError),
    }
}

// The first 40 bytes of a text, as they are shown.
fn front_shown(alloc: Global, text: &[u8]) -> Result<Vec<u8>, AllocError>
    ensures { IfOk result (λ bytes. bytes.items ≡ flat_map shown_byte (take 40 text.now)) }
{
    let mut sink = MemorySink::new(alloc);
    let mut writer = Writer::new(&mut sink);
    add_shown_bytes(&mut writer, front(text));
    match writer.flush() {
        Ok(()) => Ok(sink.into_bytes()),
        Err(WriteFault::Sink { .. }) => Err(AllocError),
    }
}

// What is wrong, in words.
fn cause_words(alloc: Global, cause: &Cause) -> Result<Vec<u8>, AllocError>
    ensures { IfOk result (λ bytes. bytes.items ≡ cause_text cause.now) }
{
    let mut sink = MemorySink::new(alloc);
    let mut writer = Writer::new(&mut sink);
    add_cause(&mut writer, cause);
    match writer.flush() {
        Ok(()) => Ok(sink.into_bytes()),
        Err(WriteFault::Sink { .. }) => Err(AllocError),
    }
}

// Adds a member after others, whose value is a string.
fn add_text<S: Sink>(writer: &mut Writer<'_, S>, name: &[u8], text: &[u8])
    ensures { Adds S.state writer.old writer.new (next_text name.now text.now) }
{
    add_text_member(writer, b", ", name, text);
}

// Adds a member after others, whose value is a number.
fn add_number<S: Sink>(writer: &mut Writer<'_, S>, name: &[u8], number: u64)
    ensures { Adds S.state writer.old writer.new (next_number name.now number) }
{
    add_number_member(writer, b", ", name, number);
}

// Adds a member after others, whose value is a number, if it has one.
fn add_number_if<S: Sink>(writer: &mut Writer<'_, S>, name: &[u8], number: Option<u32>)
    ensures { Adds S.state writer.old writer.new (next_number_if name.now number) }
{
    match number {
        Some(number) => add_number(writer, name, number as u64),
        None => writer.add(b""),
    }
}

// Adds the first member: the name of the file that a fault is in, or null.
fn add_file<S: Sink>(
    alloc: Global,
    writer: &mut Writer<'_, S>,
    texts: &[NamedText],
    spot: Option<Spot>,
) -> Result<(), AllocError>
    ensures { OnOk result (Adds S.state writer.old writer.new (file_member texts.now spot)) }
{
    match spot {
        Some(spot) => {
            let name = name_shown(alloc, file_name(texts, spot.text))?;
            add_text_member(writer, b"{", b"file", name.as_slice());
        }
        None => writer.add(b"{\"file\": null"),
    }
    Ok(())
}

// The number of a part among those of its file, where it has a spot in one.
fn number_in_file(spot: Option<Spot>, number: usize) -> usize
    ensures { result ≡ number_in_file spot number }
{
    match spot {
        Some(spot) => spot.number,
        None => number,
    }
}

// The part that a fault is of.
fn part_of(fault: &Fault) -> &'static str
    ensures { result.now ≡ part_of fault.now }
{
    match *fault {
        Fault::Rules(_) => "rules",
        Fault::Form { .. } | Fault::AnotherForm(_) | Fault::CallLimit { .. } => "form",
        Fault::Groups(_) | Fault::Unmet(Unmet::FirstGroupNotEmpty) => "groups",
        Fault::Parts(_) | Fault::PartCount(_) | Fault::Unmet(Unmet::Number { .. }) => "input",
    }
}

// The number of the form, or of the part that isn't known, among those of all files.
fn part_number(fault: &Fault) -> Option<usize>
    ensures { result ≡ part_number fault.now }
{
    match *fault {
        Fault::Parts(PartFault::PartName { part } | PartFault::OfVersion1 { part }) => Some(part),
        Fault::Form { form, .. } | Fault::CallLimit { form } => Some(form),
        Fault::AnotherForm(another) => Some(another.form),
        Fault::Parts(PartFault::BeforeFirst | PartFault::OutOfMemory)
        | Fault::PartCount(_)
        | Fault::Rules(_)
        | Fault::Groups(_)
        | Fault::Unmet(_) => None,
    }
}

// Adds the number of a part, if it has one.
fn add_part_number<S: Sink>(writer: &mut Writer<'_, S>, spot: Option<Spot>, number: Option<usize>)
    ensures { Adds S.state writer.old writer.new
        (next_number_if (codes "number") (option_map (number_in_file spot) number)) }
{
    match number {
        Some(number) => add_number(writer, b"number", number_in_file(spot, number) as u64),
        None => writer.add(b""),
    }
}

// Adds the part that a fault is of, with its number, if it has one.
fn add_part<S: Sink>(writer: &mut Writer<'_, S>, spot: Option<Spot>, fault: Fault)
    ensures { Adds S.state writer.old writer.new (part_members spot fault) }
{
    add_text(writer, b"part", part_of(&fault).as_bytes());
    add_part_number(writer, spot, part_number(&fault));
}

// Adds the name of a fault, and its number.
fn add_code<S: Sink>(writer: &mut Writer<'_, S>, code: Option<Code>)
    ensures { Adds S.state writer.old writer.new (code_members (option_map code_seen code)) }
{
    match code {
        Some(code) => {
            add_text(writer, b"fault", code.name.as_bytes());
            add_number(writer, b"code", code.number);
        }
        None => add_text(writer, b"fault", b"out of memory"),
    }
}

// The name of the fault of an input that isn't cut into parts.
fn uncut_name(fault: PartFault) -> &'static str
    ensures { result.now ≡ uncut_name fault }
{
    match fault {
        PartFault::BeforeFirst => BEFORE_FIRST,
        PartFault::PartName { part: _ } | PartFault::OfVersion1 { part: _ } => "part not known",
        PartFault::OutOfMemory => "out of memory",
    }
}

// Adds the name of the fault of an input that isn't cut into parts.
fn add_uncut<S: Sink>(writer: &mut Writer<'_, S>, fault: PartFault)
    ensures { Adds S.state writer.old writer.new (next_text (codes "fault") (uncut_name fault)) }
{
    add_text(writer, b"fault", uncut_name(fault).as_bytes());
}

// Adds that there are too few or too many parts of a kind.
fn add_wrong_number<S: Sink>(writer: &mut Writer<'_, S>, kind: PartKind)
    ensures { Adds S.state writer.old writer.new (next_text (codes "fault") (wrong_number kind)) }
{
    add_text(writer, b"fault", kind.wrong_number().as_bytes());
}

// Adds the name of a fault, and its number, and the number of the record or line.
fn add_coded<S: Sink>(
    writer: &mut Writer<'_, S>,
    code: Option<Code>,
    name: &[u8],
    place: Option<u32>,
)
    ensures { Adds S.state writer.old writer.new
        (code_members (option_map code_seen code) ++ next_number_if name.now place) }
{
    add_code(writer, code);
    add_number_if(writer, name, place);
}

// Adds the name of the fault of a form, its number, the record, and an earlier bid.
fn add_form_fault<S: Sink>(writer: &mut Writer<'_, S>, fault: FormFault)
    ensures { Adds S.state writer.old writer.new (form_fault_members fault) }
{
    add_coded(writer, fault.code(), b"record", fault.place());
    add_number_if(writer, b"earlier_bid", fault.earlier());
}

// Adds the name of a fault, its number, if it has one, the record or line, and an earlier bid.
fn add_named<S: Sink>(writer: &mut Writer<'_, S>, fault: Fault)
    ensures { Adds S.state writer.old writer.new (named_members fault) }
{
    match fault {
        Fault::Parts(fault) => add_uncut(writer, fault),
        Fault::PartCount(kind) => add_wrong_number(writer, kind),
        Fault::Rules(fault) => add_coded(writer, fault.code(), b"record", fault.place()),
        Fault::Form { form: _, fault } => add_form_fault(writer, fault),
        Fault::AnotherForm(_) => add_text(writer, b"fault", b"another form"),
        Fault::Groups(fault) => add_coded(writer, fault.code(), b"line", fault.place()),
        Fault::CallLimit { .. } => add_text(writer, b"fault", b"CallLimit"),
        Fault::Unmet(Unmet::FirstGroupNotEmpty) => {
            add_text(writer, b"fault", b"group 1 is not empty");
        }
        Fault::Unmet(Unmet::Number { kind, .. }) => add_wrong_number(writer, kind),
    }
}

// Adds whose form is in which other file.
fn add_another<S: Sink>(
    alloc: Global,
    writer: &mut Writer<'_, S>,
    texts: &[NamedText],
    another: &AnotherForm,
) -> Result<(), AllocError>
    ensures { OnOk result (Adds S.state writer.old writer.new
        (other_members texts.now (whole.AnotherForm another.now))) }
{
    let other = name_shown(alloc, file_name(texts, another.first_text))?;
    add_text(writer, b"bidder", another.bidder.as_slice());
    add_text(writer, b"other_file", other.as_slice());
    Ok(())
}

// Adds whose form is in which other file, where a fault is about that.
fn add_other<S: Sink>(
    alloc: Global,
    writer: &mut Writer<'_, S>,
    texts: &[NamedText],
    fault: &Fault,
) -> Result<(), AllocError>
    ensures { OnOk result (Adds S.state writer.old writer.new (other_members texts.now fault.now)) }
{
    match fault {
        Fault::AnotherForm(another) => add_another(alloc, writer, texts, another),
        Fault::Parts(_)
        | Fault::PartCount(_)
        | Fault::Rules(_)
        | Fault::Form { .. }
        | Fault::Groups(_)
        | Fault::CallLimit { .. }
        | Fault::Unmet(_) => {
            writer.add(b"");
            Ok(())
        }
    }
}

// Adds whether there are more than 40 bytes.
fn add_cut<S: Sink>(writer: &mut Writer<'_, S>, text: &[u8])
    ensures { Adds S.state writer.old writer.new (cut_member text.now) }
{
    if text.len() > 40 {
        writer.add(b", \"cut\": true");
    } else {
        writer.add(b"");
    }
}

// Adds what is found: the first 40 bytes, and whether there are more.
fn add_found<S: Sink>(
    alloc: Global,
    writer: &mut Writer<'_, S>,
    text: &[u8],
) -> Result<(), AllocError>
    ensures { OnOk result (Adds S.state writer.old writer.new (found_members text.now)) }
{
    let shown = front_shown(alloc, text)?;
    add_text(writer, b"found", shown.as_slice());
    add_cut(writer, text);
    Ok(())
}

// Adds the number of a field or name, and what is there.
fn add_numbered<S: Sink>(
    alloc: Global,
    writer: &mut Writer<'_, S>,
    name: &[u8],
    at: &FaultAt<Fault>,
) -> Result<(), AllocError>
    ensures { OnOk result (Adds S.state writer.old writer.new
        (next_number name.now at.now.field ++ found_members at.now.text)) }
{
    add_number(writer, name, at.field as u64);
    add_found(alloc, writer, at.text.as_slice())?;
    Ok(())
}

// Adds the number of a field or name, and what is there, if a fault has a field or name.
fn add_field<S: Sink>(
    alloc: Global,
    writer: &mut Writer<'_, S>,
    name: &[u8],
    at: &FaultAt<Fault>,
) -> Result<(), AllocError>
    ensures { OnOk result (Adds S.state writer.old writer.new
        (field_members name.now at.now.field at.now.text)) }
{
    if at.field == 0 {
        writer.add(b"");
        return Ok(());
    }
    add_numbered(alloc, writer, name, at)
}

// Adds what a fault is about: the first line of a text, or what is at a field or name.
fn add_place<S: Sink>(
    alloc: Global,
    writer: &mut Writer<'_, S>,
    at: &FaultAt<Fault>,
) -> Result<(), AllocError>
    ensures { OnOk result (Adds S.state writer.old writer.new
        (place_members (kept_fault at.now) at.now.fault)) }
{
    match at.fault {
        Fault::Parts(PartFault::BeforeFirst) => add_found(alloc, writer, at.text.as_slice()),
        Fault::Parts(
            PartFault::PartName { .. } | PartFault::OfVersion1 { .. } | PartFault::OutOfMemory,
        ) => {
            writer.add(b"");
            Ok(())
        }
        Fault::Groups(_) => add_field(alloc, writer, b"name", at),
        Fault::PartCount(_)
        | Fault::Rules(_)
        | Fault::Form { .. }
        | Fault::AnotherForm(_)
        | Fault::CallLimit { .. }
        | Fault::Unmet(_) => add_field(alloc, writer, b"field", at),
    }
}

// Adds what is wrong, if there are words for it.
fn add_cause_member<S: Sink>(
    alloc: Global,
    writer: &mut Writer<'_, S>,
    at: &FaultAt<Fault>,
) -> Result<(), AllocError>
    ensures { OnOk result (Adds S.state writer.old writer.new
        (cause_member (option_map cause_text at.now.cause))) }
{
    match &at.cause {
        Some(cause) => {
            let words = cause_words(alloc, cause)?;
            add_text(writer, b"cause", words.as_slice());
        }
        None => writer.add(b""),
    }
    Ok(())
}

/// Adds the object of a fault, on a line of its own.
pub fn add_object<S: Sink>(
    alloc: Global,
    writer: &mut Writer<'_, S>,
    places: &Places<'_>,
    at: &FaultAt<Fault>,
) -> Result<(), AllocError>
    ensures { OnOk result (Adds S.state writer.old writer.new
        (fault_object places.now (kept_fault at.now))) }
{
    let texts = places.texts();
    let spot = places.spot_of(&at.fault.refusal());
    add_file(alloc, writer, texts, spot)?;
    add_part(writer, spot, at.fault);
    add_named(writer, at.fault);
    add_other(alloc, writer, texts, &at.fault)?;
    add_place(alloc, writer, at)?;
    add_cause_member(alloc, writer, at)?;
    writer.add(b"}\n");
    Ok(())
}
