//! The command `forms`: the digests of the rules and of each bidder's last form, as lines or as objects of JSON.

ghost use Rattle.std.specs.Prelude.{◌≡◌, ◌≤◌, IfErr, OnOk, length};
ghost use Rattle.byte_sinks.specs.Adds.{Adds};
ghost use Rattle.byte_sinks.specs.Sinks.{Sends};
ghost use Rattle.answers.specs.Answer.{answer};
ghost use Rattle.answers.specs.Exact.{IsUnwritten, Writes};
ghost use Rattle.answers.specs.Forms.{digest, rules_line, rules_object};
ghost use Rattle.answers.specs.inside.Forms.{bidders_held, forms_request, held_as, held_in, held_line, held_object, rules_as};
ghost use Rattle.byte_sinks.specs.declared.json.Format.TheVariants as format;
ghost use Rattle.auction_terms.specs.declared.limits.TheConstants.{MOST_BIDDERS};

use auction_input::{FormParts, Input, LastForm, LastForms, Refusal, Request, read_last_forms};
use auction_terms::{Bidder, Rules};
use byte_sinks::{Format, Member, Sink, WriteFault, Writer, add_object};
use hex::encode_to_slice;
use itoa::Buffer;
use sha2::{Digest, Sha256};
use std::alloc::Global;
use std::thread::Threads;

// The digits of a digest.
fn digest_of(bytes: &[u8]) -> [u8; 64]
    ensures { result ≡ digest bytes.now }
{
    let digest: [u8; 32] = Sha256::digest(bytes);
    let mut digits = [0u8; 64];
    match encode_to_slice(digest, &mut digits) {
        Ok(()) => digits,
        Err(_) => unreachable!(),
    }
}

// Adds the line of the rules.
fn add_rules_line<S: Sink>(writer: &mut Writer<'_, S>, bytes: &[u8])
    ensures { Adds S.state writer.old writer.new (rules_line bytes.now) }
{
    let digest = digest_of(bytes);
    let pieces: [&[u8]; 3] = [b"%rules ", &digest, b"\n"];
    writer.add_pieces(&pieces);
}

// Adds the object of the rules.
fn add_rules_object<S: Sink>(writer: &mut Writer<'_, S>, bytes: &[u8], rules: &Rules)
    ensures { Adds S.state writer.old writer.new (rules_object bytes.now rules.now) }
{
    let digest = digest_of(bytes);
    let members = [
        Member::text(b"rules", &digest),
        Member::number(b"step", u128::from(rules.step())),
    ];
    add_object(writer, &members);
}

// Adds what is said of the rules.
fn add_rules<S: Sink>(writer: &mut Writer<'_, S>, format: Format, bytes: &[u8], rules: &Rules)
    ensures { Adds S.state writer.old writer.new (rules_as format bytes.now rules.now) }
{
    match format {
        Format::Words => add_rules_line(writer, bytes),
        Format::Json => add_rules_object(writer, bytes, rules),
    }
}

// Adds the line of a bidder without a form.
fn add_none<S: Sink>(writer: &mut Writer<'_, S>, name: &[u8])
    ensures { Adds S.state writer.old writer.new (held_line name.now None) }
{
    let pieces: [&[u8]; 3] = [b"%form ", name, b" -\n"];
    writer.add_pieces(&pieces);
}

// Adds the line of a bidder with a form.
fn add_form<S: Sink>(writer: &mut Writer<'_, S>, name: &[u8], form: LastForm<'_>)
    ensures { Adds S.state writer.old writer.new (held_line name.now (Some form.entry)) }
{
    let mut bids = Buffer::new();
    let digest = digest_of(form.bytes);
    let pieces: [&[u8]; 7] = [
        b"%form ",
        name,
        b" ",
        bids.format(form.bids).as_bytes(),
        b" ",
        &digest,
        b"\n",
    ];
    writer.add_pieces(&pieces);
}

// Adds the object of a bidder without a form.
fn add_none_object<S: Sink>(writer: &mut Writer<'_, S>, name: &[u8])
    ensures { Adds S.state writer.old writer.new (held_object name.now None) }
{
    let members = [
        Member::text(b"form", name),
        Member::number_if(b"bids", None),
        Member::text_if(b"sha256", None),
    ];
    add_object(writer, &members);
}

// Adds the object of a bidder with a form.
fn add_form_object<S: Sink>(writer: &mut Writer<'_, S>, name: &[u8], form: LastForm<'_>)
    ensures { Adds S.state writer.old writer.new (held_object name.now (Some form.entry)) }
{
    let digest = digest_of(form.bytes);
    let members = [
        Member::text(b"form", name),
        Member::number_if(b"bids", Some(form.bids as u128)),
        Member::text_if(b"sha256", Some(&digest)),
    ];
    add_object(writer, &members);
}

// Adds what is said of a bidder.
fn add_bidder<S: Sink>(
    writer: &mut Writer<'_, S>,
    format: Format,
    bidder: &Bidder,
    form: Option<LastForm<'_>>,
)
    ensures { Adds S.state writer.old writer.new (held_in format bidder.now.name form.entry) }
{
    let name = bidder.name.as_bytes();
    match (format, form) {
        (Format::Words, None) => add_none(writer, name),
        (Format::Words, Some(form)) => add_form(writer, name, form),
        (Format::Json, None) => add_none_object(writer, name),
        (Format::Json, Some(form)) => add_form_object(writer, name, form),
    }
}

// Adds what is said of the bidders.
fn add_bidders<S: Sink>(
    writer: &mut Writer<'_, S>,
    format: Format,
    bidders: &[Bidder],
    last: &LastForms<'_>,
)
    requires { length bidders.now ≤ MOST_BIDDERS }
    ensures { Adds S.state writer.old writer.new (bidders_held format last.now bidders.now) }
{
    for (place, bidder) in bidders.iter().enumerate() {
        add_bidder(writer, format, bidder, last.by_bidder[place + 1]);
    }
}

/// Adds what is said of the rules, and of all bidders.
pub(crate) fn add_forms<S: Sink>(writer: &mut Writer<'_, S>, format: Format, parts: &FormParts<'_>)
    ensures { Adds S.state writer.old writer.new (held_as format parts.now) }
{
    parts.rules.within_limits();
    add_rules(writer, format, parts.bytes, &parts.rules);
    add_bidders(writer, format, parts.rules.bidders(), &parts.last);
}

// Writes what is said of all. It takes no memory.
fn write_parts<S: Sink>(
    format: Format,
    parts: &FormParts<'_>,
    out: &mut S,
) -> Result<(), WriteFault>
    ensures { Sends (S.state out.old) (S.state out.new) result (held_as format parts.now) }
{
    let mut writer = Writer::new(out);
    add_forms(&mut writer, format, parts);
    writer.flush()
}

/// Writes the digest of the rules of an input, and for each bidder how many bids its last form has, and the digest of it.
pub fn write_forms<R: Threads + Sync + AllocGlobal, S: Sink>(
    rt: &R,
    format: Format,
    input: &Input,
    out: &mut S,
) -> Result<(), Refusal>
    ensures written { OnOk result (Writes (answer (forms_request format) input.now) (S.state out.old) (S.state out.new)) }
    ensures refused { IfErr result (IsUnwritten (forms_request format) input.now
        (S.state out.old) (S.state out.new)) }
{
    let alloc: Global = rt.alloc();
    let parts = read_last_forms(rt, alloc, input)?;
    write_parts(format, &parts, out)?;
    Ok(())
}
