//! What is reported of a refusal, with the name of its file where there are several.

ghost use Rattle.std.specs.Prelude.{◌≡◌, ◌<◌, [], codes, flat_map, if◌then◌else◌};
ghost use Rattle.auction_input.specs.Message.{message_text};
ghost use Rattle.byte_sinks.specs.Adds.{Adds};
ghost use Rattle.input_faults.specs.FileNames.{shown_name};
ghost use Rattle.input_faults.specs.PlacedText.{file_name, hint, hint_on, message_at, with_other, words_at};
ghost use Rattle.auction_input.specs.declared.parts.PartFault.TheVariants as part;

use crate::shown::add_shown_bytes;
use crate::wording::add_wording;
use auction_input::{Message, NamedText, PartFault, Refusal, Spot};
use byte_sinks::{Sink, Writer};

// Adds words on a refusal.
fn add_words<S: Sink>(writer: &mut Writer<'_, S>, reported: &Message<'_>)
    ensures { Adds S.state writer.old writer.new (message_text reported.now) }
{
    add_wording(writer, reported.part);
    add_wording(writer, reported.fault);
    writer.add(reported.name);
}

/// Adds the name of a file, whose bytes are shown as those of a text; of `-` what it stands for.
pub fn add_file_name<S: Sink>(writer: &mut Writer<'_, S>, name: &[u8])
    ensures { Adds S.state writer.old writer.new (shown_name name.now) }
{
    if name == b"-".as_slice() {
        writer.add(b"standard input");
    } else if name == b"".as_slice() {
        writer.add(b"''");
    } else {
        add_shown_bytes(writer, name);
    }
}

/// The name of the file of a text.
pub(crate) fn file_name(texts: &[NamedText], text: usize) -> &[u8]
    ensures { result.now ≡ file_name texts.now text }
{
    match texts.get(text) {
        Some(given) => given.name(),
        None => b"".as_slice(),
    }
}

// Adds after what is reported of a form, if it is in another text than its bidder's first form, the name of that text's file.
fn add_other<S: Sink>(writer: &mut Writer<'_, S>, texts: &[NamedText], refusal: &Refusal)
    ensures { Adds S.state writer.old writer.new
        (with_other texts.now refusal.now []) }
{
    match refusal {
        Refusal::AnotherForm(another) => {
            writer.add(b" is in ");
            add_file_name(writer, file_name(texts, another.first_text));
            writer.add(b"; say --last-wins where the later one counts");
        }
        _ => writer.add(b""),
    }
}

// Adds what is reported of a refusal by itself, which is at that spot of these texts.
fn add_words_at<S: Sink>(
    writer: &mut Writer<'_, S>,
    texts: &[NamedText],
    spot: Option<Spot>,
    refusal: &Refusal,
)
    ensures { Adds S.state writer.old writer.new
        (words_at texts.now spot refusal.now) }
{
    match spot {
        Some(spot) => {
            add_file_name(writer, file_name(texts, spot.text));
            writer.add(b": ");
            add_words(writer, &refusal.message_as(spot.number));
        }
        None => add_words(writer, &refusal.message()),
    }
}

/// Adds what is reported of a refusal, which is at that spot of these texts.
pub fn add_message<S: Sink>(
    writer: &mut Writer<'_, S>,
    texts: &[NamedText],
    spot: Option<Spot>,
    refusal: &Refusal,
)
    ensures { Adds S.state writer.old writer.new
        (message_at texts.now spot refusal.now) }
{
    add_words_at(writer, texts, spot, refusal);
    add_other(writer, texts, refusal);
}

// Adds what makes an input of files, if the first one has this name, and one of them doesn't begin with a head.
fn add_gather<S: Sink>(writer: &mut Writer<'_, S>, name: &[u8])
    ensures { Adds S.state writer.old writer.new (hint_on name.now part.BeforeFirst) }
{
    if name == b"".as_slice() {
        writer.add(b"");
    } else {
        writer.add(b"; wdp-office gather makes an input of such files");
    }
}

fn add_hint_on<S: Sink>(writer: &mut Writer<'_, S>, name: &[u8], fault: PartFault)
    ensures { Adds S.state writer.old writer.new (hint_on name.now fault) }
{
    match fault {
        PartFault::BeforeFirst => add_gather(writer, name),
        _ => writer.add(b""),
    }
}

/// Adds what comes after what is reported of a refusal on standard error: for files that are no parts of an input, what makes one of
/// them.
pub fn add_hint<S: Sink>(writer: &mut Writer<'_, S>, texts: &[NamedText], refusal: &Refusal)
    ensures { Adds S.state writer.old writer.new (hint texts.now refusal.now) }
{
    match refusal {
        Refusal::Parts(fault) => add_hint_on(writer, file_name(texts, 0), *fault),
        _ => writer.add(b""),
    }
}
