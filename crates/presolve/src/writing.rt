//! Writing the lines of bids that no program has, and of forms that others replace.

ghost use Rattle.std.specs.Prelude.{◌≡◌, ◌==◌, [], None, flat_map, if◌then◌else◌};
ghost use Rattle.std.specs.List.{last_or};
ghost use Rattle.byte_sinks.specs.Adds.{Adds};
ghost use Rattle.byte_sinks.specs.Sinks.{Sends};
ghost use Rattle.presolve.specs.Lines.{form_lines, forms_by, left_out_lines, replaced};

use crate::reason::Reason;
use crate::reason_objects::{add_object, add_replaced_object};
use crate::reason_words::{add_line, add_replaced_line};
use crate::reasons::Reasons;
use auction_terms::Rules;
use byte_sinks::{Format, Sink, WriteFault, Writer};

// Adds the lines of a bidder's form.
fn add_form<S: Sink>(
    writer: &mut Writer<'_, S>,
    format: Format,
    rules: &Rules,
    bidder: usize,
    reasons: &[Option<Reason>],
)
    ensures { Adds S.state writer.old writer.new
        (form_lines format rules.now bidder reasons.now) }
{
    for (place, &why) in reasons.iter().enumerate() {
        if let Some(reason) = why {
            let number = place + 1;
            match format {
                Format::Words => add_line(writer, rules, bidder, number, reason),
                Format::Json => add_object(writer, rules, bidder, number, reason),
            }
        }
    }
}

// The number of a bidder's last form.
fn last_form(bidders: &[u16], bidder: usize) -> Option<usize>
    ensures { result ≡ last_or None (forms_by bidders.now bidder) }
{
    let mut last = None;
    for (place, &owner) in bidders.iter().enumerate() {
        if usize::from(owner) == bidder {
            last = Some(place + 1);
        }
    }
    last
}

// Adds the lines of a bidder's forms but the last.
fn add_replaced_by<S: Sink>(
    writer: &mut Writer<'_, S>,
    format: Format,
    rules: &Rules,
    bidders: &[u16],
    bidder: usize,
    last: usize,
)
    ensures { Adds S.state writer.old writer.new
        (flat_map (λ number. if number == last then []
        else replaced format rules.now bidder last number) (forms_by bidders.now bidder)) }
{
    for (place, &owner) in bidders.iter().enumerate() {
        let number = place + 1;
        if usize::from(owner) == bidder && number != last {
            match format {
                Format::Words => add_replaced_line(writer, rules, bidder, last, number),
                Format::Json => add_replaced_object(writer, rules, bidder, last, number),
            }
        }
    }
}

// Adds the lines of a book, bidder by bidder: those of forms that are replaced, and of bids in the last one.
fn add_bidders<S: Sink>(
    writer: &mut Writer<'_, S>,
    format: Format,
    rules: &Rules,
    bidders: &[u16],
    reasons: &Reasons,
)
    ensures { Adds S.state writer.old writer.new
        (left_out_lines format rules.now bidders.now reasons.now) }
{
    for place in 0..reasons.forms.len() {
        let bidder = place + 1;
        if let Some(last) = last_form(bidders, bidder) {
            add_replaced_by(writer, format, rules, bidders, bidder, last);
        }
        add_form(writer, format, rules, bidder, &reasons.forms[place]);
    }
}

/// Writes a line, in words or of JSON, for each bid of a book that there is a reason for, by rising number of the bidder,
/// then of the bid; and before those of a bidder one for each of its forms that its last one replaces. The numbers of forms
/// are their places, from 1, among the bidders of all forms. It takes no memory.
pub fn write_left_out<S: Sink>(
    rules: &Rules,
    form_bidders: &[u16],
    reasons: &Reasons,
    format: Format,
    out: &mut S,
) -> Result<(), WriteFault>
    ensures { Sends (S.state out.old) (S.state out.new) result (left_out_lines format rules.now form_bidders.now reasons.now) }
{
    let mut writer = Writer::new(out);
    add_bidders(&mut writer, format, rules, form_bidders, reasons);
    writer.flush()
}
