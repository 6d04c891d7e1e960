//! The object of JSON of a bid that no program has.

ghost use Rattle.std.specs.Prelude.{◌++◌, codes};
ghost use Rattle.byte_sinks.specs.Adds.{Adds};
ghost use Rattle.byte_sinks.specs.Json.{number_member, text_member};
ghost use Rattle.presolve.specs.Objects.{bidder_member, left_out_object, reason_members, replaced_object};
ghost use Rattle.presolve.specs.declared.reason.Reason.TheVariants as reason;

use crate::reason::Reason;
use crate::reason_words::{bidder_name, category_name, pool_name};
use auction_terms::Rules;
use byte_sinks::{Sink, Writer, add_number_member, add_text_member};

// Adds the name of a reason, and the one number that is reported of it.
fn add_named_number<S: Sink>(writer: &mut Writer<'_, S>, reason: &[u8], name: &[u8], number: u64)
    ensures { Adds S.state writer.old writer.new
        (text_member (codes ", ") (codes "reason") reason.now ++ number_member (codes ", ") name.now number) }
{
    add_text_member(writer, b", ", b"reason", reason);
    add_number_member(writer, b", ", name, number);
}

// Adds the members that tell a reason.
fn add_reason<S: Sink>(writer: &mut Writer<'_, S>, rules: &Rules, reason: Reason)
    ensures { Adds S.state writer.old writer.new (reason_members rules.now reason) }
{
    match reason {
        Reason::OverSupply {
            category,
            asked,
            supply,
        } => {
            add_text_member(writer, b", ", b"reason", b"OverSupply");
            add_text_member(writer, b", ", b"category", category_name(rules, category));
            add_number_member(writer, b", ", b"asked", u64::from(asked));
            add_number_member(writer, b", ", b"supply", u64::from(supply));
        }
        Reason::OverCap { pool, load, cap } => {
            add_text_member(writer, b", ", b"reason", b"OverCap");
            add_text_member(writer, b", ", b"pool", pool_name(rules, pool));
            add_number_member(writer, b", ", b"load", load);
            add_number_member(writer, b", ", b"cap", cap);
        }
        Reason::BelowWorth { less } => add_named_number(writer, b"BelowWorth", b"less", less),
        Reason::Dominated { by } => add_named_number(writer, b"Dominated", b"by", by as u64),
    }
}

// Adds the first member of an object: the name of its bidder.
fn add_bidder<S: Sink>(writer: &mut Writer<'_, S>, rules: &Rules, bidder: usize)
    ensures { Adds S.state writer.old writer.new (bidder_member rules.now bidder) }
{
    add_text_member(writer, b"{", b"bidder", bidder_name(rules, bidder));
}

/// Adds the object of a form that the last one of its bidder replaces, by the numbers of the bidder and of both forms.
pub fn add_replaced_object<S: Sink>(
    writer: &mut Writer<'_, S>,
    rules: &Rules,
    bidder: usize,
    last: usize,
    number: usize,
)
    ensures { Adds S.state writer.old writer.new
        (replaced_object rules.now bidder last number) }
{
    add_bidder(writer, rules, bidder);
    add_number_member(writer, b", ", b"form", number as u64);
    add_text_member(writer, b", ", b"reason", b"Replaced");
    add_number_member(writer, b", ", b"by", last as u64);
    writer.add(b"}\n");
}

/// Adds the object of a bid, by the numbers of its bidder and its own, and of the reason.
pub fn add_object<S: Sink>(
    writer: &mut Writer<'_, S>,
    rules: &Rules,
    bidder: usize,
    number: usize,
    reason: Reason,
)
    ensures { Adds S.state writer.old writer.new
        (left_out_object rules.now bidder number reason) }
{
    add_bidder(writer, rules, bidder);
    add_number_member(writer, b", ", b"bid", number as u64);
    add_reason(writer, rules, reason);
    writer.add(b"}\n");
}
