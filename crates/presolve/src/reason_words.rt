//! The line of a bid that no program has.

ghost use Rattle.std.specs.Prelude.{◌≡◌, ◌++◌, ◌∷◌, ◌≤◌, [], decimal, map};
ghost use Rattle.bid_desk.specs.Sale.{bidder_name};
ghost use Rattle.presolve.specs.Lines.{left_out_line, reason_text, replaced_line};
ghost use Rattle.presolve.specs.Names.{category_name, pool_name};
ghost use Rattle.presolve.specs.declared.reason.Reason.TheVariants as reason;
ghost use Rattle.byte_sinks.specs.Adds.{Adds};

use crate::reason::Reason;
use auction_terms::Rules;
use byte_sinks::{Sink, Writer};
use itoa::Buffer;

// The name of a category by its place.
pub(crate) fn category_name(rules: &Rules, place: usize) -> &[u8]
    ensures { result.now ≡ category_name rules.now place }
{
    match rules.categories().get(place) {
        Some(category) => category.name.as_bytes(),
        None => b"".as_slice(),
    }
}

// The name of a pool by its place.
pub(crate) fn pool_name(rules: &Rules, place: usize) -> &[u8]
    ensures { result.now ≡ pool_name rules.now place }
{
    match rules.pools().get(place) {
        Some(pool) => pool.name.as_bytes(),
        None => b"".as_slice(),
    }
}

// The name of a bidder by its number, from 1.
pub(crate) fn bidder_name(rules: &Rules, bidder: usize) -> &[u8]
    ensures { result.now ≡ bidder_name (map (λ b. b.name) rules.now.bidders) bidder }
{
    if bidder == 0 {
        return b"".as_slice();
    }
    match rules.bidders().get(bidder - 1) {
        Some(found) => found.name.as_bytes(),
        None => b"".as_slice(),
    }
}

// Adds that a bid asks for more of a category than there is.
fn add_over_supply<S: Sink>(
    writer: &mut Writer<'_, S>,
    rules: &Rules,
    category: usize,
    asked: u32,
    supply: u32,
)
    ensures { Adds S.state writer.old writer.new
        (reason_text rules.now (reason.OverSupply category asked supply)) }
{
    let mut asked_digits = Buffer::new();
    let mut supply_digits = Buffer::new();
    let pieces: [&[u8]; 6] = [
        b" asks for ",
        asked_digits.format(asked).as_bytes(),
        b" of ",
        category_name(rules, category),
        b", of which there are ",
        supply_digits.format(supply).as_bytes(),
    ];
    writer.add_pieces(&pieces);
}

// Adds that a bid loads a pool above its cap.
fn add_over_cap<S: Sink>(
    writer: &mut Writer<'_, S>,
    rules: &Rules,
    pool: usize,
    load: u64,
    cap: u64,
)
    ensures { Adds S.state writer.old writer.new
        (reason_text rules.now (reason.OverCap pool load cap)) }
{
    let mut load_digits = Buffer::new();
    let mut cap_digits = Buffer::new();
    let pieces: [&[u8]; 6] = [
        b" loads pool ",
        pool_name(rules, pool),
        b" with ",
        load_digits.format(load).as_bytes(),
        b", above its cap of ",
        cap_digits.format(cap).as_bytes(),
    ];
    writer.add_pieces(&pieces);
}

// Adds words and a number, and words after it.
fn add_number<S: Sink>(writer: &mut Writer<'_, S>, before: &[u8], number: u64, after: &[u8])
    ensures { Adds S.state writer.old writer.new
        (before.now ++ (decimal number ++ after.now)) }
{
    let mut digits = Buffer::new();
    let pieces: [&[u8]; 3] = [before, digits.format(number).as_bytes(), after];
    writer.add_pieces(&pieces);
}

// Adds what is reported of a reason.
fn add_reason<S: Sink>(writer: &mut Writer<'_, S>, rules: &Rules, reason: Reason)
    ensures { Adds S.state writer.old writer.new (reason_text rules.now reason) }
{
    match reason {
        Reason::OverSupply {
            category,
            asked,
            supply,
        } => add_over_supply(writer, rules, category, asked, supply),
        Reason::OverCap { pool, load, cap } => add_over_cap(writer, rules, pool, load, cap),
        Reason::BelowWorth { less } => {
            add_number(
                writer,
                b" brings ",
                less,
                b" less than its lots are worth unsold",
            );
        }
        Reason::Dominated { by } => {
            add_number(writer, b" is dominated by bid ", by as u64, b"");
        }
    }
}

/// Adds the line of a form that the last one of its bidder replaces, by the numbers of the bidder and of both forms.
pub fn add_replaced_line<S: Sink>(
    writer: &mut Writer<'_, S>,
    rules: &Rules,
    bidder: usize,
    last: usize,
    number: usize,
)
    ensures { Adds S.state writer.old writer.new
        (replaced_line rules.now bidder last number) }
{
    let mut digits = Buffer::new();
    let mut last_digits = Buffer::new();
    let pieces: [&[u8]; 6] = [
        bidder_name(rules, bidder),
        b": form ",
        digits.format(number).as_bytes(),
        b" is replaced by form ",
        last_digits.format(last).as_bytes(),
        b"\n",
    ];
    writer.add_pieces(&pieces);
}

/// Adds the line of a bid, by the numbers of its bidder and its own, and of the reason.
pub fn add_line<S: Sink>(
    writer: &mut Writer<'_, S>,
    rules: &Rules,
    bidder: usize,
    number: usize,
    reason: Reason,
)
    ensures { Adds S.state writer.old writer.new
        (left_out_line rules.now bidder number reason) }
{
    let mut digits = Buffer::new();
    let pieces: [&[u8]; 3] = [
        bidder_name(rules, bidder),
        b": bid ",
        digits.format(number).as_bytes(),
    ];
    writer.add_pieces(&pieces);
    add_reason(writer, rules, reason);
    writer.add(b"\n");
}
