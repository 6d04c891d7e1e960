//! The lines of a report on their way to a sink: headings, winners and totals, and costs.

ghost use Rattle.std.specs.Prelude.{◌≡◌, ◌∷◌, ◌++◌, [], codes, flat_map, length};
ghost use Rattle.byte_sinks.specs.Adds.{Adds};
ghost use Rattle.bid_desk.specs.Sale.{bidder_name, sale_of};
ghost use Rattle.outcome.specs.Report.{group_names, heading, group_report, in_turn, allocation_text, winner_line};
ghost use Rattle.std.specs.List.{zip};

use crate::allocation::Allocation;
use crate::costs::{cost_of, total_of};
use crate::sale::{amount_of, name_of};
use auction_terms::{Choice, Group, Groups};
use bid_desk::ClosedBook;
use byte_sinks::{Sink, Writer};
use itoa::Buffer;

/// Adds the names of further bidders.
fn add_more_names<S: Sink>(writer: &mut Writer<'_, S>, book: &ClosedBook, bidders: &[u16])
    ensures { Adds S.state writer.old writer.new
        (flat_map (λ further. 43 ∷ bidder_name (sale_of book.now).names further) bidders.now) }
{
    for bidder in bidders {
        let pieces: [&[u8]; 2] = [b"+", name_of(book, *bidder)];
        writer.add_pieces(&pieces);
    }
}

/// Adds the names of a group.
fn add_names<S: Sink>(writer: &mut Writer<'_, S>, book: &ClosedBook, group: &[u16])
    ensures { Adds S.state writer.old writer.new
        (group_names (sale_of book.now).names group.now) }
{
    match group.split_first() {
        None => writer.add(b"-"),
        Some((first, more)) => {
            writer.add(name_of(book, *first));
            add_more_names(writer, book, more);
        }
    }
}

/// Adds the names of a group by rising number, joined by plus signs, or a dash if nobody is in it, and ends the line.
pub fn add_names_line<S: Sink>(writer: &mut Writer<'_, S>, book: &ClosedBook, group: &[u16])
    ensures { Adds S.state writer.old writer.new
        (group_names (sale_of book.now).names group.now ++ 10 ∷ []) }
{
    add_names(writer, book, group);
    writer.add(b"\n");
}

/// Adds the heading of group k.
fn add_heading<S: Sink>(writer: &mut Writer<'_, S>, book: &ClosedBook, k: usize, group: &[u16])
    ensures { Adds S.state writer.old writer.new
        (heading (codes "group ") (sale_of book.now).names k group.now) }
{
    let mut buffer = Buffer::new();
    let pieces: [&[u8]; 3] = [b"group ", buffer.format(k).as_bytes(), b" "];
    writer.add_pieces(&pieces);
    add_names_line(writer, book, group);
}

/// Adds the line of a winner.
fn add_winner<S: Sink>(writer: &mut Writer<'_, S>, book: &ClosedBook, choice: Choice)
    ensures { Adds S.state writer.old writer.new
        (winner_line (sale_of book.now) choice) }
{
    let mut bid = Buffer::new();
    let mut amount = Buffer::new();
    let pieces: [&[u8]; 6] = [
        name_of(book, choice.bidder),
        b" ",
        bid.format(choice.bid).as_bytes(),
        b" ",
        amount.format(amount_of(book, choice)).as_bytes(),
        b"\n",
    ];
    writer.add_pieces(&pieces);
}

/// Adds the lines of the winners.
fn add_winners<S: Sink>(writer: &mut Writer<'_, S>, book: &ClosedBook, choices: &[Choice])
    ensures { Adds S.state writer.old writer.new
        (flat_map (winner_line (sale_of book.now)) choices.now) }
{
    for choice in choices {
        add_winner(writer, book, *choice);
    }
}

/// Adds the winners, then the total.
pub fn add_allocation<S: Sink>(writer: &mut Writer<'_, S>, book: &ClosedBook, choices: &[Choice])
    ensures { Adds S.state writer.old writer.new
        (allocation_text (sale_of book.now) choices.now) }
{
    add_winners(writer, book, choices);
    let mut buffer = Buffer::new();
    let total = total_of(book, choices);
    let pieces: [&[u8]; 3] = [b"total ", buffer.format(total).as_bytes(), b"\n"];
    writer.add_pieces(&pieces);
}

/// Adds what the report says of group k.
fn add_group<S: Sink>(
    writer: &mut Writer<'_, S>,
    book: &ClosedBook,
    first: &[Choice],
    k: usize,
    group: &Group,
    choices: &[Choice],
)
    ensures { Adds S.state writer.old writer.new
        (group_report (sale_of book.now) first.now k (group.now, choices.now)) }
{
    add_heading(writer, book, k, group.numbers());
    add_allocation(writer, book, choices);
    let mut buffer = Buffer::new();
    let cost = cost_of(book, first, group, choices);
    let pieces: [&[u8]; 3] = [b"cost ", buffer.format(cost).as_bytes(), b"\n"];
    writer.add_pieces(&pieces);
}

/// Adds what the report says of all groups.
pub fn add_groups<S: Sink>(
    writer: &mut Writer<'_, S>,
    book: &ClosedBook,
    first: &[Choice],
    groups: &Groups,
    allocations: &[Allocation],
)
    requires { length groups.now ≡ length allocations.now }
    ensures { Adds S.state writer.old writer.new
        (in_turn (group_report (sale_of book.now) first.now) 1
        (zip groups.now allocations.now)) }
{
    for (i, allocation) in allocations.iter().enumerate() {
        add_group(
            writer,
            book,
            first,
            i + 1,
            groups.group(i + 1),
            allocation.choices(),
        );
    }
}
