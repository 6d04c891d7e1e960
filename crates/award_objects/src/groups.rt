//! The objects of groups.

ghost use Rattle.std.specs.Prelude.{◌≡◌, ◌≤◌, ◌*◌, ◌^◌, length, map, option_map};
ghost use Rattle.std.specs.List.{zip};
ghost use Rattle.bid_desk.specs.Sale.{bidder_name, sale_of};
ghost use Rattle.byte_sinks.specs.Adds.{Adds};
ghost use Rattle.byte_sinks.specs.Objects as of_lists;
ghost use Rattle.byte_sinks.specs.Objects.{object_text, scalar_seen};
ghost use Rattle.outcome.specs.Pricing.{in_pounds, price_in};
ghost use Rattle.outcome.specs.Report.{in_turn};
ghost use Rattle.prices.specs.Prices.{paid_by_group};
ghost use Rattle.award_objects.specs.Objects as of_objects;
ghost use Rattle.award_objects.specs.Objects.{group_members, group_objects};

use crate::items::Items;
use crate::objects::Outcome;
use crate::winners::add_winners;
use arrayvec::ArrayVec;
use auction_terms::{Choice, Group};
use bid_desk::ClosedBook;
use byte_sinks::{Member, Scalar, Sink, Writer, add_object};
use outcome::{Allocation, Pricing, cost, name_of, total};

// The names of the bidders of a group.
fn names_of<'b>(book: &'b ClosedBook, group: &Group) -> Items<'b>
    ensures { map scalar_seen result.items
        ≡ map of_lists.Scalar.Text (map (bidder_name (sale_of book.now).names) group.now) }
{
    let mut names = ArrayVec::new();
    let numbers = group.numbers();
    for bidder in numbers {
        names.push(Scalar::Text(name_of(book, *bidder)));
    }
    names
}

// What the winners of a group pay together in whole pounds.
fn paid_in_pounds_by(pricing: &Pricing, group: &Group, choices: &[Choice]) -> u128
    ensures sum { result ≡ paid_by_group (in_pounds pricing.now.parts (price_in pricing.now.prices))
        group.now choices.now }
    ensures small { result ≤ length choices.now * 2 ^ 64 }
{
    let mut sum: u128 = 0;
    for choice in choices {
        if group.has(choice.bidder) {
            sum += u128::from(pricing.pounds(choice.bidder));
        }
    }
    sum
}

// The same, if there are prices.
fn paid_by(pricing: &Option<Pricing>, first: &Allocation, group: &Group) -> Option<u128>
    ensures { result ≡ of_objects.paid_by pricing.now first.now group.now }
{
    match pricing {
        Some(pricing) => Some(paid_in_pounds_by(pricing, group, first.choices())),
        None => None,
    }
}

// Adds the object of group k, whose bidders have these names.
fn add_named_group<S: Sink>(
    writer: &mut Writer<'_, S>,
    outcome: &Outcome<'_>,
    first: &Allocation,
    k: usize,
    group: &Group,
    names: &[Scalar<'_>],
    without: &Allocation,
)
    requires { map scalar_seen names.now ≡ map of_lists.Scalar.Text
        (map (bidder_name (sale_of outcome.now.book.now).names) group.now) }
    ensures { Adds S.state writer.old writer.new (object_text
        (group_members (sale_of outcome.now.book.now) outcome.now.pricing.now first.now k
        (group.now, without.now))) }
{
    let members = [
        Member::number(b"group", k as u128),
        Member::list(b"left_out", names),
        Member::number(b"total", total(outcome.book, without)),
        Member::signed(b"cost", cost(outcome.book, first, group, without)),
        Member::number_if(b"pays", paid_by(outcome.pricing, first, group)),
    ];
    add_object(writer, &members);
}

// Adds the object of group k.
fn add_group<S: Sink>(
    writer: &mut Writer<'_, S>,
    outcome: &Outcome<'_>,
    first: &Allocation,
    k: usize,
    group: &Group,
    without: &Allocation,
)
    ensures { Adds S.state writer.old writer.new (object_text
        (group_members (sale_of outcome.now.book.now) outcome.now.pricing.now first.now k
        (group.now, without.now))) }
{
    let names = names_of(outcome.book, group);
    add_named_group(writer, outcome, first, k, group, names.as_slice(), without);
}

// Adds the objects of group k and of its winners.
fn add_group_and_winners<S: Sink>(
    writer: &mut Writer<'_, S>,
    outcome: &Outcome<'_>,
    first: &Allocation,
    k: usize,
    group: &Group,
    without: &Allocation,
)
    ensures { Adds S.state writer.old writer.new
        (group_objects outcome.now.book.now.rules (sale_of outcome.now.book.now)
        outcome.now.pricing.now first.now k (group.now, without.now)) }
{
    add_group(writer, outcome, first, k, group, without);
    add_winners(writer, outcome.book, b"group", k, without.choices());
}

/// Adds the objects of all groups.
pub(crate) fn add_groups<S: Sink>(
    writer: &mut Writer<'_, S>,
    outcome: &Outcome<'_>,
    first: &Allocation,
)
    requires { length outcome.now.groups.now ≡ length outcome.now.won.now }
    ensures { Adds S.state writer.old writer.new (in_turn
        (group_objects outcome.now.book.now.rules (sale_of outcome.now.book.now)
        outcome.now.pricing.now first.now) 1
        (zip outcome.now.groups.now outcome.now.won.now)) }
{
    for place in 0..outcome.groups.count() {
        let group = outcome.groups.group(place + 1);
        add_group_and_winners(
            writer,
            outcome,
            first,
            place + 1,
            group,
            &outcome.won[place],
        );
    }
}
