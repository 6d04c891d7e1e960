//! The objects of other awards.

ghost use Rattle.std.specs.Prelude.{◌≡◌, ◌≤◌, ◌^◌, ◌-ℤ◌, All, length, map, pos};
ghost use Rattle.std.specs.List.{zip};
ghost use Rattle.auction_terms.specs.Allocations.{total};
ghost use Rattle.auction_terms.specs.Terms.{lots_in};
ghost use Rattle.bid_desk.specs.Closing.{book_of};
ghost use Rattle.bid_desk.specs.Sale.{sale_of};
ghost use Rattle.byte_sinks.specs.Adds.{Adds};
ghost use Rattle.byte_sinks.specs.Objects as of_lists;
ghost use Rattle.byte_sinks.specs.Objects.{object_text, scalar_seen};
ghost use Rattle.outcome.specs.Report.{in_turn};
ghost use Rattle.award_objects.specs.Objects as of_objects;
ghost use Rattle.award_objects.specs.Objects.{award_members, award_text};

use crate::items::{Items, MOST_ITEMS};
use crate::objects::Outcome;
use crate::winners::add_winners;
use arrayvec::ArrayVec;
use bid_desk::ClosedBook;
use byte_sinks::{Member, Scalar, Sink, Writer, add_object};
use outcome::{Allocation, amounts_in, total};

// The totals by the allocations of the groups.
type Totals = ArrayVec<u128, MOST_ITEMS>;

// The total of an allocation.
fn small_total(book: &ClosedBook, allocation: &Allocation) -> u128
    ensures total { result
        ≡ total (lots_in book.now.rules) (book_of book.now) allocation.now }
    ensures small { result ≤ 2 ^ 60 }
{
    book.within_limits();
    // Its contract says that the bidders of its choices rise.
    let _rising = allocation.choices();
    total(book, allocation)
}

// The totals by the allocations of the groups.
fn totals_of(outcome: &Outcome<'_>) -> Totals
    requires { length outcome.now.groups.now ≡ length outcome.now.won.now }
    ensures totals { result.items ≡ map (total (lots_in outcome.now.book.now.rules)
        (book_of outcome.now.book.now)) outcome.now.won.now }
    ensures small { All (λ n. n ≤ 2 ^ 60) result.items }
{
    let mut totals = ArrayVec::new();
    for place in 0..outcome.groups.count() {
        totals.push(small_total(outcome.book, &outcome.won[place]));
    }
    totals
}

// What a group costs, by the total without it, the total of the award, and what the group's bidders have of it.
fn cost_from(without: u128, all: u128, theirs: u128) -> i128
    requires without { without ≤ 2 ^ 60 }
    requires all { all ≤ 2 ^ 60 }
    requires theirs { theirs ≤ 2 ^ 126 }
    ensures { result ≡ pos without -ℤ (pos all -ℤ pos theirs) }
{
    without as i128 - (all as i128 - theirs as i128)
}

// What each group costs by an award. The totals by the groups' allocations are the same for all awards.
fn costs_by(outcome: &Outcome<'_>, totals: &[u128], award: &Allocation) -> Items<'static>
    requires count { length outcome.now.groups.now ≡ length outcome.now.won.now }
    requires totals { totals.now ≡ map (total (lots_in outcome.now.book.now.rules)
        (book_of outcome.now.book.now)) outcome.now.won.now }
    requires small { All (λ n. n ≤ 2 ^ 60) totals.now }
    ensures { map scalar_seen result.items ≡ map of_lists.Scalar.Signed (of_objects.costs_by
        (sale_of outcome.now.book.now) (zip outcome.now.groups.now outcome.now.won.now)
        award.now) }
{
    let all = small_total(outcome.book, award);
    let choices = award.choices();
    let mut costs = ArrayVec::new();
    for place in 0..outcome.groups.count() {
        let group = outcome.groups.group(place + 1);
        let theirs = amounts_in(outcome.book, group, choices);
        costs.push(Scalar::Signed(cost_from(totals[place], all, theirs)));
    }
    costs
}

// Adds the object of award k.
fn add_award<S: Sink>(
    writer: &mut Writer<'_, S>,
    outcome: &Outcome<'_>,
    totals: &[u128],
    k: usize,
    award: &Allocation,
)
    requires count { length outcome.now.groups.now ≡ length outcome.now.won.now }
    requires totals { totals.now ≡ map (total (lots_in outcome.now.book.now.rules)
        (book_of outcome.now.book.now)) outcome.now.won.now }
    requires small { All (λ n. n ≤ 2 ^ 60) totals.now }
    ensures { Adds S.state writer.old writer.new (object_text
        (award_members (sale_of outcome.now.book.now)
        (zip outcome.now.groups.now outcome.now.won.now) k award.now)) }
{
    let costs = costs_by(outcome, totals, award);
    let members = [
        Member::number(b"award", k as u128),
        Member::number(b"total", total(outcome.book, award)),
        Member::list(b"costs", costs.as_slice()),
    ];
    add_object(writer, &members);
}

// Adds the objects of award k and of its winners.
fn add_award_and_winners<S: Sink>(
    writer: &mut Writer<'_, S>,
    outcome: &Outcome<'_>,
    totals: &[u128],
    k: usize,
    award: &Allocation,
)
    requires count { length outcome.now.groups.now ≡ length outcome.now.won.now }
    requires totals { totals.now ≡ map (total (lots_in outcome.now.book.now.rules)
        (book_of outcome.now.book.now)) outcome.now.won.now }
    requires small { All (λ n. n ≤ 2 ^ 60) totals.now }
    ensures { Adds S.state writer.old writer.new
        (award_text outcome.now.book.now.rules (sale_of outcome.now.book.now)
        (zip outcome.now.groups.now outcome.now.won.now) k award.now) }
{
    add_award(writer, outcome, totals, k, award);
    add_winners(writer, outcome.book, b"award", k, award.choices());
}

/// Adds the objects of the other awards. The first award is that of the first group, so that these count from 2.
pub(crate) fn add_awards<S: Sink>(writer: &mut Writer<'_, S>, outcome: &Outcome<'_>)
    requires { length outcome.now.groups.now ≡ length outcome.now.won.now }
    ensures { Adds S.state writer.old writer.new (in_turn
        (award_text outcome.now.book.now.rules (sale_of outcome.now.book.now)
        (zip outcome.now.groups.now outcome.now.won.now)) 2 outcome.now.others.now.awards) }
{
    let totals = totals_of(outcome);
    let awards = outcome.others.awards();
    for (place, award) in awards.iter().enumerate() {
        add_award_and_winners(writer, outcome, totals.as_slice(), place + 2, award);
    }
}
