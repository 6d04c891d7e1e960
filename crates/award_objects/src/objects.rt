//! All objects of an outcome, in their order.

ghost use Rattle.std.specs.Prelude.{◌≡◌, [], length, slice_index_or, true};
ghost use Rattle.auction_terms.specs.Groups.{starts_empty};
ghost use Rattle.bid_desk.specs.Sale.{sale_of};
ghost use Rattle.byte_sinks.specs.Adds.{Adds};
ghost use Rattle.award_objects.specs.Objects.{award_of, outcome_seen, objects_shown, objects_unshown};

use crate::awards::add_awards;
use crate::groups::add_groups;
use crate::lots::{add_lots, sold_by};
use crate::payments::add_prices;
use crate::proved::{add_proved, proved_of};
use crate::sums::add_sums;
use auction_terms::Groups;
use bid_desk::ClosedBook;
use byte_sinks::{Sink, Writer};
use outcome::{Allocation, Further, OtherAwards, Pricing};
use std::alloc::Global;

/// What solutions, certificates, claims and prices show of an auction: an allocation for each group, what the winners pay, and
/// what is known of other awards.
#[derive(Clone, Copy)]
pub struct Outcome<'o> {
    pub book: &'o ClosedBook,
    pub groups: &'o Groups,
    /// An allocation for each group, the first of them for the empty group.
    pub won: &'o [Allocation],
    pub pricing: &'o Option<Pricing>,
    pub others: &'o OtherAwards,
}

// Adds the objects of an outcome.
fn add_outcome<S: Sink>(writer: &mut Writer<'_, S>, outcome: &Outcome<'_>)
    requires count { length outcome.now.groups.now ≡ length outcome.now.won.now }
    requires first { starts_empty outcome.now.groups.now ≡ true }
    ensures { Adds S.state writer.old writer.new (award_of outcome.now.book.now.rules
        (sale_of outcome.now.book.now) outcome.now.groups.now (outcome_seen outcome.now)
        (slice_index_or outcome.now.won.now 0 [])) }
{
    let first = &outcome.won[0];
    let sold = sold_by(outcome.book, first.choices());
    add_lots(writer, outcome.book, sold.as_slice());
    add_groups(writer, outcome, first);
    add_prices(writer, outcome, first);
    add_awards(writer, outcome);
    add_sums(writer, outcome, first, sold.as_slice());
}

/// Adds the objects of an outcome that is shown, and last what is proved of it.
pub fn add_shown<S: Sink>(writer: &mut Writer<'_, S>, outcome: &Outcome<'_>)
    requires count { length outcome.now.groups.now ≡ length outcome.now.won.now }
    requires first { starts_empty outcome.now.groups.now ≡ true }
    ensures { Adds S.state writer.old writer.new (objects_shown outcome.now.book.now.rules
        (sale_of outcome.now.book.now) outcome.now.groups.now (outcome_seen outcome.now)) }
{
    add_outcome(writer, outcome);
    let proved = proved_of(outcome);
    add_proved(writer, proved.as_slice());
}

/// Adds the objects of an allocation for each group, of which nothing is shown, and last that nothing is proved. It takes no memory.
pub fn add_unshown<S: Sink>(
    alloc: Global,
    writer: &mut Writer<'_, S>,
    book: &ClosedBook,
    groups: &Groups,
    won: &[Allocation],
)
    requires count { length groups.now ≡ length won.now }
    requires first { starts_empty groups.now ≡ true }
    ensures { Adds S.state writer.old writer.new
        (objects_unshown book.now.rules (sale_of book.now) groups.now won.now) }
{
    let pricing = None;
    let others = OtherAwards::new(Vec::new(alloc), Further::Unknown);
    let outcome = Outcome {
        book,
        groups,
        won,
        pricing: &pricing,
        others: &others,
    };
    add_outcome(writer, &outcome);
    add_proved(writer, &[]);
}
