//! Writing allocations and reports.

ghost use Rattle.std.specs.Prelude.{◌≡◌, ◌<◌, ◌++◌, [], length, slice_index_or, false, true};
ghost use Rattle.auction_terms.specs.Allocations.{IsFeasible};
ghost use Rattle.auction_terms.specs.Groups.{starts_empty};
ghost use Rattle.auction_terms.specs.Terms.{lots_in};
ghost use Rattle.bid_desk.specs.Closing.{book_of};
ghost use Rattle.byte_sinks.specs.Sinks.{Sends};
ghost use Rattle.byte_sinks.specs.Adds.{Adds};
ghost use Rattle.bid_desk.specs.Sale.{sale_of};
ghost use Rattle.outcome.specs.Pricing.{pricing_text};
ghost use Rattle.outcome.specs.Report.{allocation_text, report_text};
ghost use Rattle.outcome.specs.Others.{others_text};

use crate::allocation::Allocation;
use crate::others::{OtherAwards, add_others};
use crate::pricing::{Pricing, add_pricing};
use crate::report_lines::{add_allocation, add_groups};
use auction_terms::Groups;
use bid_desk::ClosedBook;
use byte_sinks::{Sink, WriteFault, Writer};

/// Writes the winners and the total of an allocation that is feasible with nobody left out. It takes no memory.
pub fn write_allocation<S: Sink>(
    book: &ClosedBook,
    allocation: &Allocation,
    sink: &mut S,
) -> Result<(), WriteFault>
    requires feasible { IsFeasible (lots_in book.now.rules) (book_of book.now) (λ b. false)
        allocation.now }
    ensures { Sends (S.state sink.old) (S.state sink.new) result (allocation_text (sale_of book.now) allocation.now) }
{
    let mut writer = Writer::new(sink);
    add_allocation(&mut writer, book, allocation.choices());
    writer.flush()
}

/// Adds a report.
fn add_report<S: Sink>(
    writer: &mut Writer<'_, S>,
    book: &ClosedBook,
    groups: &Groups,
    allocations: &[Allocation],
)
    requires count { length groups.now ≡ length allocations.now }
    requires some { 0 < length allocations.now }
    ensures { Adds S.state writer.old writer.new
        (report_text (sale_of book.now) groups.now allocations.now) }
{
    add_groups(writer, book, allocations[0].choices(), groups, allocations);
}

/// Writes an allocation for each group, the first of them for the empty group: each with its total and the group's opportunity cost. It takes no memory.
pub fn report<S: Sink>(
    book: &ClosedBook,
    groups: &Groups,
    allocations: &[Allocation],
    sink: &mut S,
) -> Result<(), WriteFault>
    requires count { length groups.now ≡ length allocations.now }
    requires first { starts_empty groups.now ≡ true }
    ensures { Sends (S.state sink.old) (S.state sink.new) result (report_text (sale_of book.now) groups.now allocations.now) }
{
    let mut writer = Writer::new(sink);
    add_report(&mut writer, book, groups, allocations);
    writer.flush()
}

/// Adds the same report, and after it what the winners pay and what is known of other awards of the same total.
pub fn add_report_with<S: Sink>(
    writer: &mut Writer<'_, S>,
    book: &ClosedBook,
    groups: &Groups,
    allocations: &[Allocation],
    pricing: &Option<Pricing>,
    others: &OtherAwards,
)
    requires count { length groups.now ≡ length allocations.now }
    requires first { starts_empty groups.now ≡ true }
    ensures { Adds S.state writer.old writer.new (report_text (sale_of book.now) groups.now allocations.now
        ++ (pricing_text (sale_of book.now) (slice_index_or allocations.now 0 []) pricing.now
        ++ others_text (sale_of book.now) others.now)) }
{
    add_report(writer, book, groups, allocations);
    add_pricing(writer, book, &allocations[0], pricing);
    add_others(writer, book, others);
}

/// Writes what `add_report_with` adds. It takes no memory.
pub fn report_with<S: Sink>(
    book: &ClosedBook,
    groups: &Groups,
    allocations: &[Allocation],
    pricing: &Option<Pricing>,
    others: &OtherAwards,
    sink: &mut S,
) -> Result<(), WriteFault>
    requires count { length groups.now ≡ length allocations.now }
    requires first { starts_empty groups.now ≡ true }
    ensures { Sends (S.state sink.old) (S.state sink.new) result (report_text (sale_of book.now) groups.now allocations.now
        ++ (pricing_text (sale_of book.now) (slice_index_or allocations.now 0 []) pricing.now
        ++ others_text (sale_of book.now) others.now)) }
{
    let mut writer = Writer::new(sink);
    add_report_with(&mut writer, book, groups, allocations, pricing, others);
    writer.flush()
}
