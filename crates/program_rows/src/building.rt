// The program of a list of kept bids.
ghost use Rattle.std.specs.Prelude.{◌≡◌, ◌<◌, ◌+◌, ◌^◌, ◌++◌, All, codes, length, map, IfOk, OnOk};
ghost use Rattle.std.specs.List.{range_with_len};
ghost use Rattle.auction_terms.specs.Bids.{AreKept};
ghost use Rattle.auction_terms.specs.Offers.{offers};
ghost use Rattle.auction_terms.specs.Terms.{lots_in};
ghost use Rattle.program_rows.specs.declared.subject.Subject.TheVariants.{Category, Pool};
ghost use Rattle.program_rows.specs.Parts.{shown_row};
ghost use Rattle.program_rows.specs.Rows.{bidder_subjects, column_of, program_of, row_of, subjects as subjects_of};

use crate::column::Bounds;
use crate::columns::Columns;
use crate::entries::{MOST_ENTRIES, write_entries};
use crate::names::{NAME_LEN, objective_name, write_bid_name};
use crate::program::{Program, ProgramParts};
use crate::rows::{add_categories, add_pools, bidders, rows};
use crate::subject::Subject;
use auction_terms::{Kept, KeptBid, Rules};
use std::alloc::{AllocError, Global};

/// The columns of the kept bids, after the rows of bidders, which end at `first`.
fn columns(
    alloc: Global,
    rules: &Rules,
    subjects: &[Subject],
    first: usize,
    kept: &[KeptBid<'_>],
) -> Result<Columns, AllocError>
    requires sized { All (λ k. length k.offer.now.package ≡ length rules.now.categories) kept.now }
    requires kept { AreKept kept.now }
    requires rows { first < 2 ^ 31 }
    requires first { first ≡ length (bidder_subjects (offers kept.now)) }
    requires subjects { subjects.now ≡ subjects_of (lots_in rules.now) (offers kept.now) }
    ensures { IfOk result (λ columns. columns
        ≡ map (column_of (lots_in rules.now) subjects.now) (offers kept.now)) }
{
    let mut columns = Columns::new(alloc);
    let mut name = [0; NAME_LEN];
    let mut entries = [(0, 0); MOST_ENTRIES];
    // The row of the bidder that came last: the next one is the next bidder's.
    let mut place = 0;
    for &bid in kept {
        if subjects[place].weight(rules, bid) == 0 {
            place += 1;
        }
        let start = write_bid_name(&mut name, bid.bidder, bid.bid);
        let count = write_entries(&mut entries, place, first, rules, bid);
        let cost = -rules.net(bid.offer);
        columns.push(&name[start..], Bounds::ZeroOrOne, cost, &entries[..count])?;
    }
    Ok(columns)
}

/// Adds the categories and the pools to what there are rows for.
pub(crate) fn add_lots(subjects: &mut Vec<Subject>, rules: &Rules) -> Result<(), AllocError>
    ensures { OnOk result (subjects.new.items ≡ (subjects.old.items
        ++ map Category (range_with_len 0 (length rules.now.categories)))
        ++ map Pool (range_with_len 0 (length rules.now.pools))) }
{
    add_categories(subjects, rules.categories().len() as u8)?;
    add_pools(subjects, rules.pools().len() as u8)
}

/// What the program of the kept bids is made of; the rows of bidders end at `first`.
fn parts(
    alloc: Global,
    rules: &Rules,
    subjects: &[Subject],
    first: usize,
    kept: &[KeptBid<'_>],
) -> Result<ProgramParts, AllocError>
    requires sized { All (λ k. length k.offer.now.package ≡ length rules.now.categories) kept.now }
    requires kept { AreKept kept.now }
    requires rows { first < 2 ^ 31 }
    requires first { first ≡ length (bidder_subjects (offers kept.now)) }
    requires subjects { subjects.now ≡ subjects_of (lots_in rules.now) (offers kept.now) }
    ensures objective { IfOk result (λ parts. parts.objective_name.items ≡ codes "OBJ") }
    ensures rows { IfOk result (λ parts. map shown_row parts.rows.items
        ≡ map (row_of (lots_in rules.now)) subjects.now) }
    ensures columns { IfOk result (λ parts. parts.columns
        ≡ map (column_of (lots_in rules.now) subjects.now) (offers kept.now)) }
{
    let objective_name = objective_name(alloc)?;
    let rows = rows(alloc, rules, subjects)?;
    let columns = columns(alloc, rules, subjects, first, kept)?;
    Ok(ProgramParts {
        objective_name,
        rows,
        columns,
    })
}

/// The rows and the columns of the program of the kept bids, without the column `K`: what `build` makes if no lot has a value.
pub fn build_bids(alloc: Global, rules: &Rules, kept: &Kept<'_>) -> Result<ProgramParts, AllocError>
    requires sized { All (λ k. length k.offer.now.package ≡ length rules.now.categories) kept.now }
    ensures objective { IfOk result (λ parts. parts.objective_name.items ≡ codes "OBJ") }
    ensures rows { IfOk result (λ parts. map shown_row parts.rows.items
        ≡ map (row_of (lots_in rules.now)) (subjects_of (lots_in rules.now) (offers kept.now))) }
    ensures columns { IfOk result (λ parts. parts.columns
        ≡ map (column_of (lots_in rules.now) (subjects_of (lots_in rules.now) (offers kept.now)))
        (offers kept.now)) }
{
    let kept = kept.bids();
    let mut subjects = bidders(alloc, kept)?;
    let first = subjects.len();
    add_lots(&mut subjects, rules)?;
    parts(alloc, rules, &subjects, first, kept)
}

/// The program of the kept bids: the objective `OBJ`, a row `Bb` for each bidder with a bid, a row `Cc` for each category and a
/// row `Pp` for each pool, a column `Xb_j` for each bid, and a column `K` for what all lots are worth if that isn't 0.
pub fn build(alloc: Global, rules: &Rules, kept: &Kept<'_>) -> Result<Program, AllocError>
    requires sized { All (λ k. length k.offer.now.package ≡ length rules.now.categories) kept.now }
    ensures { IfOk result (λ program. program ≡ program_of (lots_in rules.now) (offers kept.now)) }
{
    rules.within_limits();
    // Its contract says that the bids are within limits.
    let _bids = kept.bids();
    let mut parts = build_bids(alloc, rules, kept)?;
    let worth = rules.worth_of_all();
    if worth != 0 {
        parts.columns.push(b"K", Bounds::One, -(worth as i64), &[])?;
    }
    Ok(Program::from_parts(parts))
}
