// What a program has rows for, and the rows.
ghost use Rattle.std.specs.Prelude.{◌≡◌, ◌++◌, All, map, IfOk, OnOk};
ghost use Rattle.std.specs.List.{range_with_len};
ghost use Rattle.auction_terms.specs.Bids.{AreKept};
ghost use Rattle.auction_terms.specs.Offers.{offers};
ghost use Rattle.auction_terms.specs.Terms.{lots_in};
ghost use Rattle.program_rows.specs.declared.subject.Subject.TheVariants.{Category, Pool};
ghost use Rattle.program_rows.specs.inside.Building.{IsThere};
ghost use Rattle.program_rows.specs.Parts.{shown_row};
ghost use Rattle.program_rows.specs.Rows.{bidder_subjects, row_of};

use crate::row::Row;
use crate::subject::Subject;
use auction_terms::{KeptBid, Rules};
use std::alloc::{AllocError, Global};

/// The bidders with a bid.
pub(crate) fn bidders(alloc: Global, kept: &[KeptBid<'_>]) -> Result<Vec<Subject>, AllocError>
    requires { AreKept kept.now }
    ensures { IfOk result (λ subjects. subjects.items ≡ bidder_subjects (offers kept.now)) }
{
    let mut subjects = Vec::new(alloc);
    let mut last = 0;
    for bid in kept {
        if bid.bidder != last {
            subjects.push(Subject::Bidder(bid.bidder))?;
            last = bid.bidder;
        }
    }
    Ok(subjects)
}

/// Adds so many categories.
pub(crate) fn add_categories(subjects: &mut Vec<Subject>, count: u8) -> Result<(), AllocError>
    ensures { OnOk result (subjects.new.items
        ≡ subjects.old.items ++ map Category (range_with_len 0 count)) }
{
    for place in 0..count {
        subjects.push(Subject::Category(place))?;
    }
    Ok(())
}

/// Adds so many pools.
pub(crate) fn add_pools(subjects: &mut Vec<Subject>, count: u8) -> Result<(), AllocError>
    ensures { OnOk result (subjects.new.items
        ≡ subjects.old.items ++ map Pool (range_with_len 0 count)) }
{
    for place in 0..count {
        subjects.push(Subject::Pool(place))?;
    }
    Ok(())
}

/// The rows of subjects.
pub(crate) fn rows(
    alloc: Global,
    rules: &Rules,
    subjects: &[Subject],
) -> Result<Vec<Row>, AllocError>
    requires { All (IsThere (lots_in rules.now)) subjects.now }
    ensures { IfOk result (λ rows. map shown_row rows.items
        ≡ map (row_of (lots_in rules.now)) subjects.now) }
{
    let mut rows = Vec::new(alloc);
    for subject in subjects {
        rows.push(subject.row(alloc, rules)?)?;
    }
    Ok(rows)
}
