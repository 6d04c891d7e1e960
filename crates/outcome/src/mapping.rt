//! The allocation that a point wins.

ghost use Rattle.std.specs.Prelude.{◌≡◌, ◌<◌, ◌+◌, ◌==◌, ◌++◌, filter, length, IfOk, OnOk};
ghost use Rattle.std.specs.List.{range_with_len};
ghost use Rattle.auction_terms.specs.declared.limits.TheConstants.{MOST_BIDDERS};
ghost use Rattle.program_rows.specs.Faithful.{back};
ghost use Rattle.outcome.specs.PointAllocation.{allocation_of, IsMap};
ghost use Rattle.outcome.specs.inside.Winning.{by_bidder};

use crate::allocation::Allocation;
use auction_terms::{Choice, MOST_BIDDERS};
use program_rows::{Point, Program};
use std::alloc::{AllocError, Global};

/// Adds the choices of a bidder.
fn add_choices_of(list: &mut Vec<Choice>, choices: &[Choice], bidder: u16) -> Result<(), AllocError>
    ensures { OnOk result (list.new.items
        ≡ list.old.items ++ filter (λ c. c.bidder == bidder) choices.now) }
{
    for choice in choices {
        if choice.bidder == bidder {
            list.push(*choice)?;
        }
    }
    Ok(())
}

/// Choices of which no bidder has two, by rising bidder.
fn by_rising_bidder(alloc: Global, choices: &[Choice]) -> Result<Allocation, AllocError>
    requires map { IsMap choices.now }
    ensures { IfOk result (λ a. a ≡ by_bidder (range_with_len 1 MOST_BIDDERS) choices.now) }
{
    let mut list = Vec::new(alloc);
    for k in 0..MOST_BIDDERS as u16 {
        add_choices_of(&mut list, choices, k + 1)?;
    }
    Ok(Allocation::new(list))
}

/// The bids whose columns are 1, in the order of the columns.
fn bids_at_one(alloc: Global, program: &Program, point: &Point) -> Result<Vec<Choice>, AllocError>
    requires { length point.now ≡ length program.now.columns }
    ensures { IfOk result (λ bids. bids.items ≡ back program.now.columns point.now) }
{
    let mut bids = Vec::new(alloc);
    for column in 0..program.column_count() {
        if point.value(column) {
            if let Some(choice) = program.column_bid(column) {
                bids.push(choice)?;
            }
        }
    }
    Ok(bids)
}

/// The allocation that a point wins: bidder b gets bid j if the column `Xb_j` is 1.
pub fn map_back(alloc: Global, program: &Program, point: &Point) -> Result<Allocation, AllocError>
    requires sized { length point.now ≡ length program.now.columns }
    requires map { IsMap (back program.now.columns point.now) }
    ensures { IfOk result (λ a. a ≡ allocation_of program.now point.now) }
{
    let bids = bids_at_one(alloc, program, point)?;
    by_rising_bidder(alloc, &bids)
}
