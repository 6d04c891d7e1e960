//! A program of which each group's program is a selection.

ghost use Rattle.std.specs.Prelude.{◌≡◌, All, IfOk, Some, length, map};
ghost use Rattle.auction_terms.specs.Groups.{has};
ghost use Rattle.auction_terms.specs.Offers.{offers};
ghost use Rattle.auction_terms.specs.Terms.{lots_in};
ghost use Rattle.program_rows.specs.Selections as left;
ghost use Rattle.program_rows.specs.Selections.{owner_of, shared_of};

use crate::building::{add_lots, build};
use crate::program::Program;
use crate::rows::bidders;
use crate::selection::{Selected, Selection};
use crate::subject::Subject;
use auction_terms::{Group, Kept, KeptBid, Rules};
use std::alloc::{AllocError, Global};
use std::marker::Model;

/// The program of kept bids, made once: names, costs and entries are the same without a group, which only leaves out rows and
/// columns of its bidders.
#[derive(Drop)]
pub struct SharedProgram {
    program: Program,
    /// The bidder of each row that has one.
    rows: Vec<Option<u16>>,
    /// The bidder of each column that has one.
    columns: Vec<Option<u16>>,
}

impl Model for SharedProgram {
    ghost use Rattle.program_rows.specs.Selections.{Shared, shared};
    ghost use Rattle.program_rows.specs.inside.Sharing.{IsShared};

    ghost Value = { Shared };

    ghost view = { λ s. shared s.program s.rows.items s.columns.items };

    ghost invariant = { λ s. IsShared (shared s.program s.rows.items s.columns.items) };
}

fn owner_of(subject: Subject) -> Option<u16>
    ensures { result ≡ owner_of subject }
{
    match subject {
        Subject::Bidder(bidder) => Some(bidder),
        Subject::Category(_) | Subject::Pool(_) => None,
    }
}

fn owners_of(alloc: Global, subjects: &[Subject]) -> Result<Vec<Option<u16>>, AllocError>
    ensures { IfOk result (λ owners. owners.items ≡ map owner_of subjects.now) }
{
    let mut owners = Vec::new(alloc);
    for &subject in subjects {
        owners.push(owner_of(subject))?;
    }
    Ok(owners)
}

/// The bidder of each bid's column.
fn bid_owners(alloc: Global, kept: &[KeptBid<'_>]) -> Result<Vec<Option<u16>>, AllocError>
    ensures { IfOk result (λ owners. owners.items ≡ map (λ o. Some o.bidder) (offers kept.now)) }
{
    let mut owners = Vec::new(alloc);
    for bid in kept {
        owners.push(Some(bid.bidder))?;
    }
    Ok(owners)
}

/// The program of the kept bids, as `build` makes it.
pub fn build_shared(
    alloc: Global,
    rules: &Rules,
    kept: &Kept<'_>,
) -> Result<SharedProgram, AllocError>
    requires sized { All (λ k. length k.offer.now.package ≡ length rules.now.categories) kept.now }
    ensures { IfOk result (λ shared. shared ≡ shared_of (lots_in rules.now) (offers kept.now)) }
{
    rules.within_limits();
    let bids = kept.bids();
    let mut subjects = bidders(alloc, bids)?;
    add_lots(&mut subjects, rules)?;
    let rows = owners_of(alloc, &subjects)?;
    let mut columns = bid_owners(alloc, bids)?;
    if rules.worth_of_all() != 0 {
        columns.push(None)?;
    }
    let program = build(alloc, rules, kept)?;
    Ok(SharedProgram {
        program,
        rows,
        columns,
    })
}

fn is_out(group: &Group, owner: Option<u16>) -> bool
    ensures { result ≡ left.is_out (has group.now) owner }
{
    match owner {
        Some(bidder) => group.has(bidder),
        None => false,
    }
}

/// The places of those that stay without the group, which is searched from its start: neighbours mostly have the same owner, and
/// the same answer.
fn places_left(
    alloc: Global,
    group: &Group,
    owners: &[Option<u16>],
) -> Result<Vec<usize>, AllocError>
    ensures { IfOk result (λ places. places.items
        ≡ left.places_left (has group.now) 0 owners.now) }
{
    let mut places = Vec::with_capacity(alloc, owners.len())?;
    let mut last = None;
    let mut is_last_out = false;
    for (i, &owner) in owners.iter().enumerate() {
        if owner != last {
            is_last_out = is_out(group, owner);
            last = owner;
        }
        if !is_last_out {
            places.push(i)?;
        }
    }
    Ok(places)
}

/// How many of those that stay come before each one.
fn numbers_left(
    alloc: Global,
    group: &Group,
    owners: &[Option<u16>],
) -> Result<Vec<usize>, AllocError>
    ensures { IfOk result (λ numbers. numbers.items
        ≡ left.numbers_left (has group.now) 0 owners.now) }
{
    let mut numbers = Vec::new(alloc);
    let mut number = 0;
    for &owner in owners {
        numbers.push(number)?;
        if !is_out(group, owner) {
            number += 1;
        }
    }
    Ok(numbers)
}

impl SharedProgram {
    ghost use Rattle.std.specs.Prelude.{◌≡◌, IfOk};
    ghost use Rattle.auction_terms.specs.Groups.{has};
    ghost use Rattle.program_rows.specs.Selections.{selection_without};

    /// The program without a group: a selection of this one.
    pub fn without(&self, alloc: Global, group: &Group) -> Result<Selection<'_>, AllocError>
        ensures { IfOk result (λ selection. selection
            ≡ selection_without self.now (has group.now)) }
    {
        let rows = places_left(alloc, group, self.rows.as_slice())?;
        let columns = places_left(alloc, group, self.columns.as_slice())?;
        let numbers = numbers_left(alloc, group, self.rows.as_slice())?;
        let selected = Selected {
            rows,
            columns,
            numbers,
        };
        Ok(Selection::of(&self.program, selected))
    }
}
