//! The program of the kept bids with costs in parts of a pound, each raised by the surplus of its bidder.

ghost use Rattle.std.specs.Prelude.{◌≡◌, ◌+ℤ◌, ◌*ℤ◌, ◌≤◌, ◌≤ℤ◌, ◌<◌, ◌^◌, IfOk, Some, false, length, map, neg_ℤ, pos, slice_get};
ghost use Rattle.std.specs.Option.{option_map};
ghost use Rattle.auction_terms.specs.declared.limits.TheConstants.{GREATEST_AMOUNT, MOST_PARTS};
ghost use Rattle.auction_terms.specs.Allocations.{IsFeasible};
ghost use Rattle.auction_terms.specs.Keeping.{kept_of};
ghost use Rattle.auction_terms.specs.Terms.{lots_in};
ghost use Rattle.bid_desk.specs.Closing.{book_of};
ghost use Rattle.outcome.specs.PointAllocation.{IsMap};
ghost use Rattle.outcome.specs.Pricing.{price_in};
ghost use Rattle.prices.specs.Blocking.{ArePrices, surplus};
ghost use Rattle.prices.specs.Raised.{raised_bound, raised_cost, raised_program};
ghost use Rattle.program_rows.specs.Rows.{program_of};

use crate::payments::{Payments, revenue_of, surplus_of};
use program_rows::Program;
use std::alloc::{AllocError, Global};

/// The cost of a kept bid in parts of a pound, raised.
fn raised_by(parts: u64, cost: i64, raise: u64) -> i64
    requires parts { parts ≤ MOST_PARTS }
    requires low { neg_ℤ (pos GREATEST_AMOUNT) ≤ℤ cost }
    requires high { cost ≤ℤ pos 0 }
    requires raise { raise ≤ 10 ^ 18 }
    ensures { result ≡ (pos parts *ℤ cost) +ℤ pos raise }
{
    parts as i64 * cost + raise as i64
}

/// The raised cost of a column; 0 if the column is of no bid.
fn raised_cost(program: &Program, payments: &Payments<'_>, column: usize) -> i64
    requires program { program.now ≡ program_of (lots_in payments.now.book.now.rules)
        (kept_of (lots_in payments.now.book.now.rules) (book_of payments.now.book.now)
        (λ b. false)) }
    requires parts { payments.now.parts ≤ MOST_PARTS }
    requires prices { ArePrices (book_of payments.now.book.now) payments.now.first.now
        payments.now.parts (price_in payments.now.prices.now) }
    requires map { IsMap payments.now.first.now }
    requires within { column < length program.now.columns }
    ensures cost { option_map (raised_cost payments.now.parts (surplus
        (book_of payments.now.book.now) payments.now.first.now payments.now.parts
        (price_in payments.now.prices.now))) (slice_get program.now.columns column)
        ≡ Some result }
{
    payments.book.within_limits();
    match program.column_bid(column) {
        Some(bid) => raised_by(
            payments.parts,
            program.cost(column),
            surplus_of(payments, bid.bidder),
        ),
        None => 0,
    }
}

/// The raised costs of all columns.
fn raised_costs(
    alloc: Global,
    program: &Program,
    payments: &Payments<'_>,
) -> Result<Vec<i64>, AllocError>
    requires program { program.now ≡ program_of (lots_in payments.now.book.now.rules)
        (kept_of (lots_in payments.now.book.now.rules) (book_of payments.now.book.now)
        (λ b. false)) }
    requires parts { payments.now.parts ≤ MOST_PARTS }
    requires prices { ArePrices (book_of payments.now.book.now) payments.now.first.now
        payments.now.parts (price_in payments.now.prices.now) }
    requires map { IsMap payments.now.first.now }
    ensures costs { IfOk result (λ costs. costs.items ≡ map (raised_cost payments.now.parts
        (surplus (book_of payments.now.book.now) payments.now.first.now payments.now.parts
        (price_in payments.now.prices.now))) program.now.columns) }
{
    let mut costs = Vec::new(alloc);
    for column in 0..program.column_count() {
        costs.push(raised_cost(program, payments, column))?;
    }
    Ok(costs)
}

/// The program of the kept bids with the cost of each bid in parts of a pound, raised by the surplus of its bidder. The column of what
/// all lots are worth costs nothing in it.
pub fn raised(
    alloc: Global,
    program: Program,
    payments: &Payments<'_>,
) -> Result<Program, AllocError>
    requires program { program ≡ program_of (lots_in payments.now.book.now.rules)
        (kept_of (lots_in payments.now.book.now.rules) (book_of payments.now.book.now)
        (λ b. false)) }
    requires parts { payments.now.parts ≤ MOST_PARTS }
    requires prices { ArePrices (book_of payments.now.book.now) payments.now.first.now
        payments.now.parts (price_in payments.now.prices.now) }
    requires map { IsMap payments.now.first.now }
    ensures raised { IfOk result (λ all. all ≡ raised_program
        (lots_in payments.now.book.now.rules) (book_of payments.now.book.now)
        payments.now.first.now payments.now.parts (price_in payments.now.prices.now)) }
{
    let costs = raised_costs(alloc, &program, payments)?;
    Ok(program.with_costs(costs))
}

/// What no objective of it is to be below: what all lots are worth, less the seller's revenue.
pub fn raised_bound(payments: &Payments<'_>) -> i128
    requires feasible { IsFeasible (lots_in payments.now.book.now.rules)
        (book_of payments.now.book.now) (λ b. false) payments.now.first.now }
    requires parts { payments.now.parts ≤ MOST_PARTS }
    requires prices { ArePrices (book_of payments.now.book.now) payments.now.first.now
        payments.now.parts (price_in payments.now.prices.now) }
    ensures bound { result ≡ raised_bound (lots_in payments.now.book.now.rules)
        (book_of payments.now.book.now) payments.now.first.now payments.now.parts
        (price_in payments.now.prices.now) }
{
    let worth = u128::from(payments.parts) * u128::from(payments.book.rules().worth_of_all());
    worth as i128 - revenue_of(payments) as i128
}
