//! The least that all columns come to, by what cuts and rows give each of them. Each call answers nothing if a number is beyond what it
//! takes, or if there is no memory.

ghost use Rattle.std.specs.Prelude.{◌≡◌, IfSome, ◌<◌, ◌+ℤ◌, ◌*ℤ◌, Some, length, slice_get};
ghost use Rattle.optimality.specs.Adding.{AreGivenMore, AreNone};
ghost use Rattle.optimality.specs.inside.Adding.{AreOf, HaveRows, least_with};
ghost use Rattle.optimality.specs.inside.ByEntries.{columns_given, entries_given};
ghost use Rattle.std.specs.List.{enumerate_from};
ghost use Rattle.std.specs.Option.{option_map};
ghost use Rattle.optimality.specs.Certificates.{sum_of};
ghost use Rattle.optimality.specs.Checking.{IsPrepared};
ghost use Rattle.optimality.specs.Holding.{cuts_of};
ghost use Rattle.optimality.specs.Adding as adding;
ghost use Rattle.optimality.specs.Reduced as reduced;

use crate::arithmetic::{narrow, plus_multiple};
use crate::by_rows::least_part;
use crate::checker::{Checker, Leaf, OpenSplit};
use crate::narrow_sums;
use crate::narrow_sums::{add_at, number_at, zeros};
use program_rows::{Entries, Selection};
use std::alloc::Global;

/// Adds a multiplier at the place of each row that the leaf names.
fn add_multipliers(multipliers: &mut [i64], rows: &[(usize, i128)]) -> Option<()>
    requires { AreNone multipliers.old }
    ensures { IfSome result (λ _. AreOf rows.now multipliers.new) }
{
    for &(row, number) in rows {
        add_at(multipliers, row, narrow(number)?)?;
    }
    Some(())
}

/// What the rows of a column's entries give it.
fn given_by_rows(multipliers: &[i64], entries: &Entries<'_>) -> Option<i128>
    ensures { IfSome result (λ n. n ≡ entries_given multipliers.now entries.now) }
{
    let mut sum: i128 = 0;
    for i in 0..entries.len() {
        let (row, number) = entries.entry(i);
        sum = plus_multiple(sum, number_at(multipliers, row), number)?;
    }
    Some(sum)
}

/// Adds to each column what the rows of its entries give it.
fn add_columns(sums: &mut [i64], program: &Selection<'_>, multipliers: &[i64]) -> Option<()>
    ensures { IfSome result (λ _. AreGivenMore (columns_given multipliers.now 0
        program.now.columns) sums.old sums.new) }
{
    for column in 0..program.column_count() {
        let given = given_by_rows(multipliers, &program.entries(column))?;
        add_at(sums, column, narrow(given)?)?;
    }
    Some(())
}

/// Adds to each column what the rows give it, each times its multiplier, column by column.
fn add_rows_by_entries(
    alloc: Global,
    sums: &mut [i64],
    program: &Selection<'_>,
    rows: &[(usize, i128)],
) -> Option<()>
    ensures { IfSome result (λ _. HaveRows program.now rows.now sums.old sums.new) }
{
    // The places of entries lie within the rows.
    program.well_formed();
    let mut multipliers = zeros(alloc, program.row_count())?;
    add_multipliers(multipliers.as_mut_slice(), rows)?;
    add_columns(sums, program, multipliers.as_slice())
}

/// The same, by the forms of the rows if there are any.
fn add_rows(checker: &Checker, sums: &mut [i64], rows: &[(usize, i128)]) -> Option<()>
    requires { IsPrepared checker.now }
    ensures { IfSome result (λ _. HaveRows checker.now.program.now rows.now sums.old sums.new) }
{
    match &checker.row_forms {
        Some(all) => {
            // The places of entries lie within the rows.
            checker.program.well_formed();
            narrow_sums::add_rows(sums, all.forms.as_slice(), rows)
        }
        None => add_rows_by_entries(checker.alloc, sums, checker.program, rows),
    }
}

/// The least that a column contributes.
fn part_of(program: &Selection<'_>, scale: i64, given: &[i64], column: usize) -> Option<i128>
    requires { column < length program.now.columns }
    ensures { IfSome result (λ n. option_map (λ c. reduced.least_part c.bounds (scale *ℤ c.cost
        +ℤ adding.number_at given.now column)) (slice_get program.now.columns column) ≡ Some n) }
{
    let given = i128::from(number_at(given, column));
    let reduced_cost = plus_multiple(given, scale, program.cost(column))?;
    Some(least_part(program.bounds(column), reduced_cost))
}

/// The least that columns contribute that are given these numbers.
#[inline(never)]
fn least_given(program: &Selection<'_>, scale: i64, given: &[i64]) -> Option<i128>
    ensures { IfSome result (λ n. n ≡ least_with scale (adding.number_at given.now)
        program.now.columns) }
{
    let mut sum: i128 = 0;
    for column in 0..program.column_count() {
        sum = sum.checked_add(part_of(program, scale, given, column)?)?;
    }
    Some(sum)
}

/// The least that the reduced costs come to.
pub fn least_by_columns(
    checker: &Checker,
    splits: &[OpenSplit],
    leaf: &Leaf,
    rows: &[(usize, i128)],
) -> Option<i128>
    requires prepared { IsPrepared checker.now }
    requires count { length leaf.now.multipliers.items ≡ length splits.now }
    ensures { IfSome result (λ n. n ≡ sum_of (λ e. reduced.least_part e.1.bounds
        (reduced.reduced leaf.now.scale leaf.now.multipliers.items (cuts_of splits.now) rows.now
        e.0 e.1)) (enumerate_from 0 checker.now.program.now.columns)) }
{
    let mut given = zeros(checker.alloc, checker.program.column_count())?;
    narrow_sums::add_cuts(given.as_mut_slice(), leaf.multipliers.as_slice(), splits)?;
    add_rows(checker, given.as_mut_slice(), rows)?;
    let scale = narrow(i128::from(leaf.scale))?;
    least_given(checker.program, scale, given.as_slice())
}
