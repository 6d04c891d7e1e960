//! The least that a leaf's columns come to, by the rows and cuts that it names, in 128 bits.

ghost use Rattle.std.specs.Prelude.{◌≡◌, ◌<◌, ◌≤◌, ◌+◌, ◌*◌, ◌^◌, Some, IfOk, ◌+ℤ◌, ◌*ℤ◌, length, pos, unsigned_abs, OnOk};
ghost use Rattle.optimality.specs.Adding.{number_at, AreGivenMore, form_at};
ghost use Rattle.optimality.specs.inside.Adding.{change_at, least_with, sizes_below, cuts_given, form_given, rows_given};
ghost use Rattle.optimality.specs.Stopping.{TooLargeOnly};
ghost use Rattle.optimality.specs.inside.Stopping.{ReachesLimit};
ghost use Rattle.optimality.specs.Sizes.{costs_size, size_of};
ghost use Rattle.std.specs.List.{zip};
ghost use Rattle.optimality.specs.Holding.{cut_of, cuts_of};
ghost use Rattle.optimality.specs.Certificates.{sum_of};
ghost use Rattle.optimality.specs.inside.Sizes.{form_size};
ghost use Rattle.optimality.specs.RowForms.{forms_held};
ghost use Rattle.optimality.specs.Adding as adding;
ghost use Rattle.optimality.specs.Reduced as reduced;

use crate::arithmetic::{minus, plus, scaled, signed, times, wide_product};
use crate::checker::OpenSplit;
use crate::refusal::Limit;
use crate::row_forms::RowForm;
use crate::sums::{Sums, add_form, add_short_form, add_wide_form};
use program_rows::{Bounds, Selection};

pub fn least_part(bounds: Bounds, number: i128) -> i128
    ensures { result ≡ reduced.least_part bounds number }
{
    match bounds {
        Bounds::ZeroOrOne => { if number < 0 { number } else { 0 } }
        Bounds::Zero => 0,
        Bounds::One => number,
    }
}

/// The least that the costs alone come to. A scale is a factor of it, so that it is added up once for all leaves. There is room in
/// 128 bits for as many costs of 64 bits as there are places.
pub fn least_alone(program: &Selection<'_>) -> i128
    ensures { result ≡ adding.least_alone program.now.columns }
{
    let mut sum: i128 = 0;
    for column in 0..program.column_count() {
        sum += least_part(program.bounds(column), i128::from(program.cost(column)));
    }
    sum
}

/// By how much a number changes what a column contributes at least.
fn change(program: &Selection<'_>, scale: u64, column: usize, number: i128) -> Result<i128, Limit>
    ensures value { IfOk result (λ n. n ≡ change_at program.now.columns (pos scale) column number) }
    ensures too_large { TooLargeOnly ((column < length program.now.columns)
        × (2 ^ 126 ≤ scale * costs_size program.now.columns + unsigned_abs number)) result }
{
    if column >= program.column_count() {
        return Ok(0);
    }
    let bounds = program.bounds(column);
    let cost = scaled(scale, program.cost(column));
    let reduced = plus(cost, number)?;
    minus(least_part(bounds, reduced), least_part(bounds, cost))
}

/// The least that the columns contribute, given what their scaled costs alone come to. Takes the sums: a column that has none costs
/// nothing.
pub fn least_total(
    program: &Selection<'_>,
    scale: u64,
    alone: i128,
    sums: &mut Sums,
) -> Result<i128, Limit>
    requires { unsigned_abs alone ≤ scale * costs_size program.now.columns }
    ensures value { IfOk result (λ n. n +ℤ least_with (pos scale) (λ _. pos 0) program.now.columns
        ≡ alone +ℤ least_with (pos scale) (number_at sums.old.numbers.items) program.now.columns) }
    ensures size { IfOk result (λ n. unsigned_abs n ≤ scale * costs_size program.now.columns
        + sizes_below (length program.now.columns) sums.old.numbers.items) }
    ensures too_large { TooLargeOnly (2 ^ 126 ≤ scale * costs_size program.now.columns + sizes_below
        (length program.now.columns) sums.old.numbers.items) result }
{
    let mut total = alone;
    while let Some((column, number)) = sums.take() {
        total = plus(total, change(program, scale, column, number)?)?;
    }
    Ok(total)
}

fn add_cut(sums: &mut Sums, multiplier: u64, split: &OpenSplit) -> Result<(), Limit>
    ensures value { OnOk result (AreGivenMore (form_given (pos multiplier) (cut_of split.now).form)
        sums.old.numbers.items sums.new.numbers.items) }
    ensures too_large { TooLargeOnly (ReachesLimit sums.old.numbers.items (multiplier * form_size
        (cut_of split.now).form)) result }
{
    if multiplier == 0 {
        return Ok(());
    }
    let factor = signed(split.is_high, multiplier);
    add_wide_form(sums, factor, split.form.as_slice())
}

/// Adds the cuts, each times its multiplier.
pub fn add_cuts(sums: &mut Sums, multipliers: &[u64], splits: &[OpenSplit]) -> Result<(), Limit>
    requires { length multipliers.now ≡ length splits.now }
    ensures value { OnOk result (AreGivenMore (cuts_given multipliers.now (cuts_of splits.now))
        sums.old.numbers.items sums.new.numbers.items) }
    ensures too_large { TooLargeOnly (ReachesLimit sums.old.numbers.items (size_of (λ e. e.0
        * form_size e.1.form) (zip multipliers.now (cuts_of splits.now)))) result }
{
    for (i, split) in splits.iter().enumerate() {
        add_cut(sums, multipliers[i], split)?;
    }
    Ok(())
}

fn most_of(split: &OpenSplit) -> i128
    ensures { result ≡ (cut_of split.now).most }
{
    if split.is_high {
        -1 - split.most
    } else {
        split.most
    }
}

/// The sum of the right sides of the cuts, each times its multiplier.
pub fn cuts_right(multipliers: &[u64], splits: &[OpenSplit]) -> Result<i128, Limit>
    requires { length multipliers.now ≡ length splits.now }
    ensures value { IfOk result (λ n. n ≡ sum_of (λ e. pos e.0 *ℤ e.1.most)
        (zip multipliers.now (cuts_of splits.now))) }
    ensures too_large { TooLargeOnly (2 ^ 126 ≤ size_of (λ e. e.0 * unsigned_abs e.1.most)
        (zip multipliers.now (cuts_of splits.now))) result }
{
    let mut sum: i128 = 0;
    for (i, split) in splits.iter().enumerate() {
        let product = times(i128::from(multipliers[i]), most_of(split))?;
        sum = plus(sum, product)?;
    }
    Ok(sum)
}

fn add_row(sums: &mut Sums, forms: &[RowForm], row: usize, multiplier: i128) -> Result<(), Limit>
    ensures value { OnOk result (AreGivenMore (form_given multiplier
        (form_at (forms_held forms.now) row)) sums.old.numbers.items sums.new.numbers.items) }
    ensures too_large { TooLargeOnly (ReachesLimit sums.old.numbers.items (unsigned_abs multiplier
        * form_size (form_at (forms_held forms.now) row))) result }
{
    if row >= forms.len() {
        return Ok(());
    }
    let form = &forms[row];
    add_short_form(sums, multiplier, form.short.as_slice())?;
    add_form(sums, multiplier, form.rest.as_slice())
}

/// Adds the rows, each times its multiplier. A row that isn't named costs nothing.
pub fn add_rows(sums: &mut Sums, forms: &[RowForm], rows: &[(usize, i128)]) -> Result<(), Limit>
    ensures value { OnOk result (AreGivenMore (rows_given rows.now (forms_held forms.now))
        sums.old.numbers.items sums.new.numbers.items) }
    ensures too_large { TooLargeOnly (ReachesLimit sums.old.numbers.items
        (size_of (λ t. unsigned_abs t.1 * form_size (form_at (forms_held forms.now) t.0)) rows.now))
        result }
{
    for &(row, multiplier) in rows {
        add_row(sums, forms, row, multiplier)?;
    }
    Ok(())
}

/// The right side of the row at a place, 0 after the last one.
fn right_side_at(program: &Selection<'_>, row: usize) -> i64
    ensures { result ≡ reduced.right_side_at program.now.rows row }
{
    if row < program.row_count() {
        program.right_side(row)
    } else {
        0
    }
}

/// The sum of the right sides of rows, each times its multiplier.
pub fn rows_right(program: &Selection<'_>, rows: &[(usize, i128)]) -> Result<i128, Limit>
    ensures value { IfOk result (λ n. n ≡ sum_of (λ t. t.1
        *ℤ reduced.right_side_at program.now.rows t.0) rows.now) }
    ensures too_large { TooLargeOnly (2 ^ 126 ≤ size_of (λ t. unsigned_abs t.1 * unsigned_abs
        (reduced.right_side_at program.now.rows t.0)) rows.now) result }
{
    let mut sum: i128 = 0;
    for &(row, multiplier) in rows {
        let right_side = i128::from(right_side_at(program, row));
        let product = wide_product(multiplier, right_side)?;
        sum = plus(sum, product)?;
    }
    Ok(sum)
}
