//! What a leaf comes to.

ghost use Rattle.std.specs.Prelude.{◌≡◌, ◌≤◌, ◌*◌, ◌^◌, ◌-ℤ◌, ◌*ℤ◌, ◌+ℤ◌, ℕ, IfOk, IfSome, OnOk, int_lt, length, pos, unsigned_abs};
ghost use Rattle.std.specs.List.{enumerate_from, zip};
ghost use Rattle.optimality.specs.Adding.{number_at};
ghost use Rattle.optimality.specs.inside.Adding.{AreAlike, AreNoLarger, cuts_given, rows_given};
ghost use Rattle.optimality.specs.Checking.{AreRowsOf, IsPrepared};
ghost use Rattle.optimality.specs.Holding.{cuts_of};
ghost use Rattle.optimality.specs.Leaves.{value_of};
ghost use Rattle.optimality.specs.inside.Leaves.{reduced_size};
ghost use Rattle.optimality.specs.Certificates.{sum_of};
ghost use Rattle.optimality.specs.Reduced as reduced;
ghost use Rattle.optimality.specs.RowForms.{forms_held, row_forms as forms_of};
ghost use Rattle.optimality.specs.Stopping.{TooLargeOnly};
ghost use Rattle.optimality.specs.inside.Stopping.{given_size, right_size};
ghost use Rattle.optimality.specs.Sizes.{leaf_size};

use crate::arithmetic::{minus, plus, times};
use crate::by_columns::least_by_columns;
use crate::by_rows::{add_cuts, add_rows, cuts_right, least_total, rows_right};
use crate::checker::{Checker, Leaf, OpenSplit};
use crate::refusal::Limit;
use crate::row_forms::{RowForm, RowForms, row_forms};
use crate::sums::{Sums, added_up};
use program_rows::Selection;

/// Adds up what cuts and rows give the columns.
fn reduce(
    program: &Selection<'_>,
    forms: &[RowForm],
    sums: &mut Sums,
    splits: &[OpenSplit],
    leaf: &Leaf,
    rows: &[(usize, i128)],
) -> Result<(), Limit>
    requires forms { forms_held forms.now ≡ forms_of program.now }
    requires count { length leaf.now.multipliers.items ≡ length splits.now }
    ensures value { OnOk result ((q : ℕ) → number_at sums.new.numbers.items q
        ≡ cuts_given leaf.now.multipliers.items (cuts_of splits.now) q +ℤ rows_given rows.now
        (forms_of program.now) q) }
    ensures too_large { TooLargeOnly (2 ^ 126 ≤ given_size program.now.columns
        leaf.now.multipliers.items (cuts_of splits.now) rows.now) result }
{
    // The places of entries lie within the rows.
    program.well_formed();
    sums.clear();
    add_cuts(sums, leaf.multipliers.as_slice(), splits)?;
    add_rows(sums, forms, rows)
}

/// The least that the reduced costs come to, by the forms of the rows.
fn least_by_forms(
    checker: &Checker,
    all: &RowForms,
    sums: &mut Sums,
    splits: &[OpenSplit],
    leaf: &Leaf,
    rows: &[(usize, i128)],
) -> Result<i128, Limit>
    requires all { AreRowsOf checker.now.program.now all.now }
    requires count { length leaf.now.multipliers.items ≡ length splits.now }
    ensures value { IfOk result (λ n. n ≡ sum_of (λ e. reduced.least_part e.1.bounds
        (reduced.reduced leaf.now.scale leaf.now.multipliers.items (cuts_of splits.now) rows.now
        e.0 e.1)) (enumerate_from 0 checker.now.program.now.columns)) }
    ensures size { IfOk result (λ n. unsigned_abs n ≤ reduced_size checker.now.program.now
        splits.now leaf.now rows.now) }
    ensures too_large { TooLargeOnly (2 ^ 126 ≤ reduced_size checker.now.program.now splits.now
        leaf.now rows.now) result }
{
    // The places of entries lie within the rows.
    checker.program.well_formed();
    let alone = times(i128::from(leaf.scale), all.alone)?;
    reduce(
        checker.program,
        all.forms.as_slice(),
        sums,
        splits,
        leaf,
        rows,
    )?;
    least_total(checker.program, leaf.scale, alone, sums)
}

/// The least that the reduced costs come to.
fn least_of(
    checker: &Checker,
    sums: &mut Sums,
    splits: &[OpenSplit],
    leaf: &Leaf,
    rows: &[(usize, i128)],
) -> Result<i128, Limit>
    requires prepared { IsPrepared checker.now }
    requires count { length leaf.now.multipliers.items ≡ length splits.now }
    ensures value { IfOk result (λ n. n ≡ sum_of (λ e. reduced.least_part e.1.bounds
        (reduced.reduced leaf.now.scale leaf.now.multipliers.items (cuts_of splits.now) rows.now
        e.0 e.1)) (enumerate_from 0 checker.now.program.now.columns)) }
    ensures size { IfOk result (λ n. unsigned_abs n ≤ reduced_size checker.now.program.now
        splits.now leaf.now rows.now) }
    ensures too_large { TooLargeOnly (2 ^ 126 ≤ reduced_size checker.now.program.now splits.now
        leaf.now rows.now) result }
{
    match &checker.row_forms {
        Some(all) => least_by_forms(checker, all, sums, splits, leaf, rows),
        None => {
            let all = row_forms(checker.alloc, checker.program)?;
            least_by_forms(checker, &all, sums, splits, leaf, rows)
        }
    }
}

/// The right sides of cuts and rows, each times its multiplier.
fn right_of(
    program: &Selection<'_>,
    splits: &[OpenSplit],
    leaf: &Leaf,
    rows: &[(usize, i128)],
) -> Result<i128, Limit>
    requires { length leaf.now.multipliers.items ≡ length splits.now }
    ensures value { IfOk result (λ n. n ≡ sum_of (λ e. pos e.0 *ℤ e.1.most)
        (zip leaf.now.multipliers.items (cuts_of splits.now)) +ℤ sum_of (λ t. t.1
        *ℤ reduced.right_side_at program.now.rows t.0) rows.now) }
    ensures too_large { TooLargeOnly (2 ^ 126 ≤ right_size program.now.rows
        leaf.now.multipliers.items (cuts_of splits.now) rows.now) result }
{
    let of_cuts = cuts_right(leaf.multipliers.as_slice(), splits)?;
    let of_rows = rows_right(program, rows)?;
    plus(of_cuts, of_rows)
}

/// The value of a leaf by rows of which each place comes once or more, by the forms of these rows.
fn value_by_rows(
    checker: &Checker,
    sums: &mut Sums,
    splits: &[OpenSplit],
    leaf: &Leaf,
    rows: &[(usize, i128)],
) -> Result<i128, Limit>
    requires prepared { IsPrepared checker.now }
    requires count { length leaf.now.multipliers.items ≡ length splits.now }
    requires alike { AreAlike rows.now leaf.now.rows.items }
    requires size { AreNoLarger rows.now leaf.now.rows.items }
    ensures value { IfOk result (λ n. n ≡ value_of checker.now.program.now splits.now leaf.now) }
    ensures too_large { TooLargeOnly (2 ^ 126 ≤ leaf_size checker.now.program.now checker.now.least
        (cuts_of splits.now) leaf.now.scale leaf.now.multipliers.items leaf.now.rows.items)
        result }
{
    let bottom = least_of(checker, sums, splits, leaf, rows)?;
    let right = right_of(checker.program, splits, leaf, rows)?;
    minus(bottom, right)
}

/// The same over all columns; nothing if a number is beyond what that takes, or if there is no memory for it.
fn value_by_columns(
    checker: &Checker,
    splits: &[OpenSplit],
    leaf: &Leaf,
    rows: &[(usize, i128)],
) -> Option<i128>
    requires prepared { IsPrepared checker.now }
    requires count { length leaf.now.multipliers.items ≡ length splits.now }
    requires alike { AreAlike rows.now leaf.now.rows.items }
    ensures { IfSome result (λ n. n ≡ value_of checker.now.program.now splits.now leaf.now) }
{
    let bottom = least_by_columns(checker, splits, leaf, rows)?;
    let Ok(right) = right_of(checker.program, splits, leaf, rows) else {
        return None;
    };
    match minus(bottom, right) {
        Ok(value) => Some(value),
        Err(_) => None,
    }
}

/// How many terms the cuts have whose multiplier isn't 0.
fn cut_terms(multipliers: &[u64], splits: &[OpenSplit]) -> usize
    requires { length multipliers.now ≡ length splits.now }
{
    let mut count: usize = 0;
    for (i, split) in splits.iter().enumerate() {
        if multipliers[i] != 0 {
            count = count.saturating_add(split.form.len());
        }
    }
    count
}

/// How many entries the named rows have.
fn named_entries(forms: &[RowForm], rows: &[(usize, i128)]) -> usize {
    let mut count: usize = 0;
    for (row, _) in rows {
        if *row < forms.len() {
            count = count.saturating_add(forms[*row].len());
        }
    }
    count
}

/// Whether a leaf gives columns so many numbers that it takes less time to go over all columns.
fn gives_many(checker: &Checker, splits: &[OpenSplit], leaf: &Leaf, rows: &[(usize, i128)]) -> bool
    requires { length leaf.now.multipliers.items ≡ length splits.now }
{
    let Some(all) = &checker.row_forms else {
        return true;
    };
    let of_cuts = cut_terms(leaf.multipliers.as_slice(), splits);
    let count = named_entries(all.forms.as_slice(), rows).saturating_add(of_cuts);
    count >= checker.program.column_count() / 3
}

fn leaf_value(
    checker: &Checker,
    sums: &mut Sums,
    splits: &[OpenSplit],
    leaf: &Leaf,
) -> Result<i128, Limit>
    requires prepared { IsPrepared checker.now }
    requires count { length leaf.now.multipliers.items ≡ length splits.now }
    ensures value { IfOk result (λ n. n ≡ value_of checker.now.program.now splits.now leaf.now) }
    ensures too_large { TooLargeOnly (2 ^ 126 ≤ leaf_size checker.now.program.now checker.now.least
        (cuts_of splits.now) leaf.now.scale leaf.now.multipliers.items leaf.now.rows.items)
        result }
{
    let rows = added_up(checker.alloc, sums, leaf.rows.as_slice())?;
    if gives_many(checker, splits, leaf, rows.as_slice()) {
        if let Some(value) = value_by_columns(checker, splits, leaf, rows.as_slice()) {
            return Ok(value);
        }
    }
    value_by_rows(checker, sums, splits, leaf, rows.as_slice())
}

fn scaled_before(scale: u64, least: i128) -> Result<i128, Limit>
    ensures value { IfOk result (λ n. n ≡ pos scale *ℤ (least -ℤ pos 1)) }
    ensures too_large { TooLargeOnly (2 ^ 126 ≤ scale * unsigned_abs (least -ℤ pos 1)) result }
{
    // No bound is too large for a leaf of scale 0.
    if scale == 0 {
        return Ok(0);
    }
    let before = minus(least, 1)?;
    times(i128::from(scale), before)
}

/// Whether the value of a leaf is above `scale` times one less than the bound. `sums` is room that is kept from leaf to leaf.
pub fn is_above(
    checker: &Checker,
    sums: &mut Sums,
    splits: &[OpenSplit],
    leaf: &Leaf,
) -> Result<bool, Limit>
    requires prepared { IsPrepared checker.now }
    requires count { length leaf.now.multipliers.items ≡ length splits.now }
    ensures value { IfOk result (λ above. above
        ≡ int_lt (pos leaf.now.scale *ℤ (checker.now.least -ℤ pos 1))
        (value_of checker.now.program.now splits.now leaf.now)) }
    ensures too_large { TooLargeOnly (2 ^ 126 ≤ leaf_size checker.now.program.now checker.now.least
        (cuts_of splits.now) leaf.now.scale leaf.now.multipliers.items leaf.now.rows.items)
        result }
{
    let value = leaf_value(checker, sums, splits, leaf)?;
    let before = scaled_before(leaf.scale, checker.least)?;
    Ok(before < value)
}
