//! Sums by place in 64 bits, for a leaf that gives numbers to many columns. Each call answers nothing if a number leaves 64 bits, or
//! if a place isn't there.

ghost use Rattle.std.specs.Int.{w64};
ghost use Rattle.std.specs.Prelude.{◌≡◌, ◌<◌, ◌≤◌, ◌≤ℤ◌, ◌+ℤ◌, ◌*ℤ◌, ◌^◌, FitsSigned, IfSome, MatchOption, length, neg_ℤ, pos, unsigned_abs};
ghost use Rattle.optimality.specs.Adding as adding;
ghost use Rattle.optimality.specs.Adding.{AreGivenMore, AreNone, at_place, form_at};
ghost use Rattle.optimality.specs.inside.Adding.{cuts_given, form_given, rows_given};
ghost use Rattle.optimality.specs.Holding.{cut_of, cuts_of};
ghost use Rattle.optimality.specs.RowForms.{forms_held};

use crate::arithmetic::{narrow, plus_multiple, signed};
use crate::checker::OpenSplit;
use crate::row_forms::RowForm;
use std::alloc::Global;

/// 2^47: the product of a factor up to here and a number of 16 bits is 2^62 at most.
const MOST_FACTOR: i64 = 140_737_488_355_328;

/// 2^62.
const MOST_SUM: i64 = 4_611_686_018_427_387_904;

/// So many sums of 0; nothing if there is no memory.
pub fn zeros(alloc: Global, count: usize) -> Option<Vec<i64>>
    ensures { IfSome result (λ sums. AreNone sums.items) }
{
    vec![in alloc; 0; count].ok()
}

pub fn number_at(sums: &[i64], place: usize) -> i64
    ensures { result ≡ adding.number_at sums.now place }
{
    if place < sums.len() { sums[place] } else { 0 }
}

/// Adds a number at a place.
pub fn add_at(sums: &mut [i64], place: usize, number: i64) -> Option<()>
    ensures { MatchOption result (place < length sums.old → ¬ FitsSigned w64
        (adding.number_at sums.old place +ℤ number))
        (λ _. AreGivenMore (at_place place number) sums.old sums.new) }
{
    if place >= sums.len() {
        return None;
    }
    let sum = sums[place].checked_add(number)?;
    sums[place] = sum;
    Some(())
}

/// Adds a number up to 2^62 to a sum within that, which is a cheaper test than a checked sum.
fn add_small(sums: &mut [i64], place: usize, number: i64) -> Option<()>
    requires low { neg_ℤ (pos (2 ^ 62)) ≤ℤ number }
    requires high { number ≤ℤ pos (2 ^ 62) }
    ensures { MatchOption result (place < length sums.old → 2 ^ 62 ≤ unsigned_abs
        (adding.number_at sums.old place))
        (λ _. AreGivenMore (at_place place number) sums.old sums.new) }
{
    if place >= sums.len() {
        return None;
    }
    let sum = sums[place];
    if sum < -MOST_SUM || sum >= MOST_SUM {
        return None;
    }
    sums[place] = sum + number;
    Some(())
}

/// Adds a product, which is calculated in 128 bits by one instruction, and so is its sum.
fn add_product(sums: &mut [i64], factor: i64, place: usize, number: i64) -> Option<()>
    ensures { IfSome result (λ _. AreGivenMore (at_place place (factor *ℤ number)) sums.old
        sums.new) }
{
    if place >= sums.len() {
        return None;
    }
    let sum = plus_multiple(i128::from(sums[place]), factor, number)?;
    let next = narrow(sum)?;
    sums[place] = next;
    Some(())
}

/// Adds a multiple of a form.
#[inline(never)]
fn add_form(sums: &mut [i64], factor: i64, form: &[(usize, i64)]) -> Option<()>
    ensures { IfSome result (λ _. AreGivenMore (form_given factor form.now) sums.old sums.new) }
{
    for &(place, number) in form {
        add_product(sums, factor, place, number)?;
    }
    Some(())
}

/// The same of short numbers by a factor whose products with them are 2^62 at most.
#[inline(never)]
fn add_short_products(sums: &mut [i64], factor: i64, form: &[(u32, i16)]) -> Option<()>
    requires low { neg_ℤ (pos (2 ^ 47)) ≤ℤ factor }
    requires high { factor ≤ℤ pos (2 ^ 47) }
    ensures { IfSome result (λ _. AreGivenMore (form_given factor form.now) sums.old sums.new) }
{
    for &(place, number) in form {
        add_small(sums, place as usize, factor * i64::from(number))?;
    }
    Some(())
}

/// The same by any factor.
fn add_short_form(sums: &mut [i64], factor: i64, form: &[(u32, i16)]) -> Option<()>
    ensures { IfSome result (λ _. AreGivenMore (form_given factor form.now) sums.old sums.new) }
{
    if -MOST_FACTOR <= factor && factor <= MOST_FACTOR {
        return add_short_products(sums, factor, form);
    }
    for &(place, number) in form {
        add_product(sums, factor, place as usize, i64::from(number))?;
    }
    Some(())
}

/// The same of a form of sums.
#[inline(never)]
fn add_wide_form(sums: &mut [i64], factor: i64, form: &[(usize, i128)]) -> Option<()>
    ensures { IfSome result (λ _. AreGivenMore (form_given factor form.now) sums.old sums.new) }
{
    for &(place, number) in form {
        add_product(sums, factor, place, narrow(number)?)?;
    }
    Some(())
}

fn add_cut(sums: &mut [i64], multiplier: u64, split: &OpenSplit) -> Option<()>
    ensures { IfSome result (λ _. AreGivenMore (form_given (pos multiplier) (cut_of split.now).form)
        sums.old sums.new) }
{
    if multiplier == 0 {
        return Some(());
    }
    let factor = narrow(signed(split.is_high, multiplier))?;
    add_wide_form(sums, factor, split.form.as_slice())
}

/// Adds the cuts, each times its multiplier.
pub fn add_cuts(sums: &mut [i64], multipliers: &[u64], splits: &[OpenSplit]) -> Option<()>
    requires { length multipliers.now ≡ length splits.now }
    ensures { IfSome result (λ _. AreGivenMore (cuts_given multipliers.now (cuts_of splits.now))
        sums.old sums.new) }
{
    for (i, split) in splits.iter().enumerate() {
        add_cut(sums, multipliers[i], split)?;
    }
    Some(())
}

fn add_row(sums: &mut [i64], forms: &[RowForm], row: usize, multiplier: i128) -> Option<()>
    ensures { IfSome result (λ _. AreGivenMore (form_given multiplier
        (form_at (forms_held forms.now) row)) sums.old sums.new) }
{
    if row >= forms.len() {
        return None;
    }
    let factor = narrow(multiplier)?;
    let form = &forms[row];
    add_short_form(sums, factor, form.short.as_slice())?;
    add_form(sums, factor, form.rest.as_slice())
}

/// Adds rows, which are forms, each times its multiplier.
pub fn add_rows(sums: &mut [i64], forms: &[RowForm], rows: &[(usize, i128)]) -> Option<()>
    ensures { IfSome result (λ _. AreGivenMore (rows_given rows.now (forms_held forms.now)) sums.old
        sums.new) }
{
    for &(row, multiplier) in rows {
        add_row(sums, forms, row, multiplier)?;
    }
    Some(())
}
