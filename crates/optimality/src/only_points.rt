//! Whether points are the only ones of the objective of the first of them, or less.

ghost use Rattle.std.specs.Prelude.{◌≡◌, ◌⊎◌, ◌+◌, ◌∷◌, ◌<◌, All, IfErr, IfOk, OnOk, if◌then◌else◌, length, neg_ℤ, pos};
ghost use Rattle.optimality.specs.Answers.{IsLimit, IsVerdict};
ghost use Rattle.optimality.specs.OnlyPoints as only;
ghost use Rattle.optimality.specs.OnlyPoints.{IsLargeOnlyAt, IsShownOnlyBy, all_but, all_others, free_ones, one_above, only_fault};
ghost use Rattle.optimality.specs.inside.Branches.{branch_of, branches_of};
ghost use Rattle.optimality.specs.Checking.{IsPrepared};
ghost use Rattle.program_rows.specs.declared.certificate_fault.CertificateFaultKind.TheVariants.{TooLarge};
ghost use Rattle.program_rows.specs.Only.{AreOnlyLeast};
ghost use Rattle.program_rows.specs.Points.{IsPoint, objective};

use crate::checker::{Checker, OpenSplit};
use crate::reader::{check_lines, new_checker, refused};
use crate::refusal::{Limit, Refusal};
use crate::sums::WideForm;
use program_rows::{Bounds, CertificateFault, Point, Program, Selection};
use std::alloc::{AllocError, Global};

fn is_zero_or_one(bounds: Bounds) -> bool
    ensures { result ≡ only.is_zero_or_one bounds }
{
    match bounds {
        Bounds::ZeroOrOne => true,
        Bounds::Zero | Bounds::One => false,
    }
}

/// The number of a column that is 1, or isn't, in the split's form.
fn number_of(is_one: bool) -> i128
    ensures { result ≡ (if is_one then neg_ℤ (pos 1) else pos 1) }
{
    if is_one { -1 } else { 1 }
}

/// The form of the split from a point.
fn distance(alloc: Global, program: &Selection<'_>, values: &Point) -> Result<WideForm, AllocError>
    requires { length values.now ≡ length program.now.columns }
    ensures { IfOk result (λ form. form.items ≡ only.distance 0 program.now.columns values.now) }
{
    let mut form = Vec::new(alloc);
    for column in 0..program.column_count() {
        let value = values.value(column);
        if is_zero_or_one(program.bounds(column)) {
            form.push((column, number_of(value)))?;
        }
    }
    Ok(form)
}

/// How many of the columns that may be 0 or 1 are 1.
fn free_ones(program: &Selection<'_>, values: &Point) -> usize
    requires { length values.now ≡ length program.now.columns }
    ensures { result ≡ free_ones program.now.columns values.now }
{
    let mut ones: usize = 0;
    for column in 0..program.column_count() {
        let value = values.value(column);
        if is_zero_or_one(program.bounds(column)) && value {
            ones += 1;
        }
    }
    ones
}

/// The split from a point, at the side of all others.
fn all_others(
    alloc: Global,
    program: &Selection<'_>,
    values: &Point,
) -> Result<OpenSplit, AllocError>
    requires { length values.now ≡ length program.now.columns }
    ensures { IfOk result (λ split. branch_of split ≡ all_others program.now values.now) }
{
    let form = distance(alloc, program, values)?;
    let ones = free_ones(program, values) as i128;
    Ok(OpenSplit {
        form,
        most: -ones,
        is_high: true,
    })
}

/// The splits from these points, that of the first one at the root.
fn open_splits(
    alloc: Global,
    program: &Selection<'_>,
    first: &Point,
    others: &[Point],
) -> Result<Vec<OpenSplit>, AllocError>
    requires first { length first.now ≡ length program.now.columns }
    requires others { All (λ values. length values ≡ length program.now.columns) others.now }
    ensures { IfOk result (λ splits. branches_of splits.items
        ≡ all_but program.now (first.now ∷ others.now)) }
{
    let mut splits = Vec::new(alloc);
    splits.push(all_others(alloc, program, first)?)?;
    for other in others {
        splits.push(all_others(alloc, program, other)?)?;
    }
    Ok(splits)
}

/// One more than the objective of the values. It is added up here from 1 on, which shows that there is room for it in 128 bits.
fn one_above(program: &Selection<'_>, values: &Point) -> i128
    requires { length values.now ≡ length program.now.columns }
    ensures { result ≡ one_above program.now values.now }
{
    let mut sum: i128 = 1;
    for column in 0..program.column_count() {
        let cost = program.cost(column);
        if values.value(column) {
            sum += i128::from(cost);
        }
    }
    sum
}

/// What a certificate is checked against, and the splits that are open above it.
#[derive(Drop)]
struct AfterSplits<'p> {
    checker: Checker<'p>,
    splits: Vec<OpenSplit>,
}

fn after_splits<'p>(
    alloc: Global,
    text: &[u8],
    program: &'p Selection<'p>,
    first: &Point,
    others: &[Point],
) -> Result<AfterSplits<'p>, AllocError>
    requires first { length first.now ≡ length program.now.columns }
    requires others { All (λ values. length values ≡ length program.now.columns) others.now }
    ensures prepared { IfOk result (λ start. IsPrepared start.checker) }
    ensures program { IfOk result (λ start. start.checker.program.now ≡ program.now) }
    ensures least { IfOk result (λ start. start.checker.least ≡ one_above program.now first.now) }
    ensures splits { IfOk result (λ start. branches_of start.splits.items
        ≡ all_but program.now (first.now ∷ others.now)) }
{
    let splits = open_splits(alloc, program, first, others)?;
    let checker = new_checker(alloc, text, program, one_above(program, first))?;
    Ok(AfterSplits { checker, splits })
}

/// Checks that a text describes a certificate that each point of the program but these has a higher objective than the first one. It is
/// judged after splits that part each of these points from all others, so that the first multipliers of each leaf are those of these
/// splits, in the order of the points.
pub fn check_only(
    alloc: Global,
    text: &[u8],
    program: &Program,
    first: &Point,
    others: &[Point],
) -> Result<(), CertificateFault>
    requires first { length first.now ≡ length program.now.columns }
    requires others { All (λ values. length values ≡ length program.now.columns) others.now }
    ensures only { OnOk result (IsPoint program.now first.now
        → All (IsPoint program.now) others.now
        → AreOnlyLeast program.now first.now others.now) }
    ensures shown { OnOk result (IsShownOnlyBy program.now first.now others.now text.now) }
    ensures refused { IfErr result (λ fault. IsLimit fault.kind
        ⊎ ¬ IsShownOnlyBy program.now first.now others.now text.now) }
    ensures first_fault { IsVerdict result
        (only_fault program.now first.now others.now text.now) }
    ensures too_large { IfErr result (λ fault. fault.kind ≡ TooLarge → IsLargeOnlyAt program.now
        first.now others.now text.now fault.line) }
{
    let selection = Selection::whole(program);
    match after_splits(alloc, text, &selection, first, others) {
        Ok(AfterSplits { checker, splits }) => check_lines(&checker, splits, text),
        Err(_) => Err(refused(0, Refusal::Stopped(Limit::Memory))),
    }
}
