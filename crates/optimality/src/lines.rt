//! One line of a certificate: a split or a leaf, and the tree up to it.

ghost use Rattle.std.specs.Prelude.{◌≡◌, IfOk, false, length, IfErr, ◌==◌, bytes_eq, not, slice_index};
ghost use Rattle.auction_terms.specs.LineFields.{fields, is_skipped};
ghost use Rattle.optimality.specs.inside.Answers.{AnswersSeen, IsStopped, AnswersClosed};
ghost use Rattle.optimality.specs.Checking.{IsPrepared};
ghost use Rattle.optimality.specs.inside.Stopping.{RefusedLargeOnly};
ghost use Rattle.optimality.specs.LineMeaning.{SplitLine, BoundLine, parsed_certificate_line};
ghost use Rattle.optimality.specs.inside.LineMeaning.{split_after, bound_after};
ghost use Rattle.std.specs.List.{list_all};
ghost use Rattle.optimality.specs.inside.Branches.{branches_of, opened, AnswersAlike};
ghost use Rattle.optimality.specs.Branches.{closed};
ghost use Rattle.auction_terms.specs.Stages.{and_then};
ghost use Rattle.optimality.specs.Sizes.{IsLargeLine, IsLargeParsed};
ghost use Rattle.optimality.specs.Verdict.{open_after, taken};
ghost use Rattle.optimality.specs.Shows as shows;

use crate::checker::{Checker, Leaf, OpenSplit};
use crate::leaf_value::is_above;
use crate::refusal::Refusal;
use crate::row_forms::Form;
use crate::sums::{Sums, added_up};
use crate::terms::{Named, take_natural, take_naturals, take_number, take_terms};
use auction_terms::next_field;
use program_rows::{CertificateFaultKind, RowKind, Selection};

/// A split as its line describes it.
#[derive(Drop)]
pub struct ParsedSplit {
    pub form: Form,
    pub most: i64,
}

/// The split that a text describes.
fn take_split(checker: &Checker, text: &[u8]) -> Result<ParsedSplit, Refusal>
    requires { IsPrepared checker.now }
    ensures { AnswersSeen (λ split. SplitLine split.form.items split.most) result
        (split_after checker.now.program.now (fields text.now)) }
{
    let Some(token) = next_field(text) else {
        return Err(Refusal::Fault(CertificateFaultKind::Fields));
    };
    let most = take_number(token.text)?;
    let form = take_terms(checker, Named::Columns, token.rest)?;
    Ok(ParsedSplit { form, most })
}

/// Whether there is a row at this place that may have the multiplier.
fn may_have(program: &Selection<'_>, row: usize, multiplier: i64) -> bool
    ensures { result ≡ shows.may_have program.now.rows (row, multiplier) }
{
    if row >= program.row_count() {
        return false;
    }
    match program.row_kind(row) {
        RowKind::AtMost => multiplier >= 0,
        RowKind::AtLeast => multiplier <= 0,
        RowKind::Equal => true,
    }
}

fn are_signed(program: &Selection<'_>, rows: &[(usize, i64)]) -> bool
    ensures { result ≡ list_all (shows.may_have program.now.rows) rows.now }
{
    rows.iter().all(|t| may_have(program, t.0, t.1))
}

/// The leaf that a text describes, below as many splits as `depth`.
fn take_leaf(checker: &Checker, depth: usize, text: &[u8]) -> Result<Leaf, Refusal>
    requires { IsPrepared checker.now }
    ensures parsed { AnswersSeen (λ leaf. BoundLine leaf.scale leaf.multipliers.items leaf.rows.items)
        result (bound_after checker.now.program.now depth (fields text.now)) }
    ensures count { IfOk result (λ leaf. length leaf.multipliers.items ≡ depth) }
{
    let Some(token) = next_field(text) else {
        return Err(Refusal::Fault(CertificateFaultKind::Fields));
    };
    let scale = take_natural(token.text)?;
    let naturals = take_naturals(checker.alloc, depth, token.rest)?;
    let rows = take_terms(checker, Named::Rows, naturals.rest)?;
    if !are_signed(checker.program, rows.as_slice()) {
        return Err(Refusal::Fault(CertificateFaultKind::Sign));
    }
    Ok(Leaf {
        scale,
        multipliers: naturals.numbers,
        rows,
    })
}

/// Goes on to the next side that is to come. Whether there is none.
fn close(splits: &mut Vec<OpenSplit>) -> Result<bool, Refusal>
    ensures open { IfOk result (λ is_last. closed (branches_of splits.old.items)
        ≡ opened is_last splits.new.items) }
    ensures stopped { IfErr result IsStopped }
{
    while let Some(mut split) = splits.pop() {
        if !split.is_high {
            split.is_high = true;
            splits.push(split)?;
            return Ok(false);
        }
    }
    Ok(true)
}

fn is_word(text: &[u8], word: &[u8]) -> bool
    ensures { result ≡ bytes_eq text.now word.now }
{
    text == word
}

fn take_split_line(
    checker: &Checker,
    sums: &mut Sums,
    splits: &mut Vec<OpenSplit>,
    text: &[u8],
) -> Result<bool, Refusal>
    requires { IsPrepared checker.now }
    ensures value { AnswersAlike checker.now.program.now checker.now.least splits.new.items result
        (and_then (split_after checker.now.program.now (fields text.now))
        (taken checker.now.program.now checker.now.least (branches_of splits.old.items))) }
    ensures too_large { RefusedLargeOnly ⊥ result }
{
    let parsed = take_split(checker, text)?;
    // The numbers of each column are added up: a leaf below goes over each column once.
    let form = added_up(checker.alloc, sums, parsed.form.as_slice())?;
    splits.push(OpenSplit {
        form,
        most: i128::from(parsed.most),
        is_high: false,
    })?;
    Ok(false)
}

#[tactic(auto, using(crate::proofs::BranchFacts::cuts_are))]
fn take_leaf_line(
    checker: &Checker,
    sums: &mut Sums,
    splits: &mut Vec<OpenSplit>,
    text: &[u8],
) -> Result<bool, Refusal>
    requires { IsPrepared checker.now }
    ensures value { AnswersClosed (λ is_last. opened is_last splits.new.items) result
        (and_then (bound_after checker.now.program.now (length splits.old.items) (fields text.now))
        (taken checker.now.program.now checker.now.least (branches_of splits.old.items))) }
    ensures too_large { RefusedLargeOnly (IsLargeParsed checker.now.program.now checker.now.least
        (branches_of splits.old.items) (bound_after checker.now.program.now
        (length splits.old.items) (fields text.now))) result }
{
    let leaf = take_leaf(checker, splits.len(), text)?;
    if !is_above(checker, sums, splits.as_slice(), &leaf)? {
        return Err(Refusal::Fault(CertificateFaultKind::NotShown));
    }
    close(splits)
}

#[tactic(auto, using(crate::proofs::BranchFacts::length_branches, crate::proofs::LineFacts::line_by_word))]
fn take_line(
    checker: &Checker,
    sums: &mut Sums,
    splits: &mut Vec<OpenSplit>,
    line: &[u8],
) -> Result<bool, Refusal>
    requires { IsPrepared checker.now }
    ensures value { AnswersAlike checker.now.program.now checker.now.least splits.new.items result
        (and_then (parsed_certificate_line checker.now.program.now (length (branches_of splits.old.items))
        (fields line.now)) (taken checker.now.program.now checker.now.least
        (branches_of splits.old.items))) }
    ensures too_large { RefusedLargeOnly (IsLargeParsed checker.now.program.now checker.now.least
        (branches_of splits.old.items) (parsed_certificate_line checker.now.program.now
        (length (branches_of splits.old.items)) (fields line.now))) result }
{
    let Some(word) = next_field(line) else {
        return Err(Refusal::Fault(CertificateFaultKind::Fields));
    };
    if is_word(word.text, b"split") {
        return take_split_line(checker, sums, splits, word.rest);
    }
    if is_word(word.text, b"bound") {
        return take_leaf_line(checker, sums, splits, word.rest);
    }
    Err(Refusal::Fault(CertificateFaultKind::Fields))
}

fn is_comment(line: &[u8]) -> bool
    ensures { result ≡ (slice_index line.now 0 == 35) }
{
    if line.is_empty() {
        return false;
    }
    line[0] == b'#'
}

fn is_certificate_of(line: &[u8]) -> bool
    ensures { result ≡ not (is_skipped line.now) }
{
    !is_comment(line) && next_field(line).is_some()
}

/// Takes a line. `is_last` says whether the certificate is complete, before and after it; `sums` is room for a line.
pub fn take_any(
    checker: &Checker,
    sums: &mut Sums,
    splits: &mut Vec<OpenSplit>,
    is_last: bool,
    line: &[u8],
) -> Result<bool, Refusal>
    requires { IsPrepared checker.now }
    ensures value { AnswersAlike checker.now.program.now checker.now.least splits.new.items result
        (open_after checker.now.program.now checker.now.least (opened is_last splits.old.items)
        line.now) }
    ensures too_large { RefusedLargeOnly (IsLargeLine checker.now.program.now checker.now.least
        (opened is_last splits.old.items) line.now) result }
{
    if !is_certificate_of(line) {
        return Ok(is_last);
    }
    if is_last {
        return Err(Refusal::Fault(CertificateFaultKind::Beyond));
    }
    take_line(checker, sums, splits, line)
}
