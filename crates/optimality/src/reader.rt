//! The pass over a certificate's lines, and what it shows.

ghost use Rattle.std.specs.Prelude.{◌≡◌, ◌⊎◌, IfErr, IfOk, Ok, OnOk, Some, length};
ghost use Rattle.optimality.specs.Answers.{IsLimit, IsVerdict};
ghost use Rattle.optimality.specs.inside.Answers.{IsRefusedCertificate};
ghost use Rattle.optimality.specs.Checking.{IsPrepared};
ghost use Rattle.optimality.specs.Laws.{IsBound};
ghost use Rattle.optimality.specs.Sizes.{IsLargeAt, IsLargeFrom};
ghost use Rattle.program_rows.specs.declared.certificate_fault.CertificateFaultKind.TheVariants.{TooLarge};
ghost use Rattle.optimality.specs.CertificateText.{IsShownBy};
ghost use Rattle.optimality.specs.Verdict.{certificate_fault, fault_from};
ghost use Rattle.optimality.specs.inside.Branches.{branches_of};
ghost use Rattle.auction_terms.specs.Lines.{lines_of};
ghost use Rattle.program_rows.specs.Faithful.{IsLeast};
ghost use Rattle.program_rows.specs.Points.{objective};

use crate::checker::{Checker, OpenSplit};
use crate::lines::take_any;
use crate::refusal::{Limit, Refusal};
use crate::row_forms::row_forms;
use crate::sums::Sums;
use crate::terms::row_names;
use auction_terms::LineReader;
use program_rows::{CertificateFault, CertificateFaultKind, Point, Program, Selection};
use std::alloc::{AllocError, Global};
use std::cell::Cell;

pub fn refused(line: usize, refusal: Refusal) -> CertificateFault
    ensures { IsRefusedCertificate line refusal result }
{
    let kind = match refusal {
        Refusal::Stopped(Limit::Memory) => CertificateFaultKind::OutOfMemory,
        Refusal::Stopped(Limit::TooLarge) => CertificateFaultKind::TooLarge,
        Refusal::Fault(kind) => kind,
    };
    CertificateFault { line, kind }
}

/// Checks that a text describes a certificate below the splits that are open.
pub fn check_lines(
    checker: &Checker,
    open_splits: Vec<OpenSplit>,
    text: &[u8],
) -> Result<(), CertificateFault>
    requires { IsPrepared checker.now }
    ensures first { IsVerdict result (fault_from checker.now.program.now checker.now.least
        (Ok (Some (branches_of open_splits.items))) 0 (lines_of text.now)) }
    ensures too_large { IfErr result (λ fault. fault.kind ≡ TooLarge → IsLargeFrom
        checker.now.program.now checker.now.least (Ok (Some (branches_of open_splits.items))) 0
        (lines_of text.now) fault.line) }
{
    let mut sums = Sums::new(checker.alloc);
    let mut splits = open_splits;
    let mut is_last = false;
    let mut lines = LineReader::new(text);
    let mut place: usize = 0;
    while let Some(line) = lines.next() {
        place += 1;
        is_last = match take_any(checker, &mut sums, &mut splits, is_last, line) {
            Ok(is_last_then) => is_last_then,
            Err(refusal) => return Err(refused(place, refusal)),
        };
    }
    if is_last {
        return Ok(());
    }
    Err(CertificateFault {
        line: place,
        kind: CertificateFaultKind::NoEnd,
    })
}

/// Whether a text has more than two lines, and so maybe many leaves.
fn has_many_lines(text: &[u8]) -> bool {
    let mut lines = LineReader::new(text);
    lines.next();
    lines.next();
    lines.next().is_some()
}

/// What a text is checked against.
pub fn new_checker<'p>(
    alloc: Global,
    text: &[u8],
    program: &'p Selection<'p>,
    least: i128,
) -> Result<Checker<'p>, AllocError>
    ensures prepared { IfOk result (λ checker. IsPrepared checker) }
    ensures program { IfOk result (λ checker. checker.program.now ≡ program.now) }
    ensures least { IfOk result (λ checker. checker.least ≡ least) }
{
    let row_forms = if has_many_lines(text) {
        Some(row_forms(alloc, program)?)
    } else {
        None
    };
    let rows = row_names(alloc, program)?;
    Ok(Checker {
        alloc,
        program,
        next_column: Cell::new(0),
        rows,
        next_row: Cell::new(0),
        row_forms,
        least,
    })
}

/// Checks that a text describes a certificate that no point of a program has an objective below `least`, where the program is a selection
/// of another one.
pub fn check_selection(
    alloc: Global,
    text: &[u8],
    program: &Selection<'_>,
    least: i128,
) -> Result<(), CertificateFault>
    ensures sound { OnOk result (IsBound program.now least) }
    ensures shown { OnOk result (IsShownBy program.now least text.now) }
    ensures refused { IfErr result (λ fault. IsLimit fault.kind
        ⊎ ¬ IsShownBy program.now least text.now) }
    ensures first { IsVerdict result (certificate_fault program.now least text.now) }
    ensures too_large { IfErr result (λ fault. fault.kind ≡ TooLarge → IsLargeAt program.now least
        text.now fault.line) }
{
    match new_checker(alloc, text, program, least) {
        Ok(checker) => check_lines(&checker, Vec::new(alloc), text),
        Err(_) => Err(refused(0, Refusal::Stopped(Limit::Memory))),
    }
}

/// Checks that a text describes a certificate that no point of the program has an objective below `least`.
pub fn check_certificate(
    alloc: Global,
    text: &[u8],
    program: &Program,
    least: i128,
) -> Result<(), CertificateFault>
    ensures sound { OnOk result (IsBound program.now least) }
    ensures shown { OnOk result (IsShownBy program.now least text.now) }
    ensures refused { IfErr result (λ fault. IsLimit fault.kind
        ⊎ ¬ IsShownBy program.now least text.now) }
    ensures first { IsVerdict result (certificate_fault program.now least text.now) }
    ensures too_large { IfErr result (λ fault. fault.kind ≡ TooLarge → IsLargeAt program.now least
        text.now fault.line) }
{
    let selection = Selection::whole(program);
    check_selection(alloc, text, &selection, least)
}

/// Checks that a text describes a certificate that no point of the program has a lower objective than these values.
pub fn check_optimum(
    alloc: Global,
    text: &[u8],
    program: &Program,
    values: &Point,
) -> Result<(), CertificateFault>
    requires { length values.now ≡ length program.now.columns }
    ensures least { OnOk result (IsLeast program.now values.now) }
    ensures first { IsVerdict result (certificate_fault program.now
        (objective program.now values.now) text.now) }
    ensures too_large { IfErr result (λ fault. fault.kind ≡ TooLarge → IsLargeAt program.now
        (objective program.now values.now) text.now fault.line) }
{
    check_certificate(alloc, text, program, program.objective(values))
}
