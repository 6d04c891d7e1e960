//! What is wrong with a certificate.

ghost use Rattle.std.specs.Prelude.{◌≡◌, Some};
ghost use Rattle.auction_terms.specs.Wording.{wording_text};
ghost use Rattle.program_rows.specs.CertificateFaultText.{certificate_fault_text};

use auction_terms::Wording;
use std::fmt;
use thiserror::Error;

/// What is wrong with a certificate.
#[derive(Clone, Copy, Debug, PartialEq, Eq)]
pub enum CertificateFaultKind {
    /// The size of a leaf is 2^126 or more. Such a leaf may be refused if it has none of the faults from `Fields` to
    /// `Sign`.
    TooLarge,
    /// The line comes after the end of the tree.
    Beyond,
    /// The word is neither `split` nor `bound`; or a number is missing, after the word, for a split above, or after a
    /// name.
    Fields,
    /// The field isn't a whole number.
    NumberText,
    /// The number is beyond the limits of numbers.
    NumberRange,
    /// The program has no such column.
    UnknownColumn,
    /// The program has no such row. The objective isn't a row.
    UnknownRow,
    /// A scale, or a multiplier of a split or row, has the wrong sign.
    Sign,
    /// A leaf doesn't show the bound: the certificate is wrong or that of another program, or the solution isn't optimal.
    NotShown,
    /// The text ends before the tree does. The line is the last one.
    NoEnd,
    OutOfMemory,
}

/// What is wrong with a certificate, and in which line. Lines are counted from 1.
#[derive(Clone, Copy, Debug, PartialEq, Eq, Error)]
pub struct CertificateFault {
    pub line: usize,
    pub kind: CertificateFaultKind,
}

impl CertificateFault {
    /// The message of the fault: its number and name, and the line that it is in.
    pub fn wording(self) -> Wording
        ensures { wording_text result ≡ certificate_fault_text self.line self.kind }
    {
        let line = self.line as u64;
        match self.kind {
            CertificateFaultKind::TooLarge => Wording::Number("1 TooLarge at line ", line),
            CertificateFaultKind::Beyond => Wording::Number("2 Beyond at line ", line),
            CertificateFaultKind::Fields => Wording::Number("3 Fields at line ", line),
            CertificateFaultKind::NumberText => Wording::Number("4 NumberText at line ", line),
            CertificateFaultKind::NumberRange => Wording::Number("5 NumberRange at line ", line),
            CertificateFaultKind::UnknownColumn => Wording::Number(
                "6 UnknownColumn at line ",
                line,
            ),
            CertificateFaultKind::UnknownRow => Wording::Number("7 UnknownRow at line ", line),
            CertificateFaultKind::Sign => Wording::Number("8 Sign at line ", line),
            CertificateFaultKind::NotShown => Wording::Number("9 NotShown at line ", line),
            CertificateFaultKind::NoEnd => Wording::Number("10 NoEnd at line ", line),
            CertificateFaultKind::OutOfMemory => Wording::Words("out of memory"),
        }
    }
}

impl fmt::Display for CertificateFault {
    ghost output = { λ fault. Some (certificate_fault_text fault.line fault.kind) };

    fn fmt<W: fmt::Write>(&self, f: &mut fmt::Formatter<W>) -> fmt::Result {
        self.wording().fmt(f)
    }
}
