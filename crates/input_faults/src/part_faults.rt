//! The faults of the parts of an input, and of their numbers.

ghost use Rattle.std.specs.Prelude.{◌≡◌, option_map};
ghost use Rattle.auction_input.specs.Parts.{parts_held};
ghost use Rattle.auction_terms.specs.Judged.{cause_text, kept_fault};
ghost use Rattle.auction_terms.specs.Lines.{lines_of};
ghost use Rattle.input_faults.specs.PartFaults.{beginning, bytes_at, number_cause, numbered, text_at, uncounted_fault, uncut_fault, unmet_cause, unmet_fault, wanted_words};

use crate::fault::Fault;
use auction_input::{
    NamedText, OF_VERSION_1, Part, PartFault, PartKind, Refusal, Request, Spot, Target, Unmet,
    count_of, spot_of,
};
use auction_terms::{Cause, FaultAt, LineReader, Wording};

// The bytes of the text at a place, from 0.
fn bytes_at(texts: &[NamedText], place: usize) -> &[u8]
    ensures { result.now ≡ bytes_at texts.now place }
{
    match texts.get(place) {
        Some(given) => given.bytes(),
        None => b"".as_slice(),
    }
}

// Those of the text that a refusal is of; where there is but one, of that.
fn text_at(texts: &[NamedText], spot: Option<Spot>) -> &[u8]
    ensures { result.now ≡ text_at texts.now spot }
{
    match spot {
        Some(spot) => bytes_at(texts, spot.text),
        None => bytes_at(texts, 0),
    }
}

// The first line of a text; where there is none, nothing.
fn first_line(text: &[u8]) -> &[u8]
    ensures { result.now ≡ numbered 1 (lines_of text.now) }
{
    match LineReader::new(text).next() {
        Some(line) => line,
        None => b"".as_slice(),
    }
}

// The first line of the text that has bytes before its first part.
fn beginning(texts: &[NamedText]) -> &[u8]
    ensures { result.now ≡ beginning texts.now }
{
    let spot = spot_of(texts, &Refusal::Parts(PartFault::BeforeFirst));
    first_line(text_at(texts, spot))
}

/// The fault of an input that isn't cut into parts.
pub fn uncut_fault(texts: &[NamedText], fault: PartFault) -> FaultAt<Fault>
    ensures { kept_fault result ≡ uncut_fault texts.now fault }
{
    let whole = Fault::Parts(fault);
    match fault {
        PartFault::BeforeFirst => FaultAt::new(
            0,
            beginning(texts),
            whole,
            Wording::Words("has no %rules before it"),
        ),
        PartFault::OfVersion1 { part: _ } => {
            FaultAt::of_whole(whole, Some(Wording::Words(OF_VERSION_1)))
        }
        PartFault::PartName { part: _ } | PartFault::OutOfMemory => FaultAt::of_whole(whole, None),
    }
}

// Which kind there are too few or too many parts of, and how many a command takes.
fn wanted_words(command: Option<Target>, kind: PartKind) -> &'static str
    ensures { result.now ≡ wanted_words command kind }
{
    match (kind, command) {
        (PartKind::Rules, _) => " rules in place of 1",
        (PartKind::Groups, Some(Target::Text)) => " groups in place of 0",
        (PartKind::Groups, None) => " groups in place of 1 at most",
        (PartKind::Groups, _) => " groups in place of 1",
        (PartKind::Solution, Some(Target::Map)) => " solutions in place of 1",
        (PartKind::Solution, _) => " solutions in place of 0",
        (
            PartKind::Form
            | PartKind::Certificate
            | PartKind::Unique
            | PartKind::Tie
            | PartKind::Prices
            | PartKind::Cover
            | PartKind::Rule,
            _,
        ) => "",
    }
}

/// The fault of parts of a kind of which a request takes another number.
pub fn uncounted_fault(request: &Request, parts: &[Part<'_>], kind: PartKind) -> FaultAt<Fault>
    ensures { kept_fault result ≡ uncounted_fault request.now (parts_held parts.now) kind }
{
    let count = count_of(parts, kind) as u64;
    let cause = Wording::Between("", count, wanted_words(request.target(), kind));
    FaultAt::of_whole(Fault::PartCount(kind), Some(cause))
}

// What is wrong with so many parts of a kind, of which a command wants another number, by this one.
fn number_cause(kind: PartKind, count: usize, by: usize) -> Option<Cause>
    ensures { option_map cause_text result ≡ number_cause kind count by }
{
    let (count, by) = (count as u64, by as u64);
    match kind {
        PartKind::Solution => Some(Cause::Both(
            Wording::Numbers("", count, " solutions, and ", by),
            Wording::Number(" groups want ", by),
        )),
        PartKind::Certificate => Some(Cause::Both(
            Wording::Numbers("", count, " certificates, and ", by),
            Wording::Number(" groups want ", by),
        )),
        PartKind::Unique => Some(Cause::Words(Wording::Between(
            "",
            count,
            " uniques in place of 1 at most",
        ))),
        PartKind::Tie => Some(Cause::Both(
            Wording::Numbers("", count, " ties in place of ", by),
            Wording::Words(" at most"),
        )),
        PartKind::Prices => Some(Cause::Words(Wording::Between(
            "",
            count,
            " prices in place of 1 at most",
        ))),
        PartKind::Cover => Some(Cause::Both(
            Wording::Numbers("", count, " covers, and ", by),
            Wording::Number(" prices want ", by),
        )),
        PartKind::Rule => Some(Cause::Both(
            Wording::Numbers("", count, " price rules, and ", by),
            Wording::Between(" prices want ", by, " at most"),
        )),
        PartKind::Rules | PartKind::Form | PartKind::Groups => None,
    }
}

// What is wrong where a command wants something else.
fn unmet_cause(unmet: Unmet) -> Option<Cause>
    ensures { option_map cause_text result ≡ unmet_cause unmet }
{
    match unmet {
        Unmet::FirstGroupNotEmpty => None,
        Unmet::Number { kind, count, by } => number_cause(kind, count, by),
    }
}

/// The fault of an input that hasn't got what a command wants.
pub fn unmet_fault(unmet: Unmet) -> FaultAt<Fault>
    ensures { kept_fault result ≡ unmet_fault unmet }
{
    match unmet_cause(unmet) {
        Some(cause) => FaultAt::by_cause(0, b"", Fault::Unmet(unmet), cause),
        None => FaultAt::of_whole(Fault::Unmet(unmet), None),
    }
}
