//! The words of a refusal.

ghost use Rattle.std.specs.Prelude.{◌≡◌, ◌++◌, codes, decimal, option_map};
ghost use Rattle.auction_input.specs.Message.{message_text};
ghost use Rattle.auction_terms.specs.Wording.{wording_text};
ghost use Rattle.auction_input.specs.Line.{refusal_text, tie_fault_text, tie_words};
ghost use Rattle.auction_input.specs.Places.{with_number};

use crate::form_texts::AnotherForm;
use crate::input::InputFault;
use crate::part_kind::PartKind;
use crate::parts::PartFault;
use crate::price_fault::PriceFault;
use crate::refusal::Refusal;
use crate::round::RoundFault;
use crate::tie_fault::TieFault;
use auction_terms::{GroupFault, RulesFault, Wording};
use bid_forms::FormFault;
use byte_sinks::WriteFault;
use program_rows::{CertificateFault, MpsFault, MpsFaultKind, SolutionFault};

/// What is reported of a refusal: words on a part of the input, words on the fault in it, and the name of a column or row.
#[derive(Clone, Copy)]
pub struct Message<'r> {
    pub part: Wording,
    pub fault: Wording,
    pub name: &'r [u8],
}

impl<'r> Message<'r> {
    /// Words alone.
    pub(crate) fn only(words: Wording) -> Message<'r>
        ensures { message_text result ≡ wording_text words }
    {
        Message {
            part: Wording::Words(""),
            fault: words,
            name: b"",
        }
    }

    /// Words on a part, and on a fault in it.
    fn without_name(part: Wording, fault: Wording) -> Message<'r>
        ensures { message_text result ≡ wording_text part ++ wording_text fault }
    {
        Message {
            part,
            fault,
            name: b"",
        }
    }

    /// A fault in a part.
    pub(crate) fn in_part(part: &'static str, fault: Wording) -> Message<'r>
        ensures { message_text result ≡ part.now ++ wording_text fault }
    {
        Message {
            part: Wording::Words(part),
            fault,
            name: b"",
        }
    }

    /// A fault in the part of that number.
    pub(crate) fn in_number(part: &'static str, number: usize, fault: Wording) -> Message<'r>
        ensures { message_text result
            ≡ (part.now ++ (decimal number ++ codes ": ")) ++ wording_text fault }
    {
        Message {
            part: Wording::Between(part, number as u64, ": "),
            fault,
            name: b"",
        }
    }
}

const OUT_OF_MEMORY: &str = "out of memory";

/// What is reported of bytes before the first part of an input.
pub const BEFORE_FIRST: &str = "bytes before the first part";

/// What is reported of a part that only inputs of version 1 have, after its number.
pub const OF_VERSION_1: &str =
    "%weights is of version 1, and wdp-office prices makes %rule in its place";

// What is reported of an input that isn't taken.
fn in_input(fault: InputFault) -> Message<'static>
    ensures { message_text result ≡ refusal_text (Refusal.Input fault) }
{
    Message::only(Wording::Words(match fault {
        InputFault::ReadFailed => "input: read failed",
        InputFault::TooLarge => "input: too large",
        InputFault::OutOfMemory => OUT_OF_MEMORY,
    }))
}

// What is reported of an input without parts.
fn in_parts(fault: PartFault) -> Message<'static>
    ensures { message_text result ≡ refusal_text (Refusal.Parts fault) }
{
    match fault {
        PartFault::BeforeFirst => Message::in_part("input: ", Wording::Words(BEFORE_FIRST)),
        PartFault::PartName { part } => Message::only(Wording::Between(
            "input: part ",
            part as u64,
            " not known",
        )),
        PartFault::OfVersion1 { part } => Message::without_name(
            Wording::Between("input: part ", part as u64, " not known: "),
            Wording::Words(OF_VERSION_1),
        ),
        PartFault::OutOfMemory => Message::only(Wording::Words(OUT_OF_MEMORY)),
    }
}

// What is reported of parts of which there are too few or too many. Forms are not counted.
fn in_count(kind: PartKind) -> Message<'static>
    ensures { message_text result ≡ refusal_text (Refusal.PartCount kind) }
{
    Message::in_part("input: ", Wording::Words(kind.wrong_number()))
}

// The words on a tie, with another number if it has one.
fn tie_part(tie: Option<usize>, number: usize) -> Wording
    ensures { wording_text result ≡ tie_words (option_map (λ n. number) tie) }
{
    match tie {
        Some(_) => Wording::Between("tie ", number as u64, ": "),
        None => Wording::Words("tie: "),
    }
}

// What is reported of a tie, after words on which one it is.
fn in_tie(part: Wording, fault: &TieFault) -> Message<'_>
    ensures { message_text result ≡ wording_text part ++ tie_fault_text fault.now }
{
    match fault {
        TieFault::Solution(fault) => Message::without_name(part, fault.wording()),
        TieFault::BoundBroken { column } => Message {
            part,
            fault: Wording::Words("7 BoundBroken at column "),
            name: column.as_slice(),
        },
        TieFault::RowBroken { row } => Message {
            part,
            fault: Wording::Words("8 RowBroken at row "),
            name: row.as_slice(),
        },
        TieFault::LowerTotal => {
            Message::without_name(part, Wording::Words("total below that of group 1"))
        }
        TieFault::SameAsFirst => {
            Message::without_name(part, Wording::Words("same winners as group 1"))
        }
        TieFault::SameAsTie { tie } => {
            Message::without_name(part, Wording::Number("same winners as tie ", *tie as u64))
        }
    }
}

impl Refusal {
    /// What is reported of it. Wherever memory was short, just that is reported.
    pub fn message(&self) -> Message<'_>
        ensures { message_text result ≡ refusal_text self.now }
    {
        self.message_as(self.number())
    }

    // The number of its part; of a refusal without one any number serves.
    fn number(&self) -> usize
        ensures { with_number result self.now ≡ self.now }
    {
        match self {
            Refusal::Parts(PartFault::PartName { part } | PartFault::OfVersion1 { part }) => *part,
            Refusal::Form { form, .. } | Refusal::CallLimit { form } => *form,
            Refusal::Solution { solution, .. }
            | Refusal::BoundBroken { solution, .. }
            | Refusal::RowBroken { solution, .. } => *solution,
            Refusal::Certificate { certificate, .. } => *certificate,
            Refusal::Tie { tie: Some(tie), .. } => *tie,
            Refusal::Parts(PartFault::BeforeFirst | PartFault::OutOfMemory)
            | Refusal::Tie { tie: None, .. }
            | Refusal::Input(_)
            | Refusal::PartCount(_)
            | Refusal::Rules(_)
            | Refusal::AnotherForm(_)
            | Refusal::Groups(_)
            | Refusal::Round(_)
            | Refusal::NoGroup { .. }
            | Refusal::FirstGroupNotEmpty
            | Refusal::Program(_)
            | Refusal::Unique(_)
            | Refusal::Prices(_)
            | Refusal::MissingPrice { .. }
            | Refusal::Cover(_)
            | Refusal::Rule(_)
            | Refusal::NoGroupAlone { .. }
            | Refusal::Write(_)
            | Refusal::OutOfMemory => 0,
        }
    }

    /// What is reported of it with another number of its part.
    pub fn message_as(&self, number: usize) -> Message<'_>
        ensures { message_text result ≡ refusal_text (with_number number self.now) }
    {
        match self {
            Refusal::Rules(RulesFault::OutOfMemory)
            | Refusal::Form {
                fault: FormFault::OutOfMemory,
                ..
            }
            | Refusal::Groups(GroupFault::OutOfMemory)
            | Refusal::Round(RoundFault::OutOfMemory)
            | Refusal::Program(
                MpsFault {
                    kind: MpsFaultKind::OutOfMemory,
                    ..
                },
            )
            | Refusal::Solution {
                fault: SolutionFault::OutOfMemory,
                ..
            }
            | Refusal::Certificate {
                fault: CertificateFault {
                    kind: program_rows::CertificateFaultKind::OutOfMemory,
                    ..
                },
                ..
            }
            | Refusal::Unique(
                CertificateFault {
                    kind: program_rows::CertificateFaultKind::OutOfMemory,
                    ..
                },
            )
            | Refusal::Tie {
                fault: TieFault::Solution(SolutionFault::OutOfMemory),
                ..
            }
            | Refusal::Prices(PriceFault::OutOfMemory)
            | Refusal::Cover(
                CertificateFault {
                    kind: program_rows::CertificateFaultKind::OutOfMemory,
                    ..
                },
            )
            | Refusal::Rule(PriceFault::OutOfMemory)
            | Refusal::OutOfMemory => Message::only(Wording::Words(OUT_OF_MEMORY)),
            Refusal::Input(fault) => in_input(*fault),
            Refusal::Parts(PartFault::PartName { .. }) => {
                in_parts(PartFault::PartName { part: number })
            }
            Refusal::Parts(PartFault::OfVersion1 { .. }) => {
                in_parts(PartFault::OfVersion1 { part: number })
            }
            Refusal::Parts(fault) => in_parts(*fault),
            Refusal::PartCount(kind) => in_count(*kind),
            Refusal::Rules(fault) => Message::in_part("rules: ", fault.wording()),
            Refusal::Form { fault, .. } => Message::in_number("form ", number, fault.wording()),
            Refusal::AnotherForm(another) => Message {
                part: Wording::Words(""),
                fault: Wording::Words("another form of "),
                name: another.bidder.as_slice(),
            },
            Refusal::Groups(fault) => Message::in_part("groups: ", fault.wording()),
            Refusal::CallLimit { .. } => Message::in_number(
                "form ",
                number,
                Wording::Words("CallLimit"),
            ),
            Refusal::Round(RoundFault::WrongAnswer) => Message::in_part(
                "desk: ",
                Wording::Words("wrong answer"),
            ),
            Refusal::NoGroup { group } => Message::in_part(
                "groups: ",
                Wording::Number("no group ", *group as u64),
            ),
            Refusal::FirstGroupNotEmpty => Message::in_part(
                "groups: ",
                Wording::Words("group 1 is not empty"),
            ),
            Refusal::Program(fault) => Message::in_part("program: ", fault.wording()),
            Refusal::Solution { fault, .. } => Message::in_number(
                "solution ",
                number,
                fault.wording(),
            ),
            Refusal::BoundBroken { column, .. } => Message {
                part: Wording::Between("solution ", number as u64, ": "),
                fault: Wording::Words("7 BoundBroken at column "),
                name: column.as_slice(),
            },
            Refusal::RowBroken { row, .. } => Message {
                part: Wording::Between("solution ", number as u64, ": "),
                fault: Wording::Words("8 RowBroken at row "),
                name: row.as_slice(),
            },
            Refusal::Certificate { fault, .. } => Message::in_number(
                "certificate ",
                number,
                fault.wording(),
            ),
            Refusal::Unique(fault) => Message::in_part("unique: ", fault.wording()),
            Refusal::Tie { tie, fault } => in_tie(tie_part(*tie, number), fault),
            Refusal::Prices(fault) => Message::in_part("prices: ", fault.wording()),
            Refusal::MissingPrice { bidder } => Message {
                part: Wording::Words("prices: "),
                fault: Wording::Words("6 MissingWinner "),
                name: bidder.as_slice(),
            },
            Refusal::Cover(fault) => Message::in_part("cover: ", fault.wording()),
            Refusal::Rule(fault) => Message::in_part("rule: ", fault.wording()),
            Refusal::NoGroupAlone { bidder } => Message {
                part: Wording::Words("rule: "),
                fault: Wording::Words("13 NoGroupAlone "),
                name: bidder.as_slice(),
            },
            Refusal::Write(WriteFault::Sink { written }) => Message::only(Wording::Between(
                "write failed after ",
                *written,
                " bytes",
            )),
        }
    }
}
