//! Why a run ends without its output.

ghost use Rattle.std.specs.Prelude.{◌≡◌};
ghost use Rattle.auction_input.specs.Places.{counted_as};

use crate::form_texts::AnotherForm;
use crate::input::InputFault;
use crate::name::Name;
use crate::part_kind::PartKind;
use crate::parts::PartFault;
use crate::places::Counted;
use crate::price_fault::PriceFault;
use crate::round::RoundFault;
use crate::tie_fault::TieFault;
use auction_terms::{GroupFault, RulesFault};
use bid_forms::FormFault;
use byte_sinks::WriteFault;
use program_rows::{CertificateFault, MpsFault, SolutionFault};
use std::alloc::AllocError;

/// Why a run ends without its output, or with a front of it. Forms, groups, solutions, certificates and ties count from 1.
#[derive(Drop)]
pub enum Refusal {
    Input(InputFault),
    Parts(PartFault),
    /// Parts of a kind are missing, or there are too many.
    PartCount(PartKind),
    Rules(RulesFault),
    Form {
        form: usize,
        fault: FormFault,
    },
    /// The first form that is in another text than its bidder's first form.
    AnotherForm(AnotherForm),
    Groups(GroupFault),
    /// The first form that its bidder had no call left for.
    CallLimit {
        form: usize,
    },
    Round(RoundFault),
    /// There is no group of that number.
    NoGroup {
        group: usize,
    },
    /// The first group of a report is to be empty.
    FirstGroupNotEmpty,
    Program(MpsFault),
    Solution {
        solution: usize,
        fault: SolutionFault,
    },
    /// A solution that breaks the bounds of the column of that name.
    BoundBroken {
        solution: usize,
        column: Name,
    },
    /// A solution that doesn't meet the row of that name.
    RowBroken {
        solution: usize,
        row: Name,
    },
    Certificate {
        certificate: usize,
        fault: CertificateFault,
    },
    /// What is to show that no award but those of group 1 and of the ties is as good.
    Unique(CertificateFault),
    /// A tie, with its number if there are several.
    Tie {
        tie: Option<usize>,
        fault: TieFault,
    },
    /// A line of the prices.
    Prices(PriceFault),
    /// The prices leave out the winner of that name.
    MissingPrice {
        bidder: Name,
    },
    /// What is to show that the prices cover every group.
    Cover(CertificateFault),
    /// A line of the rule, or that the rule doesn't show what it is to.
    Rule(PriceFault),
    /// The winner of that name is no group by itself, so that what it costs alone isn't known.
    NoGroupAlone {
        bidder: Name,
    },
    Write(WriteFault),
    OutOfMemory,
}

impl Refusal {
    /// What is counted in each text of an input to find the one that it is of, and its number among that; nothing where
    /// memory was short, or where it is of no text.
    pub fn counted(&self) -> Option<(Counted, usize)>
        ensures { result ≡ counted_as self.now }
    {
        let (kind, number) = match self {
            Refusal::Rules(RulesFault::OutOfMemory)
            | Refusal::Form {
                fault: FormFault::OutOfMemory,
                ..
            }
            | Refusal::Groups(GroupFault::OutOfMemory)
            | Refusal::Solution {
                fault: SolutionFault::OutOfMemory,
                ..
            }
            | Refusal::Certificate {
                fault: CertificateFault {
                    kind: program_rows::CertificateFaultKind::OutOfMemory,
                    ..
                },
                ..
            }
            | Refusal::Unique(
                CertificateFault {
                    kind: program_rows::CertificateFaultKind::OutOfMemory,
                    ..
                },
            )
            | Refusal::Tie {
                fault: TieFault::Solution(SolutionFault::OutOfMemory),
                ..
            } => return None,
            Refusal::Parts(PartFault::BeforeFirst) => return Some((Counted::BytesBefore, 1)),
            Refusal::Parts(PartFault::PartName { part } | PartFault::OfVersion1 { part }) => {
                return Some((Counted::Parts, *part));
            }
            Refusal::Rules(_) => (PartKind::Rules, 1),
            Refusal::Form { form, .. } | Refusal::CallLimit { form } => (PartKind::Form, *form),
            Refusal::AnotherForm(another) => (PartKind::Form, another.form),
            Refusal::Groups(_) | Refusal::NoGroup { .. } | Refusal::FirstGroupNotEmpty => {
                (PartKind::Groups, 1)
            }
            Refusal::Solution { solution, .. }
            | Refusal::BoundBroken { solution, .. }
            | Refusal::RowBroken { solution, .. } => (PartKind::Solution, *solution),
            Refusal::Certificate { certificate, .. } => (PartKind::Certificate, *certificate),
            Refusal::Unique(_) => (PartKind::Unique, 1),
            Refusal::Tie { tie, .. } => (PartKind::Tie, tie.unwrap_or(1)),
            Refusal::Parts(PartFault::OutOfMemory)
            | Refusal::Input(_)
            | Refusal::PartCount(_)
            | Refusal::Round(_)
            | Refusal::Program(_)
            | Refusal::Prices(_)
            | Refusal::MissingPrice { .. }
            | Refusal::Cover(_)
            | Refusal::Rule(_)
            | Refusal::NoGroupAlone { .. }
            | Refusal::Write(_)
            | Refusal::OutOfMemory => return None,
        };
        Some((Counted::Kind(kind), number))
    }
}

impl From<AllocError> for Refusal {
    ghost use Rattle.std.specs.Prelude.{◌≡◌};
    ghost use Rattle.auction_input.specs.declared.refusal.Refusal.TheVariants.{OutOfMemory};

    ghost from_gives = { λ _ e. e ≡ OutOfMemory };

    fn from(_: AllocError) -> Refusal {
        Refusal::OutOfMemory
    }
}

impl From<InputFault> for Refusal {
    ghost use Rattle.std.specs.Prelude.{◌≡◌};
    ghost use Rattle.auction_input.specs.declared.refusal.Refusal.TheVariants.{Input};

    ghost from_gives = { λ fault e. e ≡ Input fault };

    fn from(fault: InputFault) -> Refusal {
        Refusal::Input(fault)
    }
}

impl From<PartFault> for Refusal {
    ghost use Rattle.std.specs.Prelude.{◌≡◌};
    ghost use Rattle.auction_input.specs.declared.refusal.Refusal.TheVariants.{Parts};

    ghost from_gives = { λ fault e. e ≡ Parts fault };

    fn from(fault: PartFault) -> Refusal {
        Refusal::Parts(fault)
    }
}

impl From<RulesFault> for Refusal {
    ghost use Rattle.std.specs.Prelude.{◌≡◌};
    ghost use Rattle.auction_input.specs.declared.refusal.Refusal.TheVariants.{Rules};

    ghost from_gives = { λ fault e. e ≡ Rules fault };

    fn from(fault: RulesFault) -> Refusal {
        Refusal::Rules(fault)
    }
}

impl From<GroupFault> for Refusal {
    ghost use Rattle.std.specs.Prelude.{◌≡◌};
    ghost use Rattle.auction_input.specs.declared.refusal.Refusal.TheVariants.{Groups};

    ghost from_gives = { λ fault e. e ≡ Groups fault };

    fn from(fault: GroupFault) -> Refusal {
        Refusal::Groups(fault)
    }
}

impl From<MpsFault> for Refusal {
    ghost use Rattle.std.specs.Prelude.{◌≡◌};
    ghost use Rattle.auction_input.specs.declared.refusal.Refusal.TheVariants.{Program};

    ghost from_gives = { λ fault e. e ≡ Program fault };

    fn from(fault: MpsFault) -> Refusal {
        Refusal::Program(fault)
    }
}

impl From<RoundFault> for Refusal {
    ghost use Rattle.std.specs.Prelude.{◌≡◌};
    ghost use Rattle.auction_input.specs.declared.refusal.Refusal.TheVariants.{Round};

    ghost from_gives = { λ fault e. e ≡ Round fault };

    fn from(fault: RoundFault) -> Refusal {
        Refusal::Round(fault)
    }
}

impl From<WriteFault> for Refusal {
    ghost use Rattle.std.specs.Prelude.{◌≡◌};
    ghost use Rattle.auction_input.specs.declared.refusal.Refusal.TheVariants.{Write};

    ghost from_gives = { λ fault e. e ≡ Write fault };

    fn from(fault: WriteFault) -> Refusal {
        Refusal::Write(fault)
    }
}
