//! What is wrong with a text of prices or of the rule.

ghost use Rattle.std.specs.Prelude.{◌≡◌, Some};
ghost use Rattle.auction_terms.specs.Wording.{wording_text};
ghost use Rattle.auction_input.specs.PriceFaultText.{price_fault_text};

use auction_terms::Wording;
use std::alloc::AllocError;
use std::fmt;
use thiserror::Error;

/// What is wrong with a text of prices or of the rule. A place is the number of a line, from 1.
#[derive(Clone, Copy, Debug, PartialEq, Eq, Error)]
pub enum PriceFault {
    /// The line of prices hasn't two fields, or the line of the rule hasn't three.
    Fields { place: usize },
    /// The name isn't that of a bidder, and in the rule it isn't the number of a group either.
    UnknownName { place: usize },
    /// The bidder wins nothing in group 1's solution.
    NotWinner { place: usize },
    /// An earlier line has the same name or number.
    RepeatedName { place: usize },
    /// The number isn't 1 to 18 digits. A price may have two such numbers with a slash between them.
    NumberText { place: usize },
    /// The price is above the amount of the winner's bid.
    AboveAmount { place: usize },
    /// The price is below the reserve of the winner's lots.
    BelowReserve { place: usize },
    /// The rule has no line of scales and push.
    NoScales,
    /// The number after the slash isn't from 1 to 1,000,000.
    DenominatorRange { place: usize },
    /// The price is above the greatest amount, £1,000,000,000,000.
    PriceRange { place: usize },
    /// The prices up to this one are whole only in more than 1,000,000 parts of a pound.
    TooManyParts { place: usize },
    /// The weights don't show that no prices that suffice have a lower sum.
    NotLeast,
    /// The weights and the push don't show that these prices are the nearest of all that have their sum.
    NotNearest,
    /// Memory was refused.
    OutOfMemory,
}

impl PriceFault {
    /// The words on the fault: its number and name, and in which line it is.
    pub fn wording(self) -> Wording
        ensures { wording_text result ≡ price_fault_text self }
    {
        match self {
            PriceFault::Fields { place } => Wording::Number("1 Fields at line ", place as u64),
            PriceFault::UnknownName { place } => Wording::Number(
                "2 UnknownName at line ",
                place as u64,
            ),
            PriceFault::NotWinner { place } => Wording::Number(
                "3 NotWinner at line ",
                place as u64,
            ),
            PriceFault::RepeatedName { place } => Wording::Number(
                "4 RepeatedName at line ",
                place as u64,
            ),
            PriceFault::NumberText { place } => Wording::Number(
                "5 NumberText at line ",
                place as u64,
            ),
            PriceFault::AboveAmount { place } => Wording::Number(
                "7 AboveAmount at line ",
                place as u64,
            ),
            PriceFault::BelowReserve { place } => Wording::Number(
                "8 BelowReserve at line ",
                place as u64,
            ),
            PriceFault::NoScales => Wording::Words("9 NoScales"),
            PriceFault::DenominatorRange { place } => Wording::Number(
                "10 DenominatorRange at line ",
                place as u64,
            ),
            PriceFault::PriceRange { place } => Wording::Number(
                "11 PriceRange at line ",
                place as u64,
            ),
            PriceFault::TooManyParts { place } => Wording::Number(
                "12 TooManyParts at line ",
                place as u64,
            ),
            PriceFault::NotLeast => Wording::Words("14 NotLeast"),
            PriceFault::NotNearest => Wording::Words("15 NotNearest"),
            PriceFault::OutOfMemory => Wording::Words("out of memory"),
        }
    }
}

impl fmt::Display for PriceFault {
    ghost output = { λ fault. Some (price_fault_text fault) };

    fn fmt<W: fmt::Write>(&self, f: &mut fmt::Formatter<W>) -> fmt::Result {
        self.wording().fmt(f)
    }
}

impl From<AllocError> for PriceFault {
    ghost use Rattle.std.specs.Prelude.{◌≡◌};
    ghost use Rattle.auction_input.specs.declared.price_fault.PriceFault.TheVariants.{OutOfMemory};

    ghost from_gives = { λ _ e. e ≡ OutOfMemory };

    fn from(_: AllocError) -> PriceFault {
        PriceFault::OutOfMemory
    }
}
