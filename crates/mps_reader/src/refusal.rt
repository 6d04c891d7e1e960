//! Why a line is not taken.

ghost use Rattle.std.specs.Prelude.{◌≡◌};
ghost use Rattle.mps_reader.specs.declared.refusal.Refusal.TheVariants.{Memory};

use program_rows::MpsFaultKind;
use std::alloc::{AllocError, AllocFailed};

/// Why a line is not taken.
#[derive(Clone, Copy, Debug, PartialEq, Eq)]
pub enum Refusal {
    Memory,
    Fault(MpsFaultKind),
}

impl From<AllocError> for Refusal {
    ghost from_gives = { λ _ e. e ≡ Memory };

    fn from(_e: AllocError) -> Refusal {
        Refusal::Memory
    }
}

impl<T: Drop> From<AllocFailed<T>> for Refusal {
    ghost from_gives = { λ _ e. e ≡ Memory };

    fn from(_e: AllocFailed<T>) -> Refusal {
        Refusal::Memory
    }
}
