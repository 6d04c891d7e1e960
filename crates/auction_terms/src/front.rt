//! The first bytes of a text.

use crate::limits::FRONT_LEN;
use crate::names::Name;
use arrayvec::ArrayVec;
use std::marker::Model;

/// The first bytes of a text: those that are shown of it, and one more where there are more. Contracts see the list of
/// them.
#[derive(Drop)]
pub struct Front {
    bytes: ArrayVec<u8, FRONT_LEN>,
}

impl Model for Front {
    ghost use Rattle.std.specs.Prelude.{List, ℕ};

    ghost Value = { List ℕ };

    ghost view = { λ f. f.bytes.items };
}

ghost use Rattle.std.specs.Prelude.{◌≡◌, ◌≤◌, length, take};
ghost use Rattle.auction_terms.specs.declared.limits.TheConstants.{FRONT_LEN};

// The first bytes of a text.
fn first_bytes(text: &[u8]) -> &[u8]
    ensures bytes { result.now ≡ take FRONT_LEN text.now }
    ensures few { length result.now ≤ FRONT_LEN }
{
    if text.len() > FRONT_LEN {
        text.split_at(FRONT_LEN).0
    } else {
        text
    }
}

impl Front {
    ghost use Rattle.std.specs.Prelude.{◌≡◌, take};
    ghost use Rattle.auction_terms.specs.declared.limits.TheConstants.{FRONT_LEN};

    /// The first bytes of a text.
    pub fn of(text: &[u8]) -> Front
        ensures { result ≡ take FRONT_LEN text.now }
    {
        let mut bytes = ArrayVec::new();
        match bytes.try_extend_from_slice(first_bytes(text)) {
            Ok(()) | Err(_) => Front { bytes },
        }
    }

    /// The bytes of a name, which are fewer than those that are kept.
    pub fn of_name(name: &Name) -> Front
        ensures { result ≡ name.now }
    {
        Front::of(name.as_bytes())
    }

    /// The bytes.
    pub fn as_slice(&self) -> &[u8]
        ensures { result.now ≡ self.now }
    {
        self.bytes.as_slice()
    }
}
