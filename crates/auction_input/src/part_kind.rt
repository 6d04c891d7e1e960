//! The kinds of parts.

ghost use Rattle.std.specs.Prelude.{◌≡◌};
ghost use Rattle.auction_input.specs.Line.{wrong_number};
ghost use Rattle.auction_input.specs.Parts.{name_of};
ghost use Rattle.auction_input.specs.inside.Parts.{kind_named, known_kinds};

use crate::request::{Request, Target};

/// What a part of the input holds.
#[derive(Clone, Copy, Debug, PartialEq, Eq)]
pub enum PartKind {
    Rules,
    Form,
    Groups,
    Solution,
    Certificate,
    Unique,
    Tie,
    Prices,
    Cover,
    Rule,
}

// What every command knows.
const OF_ALL: [PartKind; 4] = [
    PartKind::Rules,
    PartKind::Form,
    PartKind::Groups,
    PartKind::Solution,
];

// And what `verify` judges too.
const OF_VERIFY: [PartKind; 10] = [
    PartKind::Rules,
    PartKind::Form,
    PartKind::Groups,
    PartKind::Solution,
    PartKind::Certificate,
    PartKind::Unique,
    PartKind::Tie,
    PartKind::Prices,
    PartKind::Cover,
    PartKind::Rule,
];

impl PartKind {
    /// The name in the line that heads a part of this kind.
    pub fn name(self) -> &'static [u8]
        ensures { result.now ≡ name_of self }
    {
        match self {
            PartKind::Rules => b"%rules".as_slice(),
            PartKind::Form => b"%form".as_slice(),
            PartKind::Groups => b"%groups".as_slice(),
            PartKind::Solution => b"%solution".as_slice(),
            PartKind::Certificate => b"%certificate".as_slice(),
            PartKind::Unique => b"%unique".as_slice(),
            PartKind::Tie => b"%tie".as_slice(),
            PartKind::Prices => b"%prices".as_slice(),
            PartKind::Cover => b"%cover".as_slice(),
            PartKind::Rule => b"%rule".as_slice(),
        }
    }

    /// What is reported where there are too few or too many parts of this kind.
    pub fn wrong_number(self) -> &'static str
        ensures { result.now ≡ wrong_number self }
    {
        match self {
            PartKind::Rules => "wrong number of rules",
            PartKind::Form => "wrong number of forms",
            PartKind::Groups => "wrong number of groups",
            PartKind::Solution => "wrong number of solutions",
            PartKind::Certificate => "wrong number of certificates",
            PartKind::Unique => "wrong number of uniques",
            PartKind::Tie => "wrong number of ties",
            PartKind::Prices => "wrong number of prices",
            PartKind::Cover => "wrong number of covers",
            PartKind::Rule => "wrong number of price rules",
        }
    }
}

// The kinds that a request knows: `explain` that names no command those of `verify`, and lets them be.
fn known_kinds(request: &Request) -> &'static [PartKind]
    ensures { result.now ≡ known_kinds request.now }
{
    match request.target() {
        Some(Target::Verify) | None => OF_VERIFY.as_slice(),
        Some(_) => OF_ALL.as_slice(),
    }
}

/// The kind that the name in the head of a part means to a request.
pub fn kind_named(request: &Request, name: &[u8]) -> Option<PartKind>
    ensures { result ≡ kind_named request.now name.now }
{
    known_kinds(request)
        .iter()
        .copied()
        .find(|kind| name == kind.name())
}
