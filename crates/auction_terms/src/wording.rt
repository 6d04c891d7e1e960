//! What is reported of a fault.

ghost use Rattle.std.specs.Prelude.{◌≡◌, ◌++◌, Some, decimal, option_map};
ghost use Rattle.auction_terms.specs.Wording.{code_seen, fault_text, wording_text};

use std::fmt;

/// The number and the name of a fault, as they are printed.
#[derive(Clone, Copy)]
pub struct Code {
    pub number: u64,
    pub name: &'static str,
}

impl Code {
    /// The code of this number and name.
    pub fn new(number: u64, name: &'static str) -> Code
        ensures number { result.number ≡ number }
        ensures name { result.name.now ≡ name.now }
    {
        Code { number, name }
    }
}

/// What is reported of a fault, or of where in an input it is: words, with two numbers among them at most.
#[derive(Clone, Copy)]
pub enum Wording {
    /// The number and the name of a fault.
    Named(Code),
    /// The number and the name of a fault, and words and a number after them.
    NamedAt(Code, &'static str, u64),
    /// The number and the name of a fault, and words and a number after them, twice.
    NamedWith(Code, &'static str, u64, &'static str, u64),
    Words(&'static str),
    /// Words and a number.
    Number(&'static str, u64),
    /// A number between words.
    Between(&'static str, u64, &'static str),
    /// Words and a number, and words and a number once more.
    Numbers(&'static str, u64, &'static str, u64),
}

impl Wording {
    /// Words, and the number of a place after them.
    pub fn at(words: &'static str, place: u32) -> Wording
        ensures { wording_text result ≡ words.now ++ decimal place }
    {
        Wording::Number(words, u64::from(place))
    }

    /// What is reported of a fault with this code, at this place, whose number comes after the words; of one without a code, that
    /// memory was refused.
    pub fn of_fault(code: Option<Code>, words: &'static str, place: Option<u32>) -> Wording
        ensures { wording_text result ≡ fault_text words.now (option_map code_seen code) place }
    {
        match (code, place) {
            (None, _) => Wording::Words("out of memory"),
            (Some(code), None) => Wording::Named(code),
            (Some(code), Some(place)) => Wording::NamedAt(code, words, u64::from(place)),
        }
    }
}

impl fmt::Display for Wording {
    ghost output = { λ wording. Some (wording_text wording) };

    fn fmt<W: fmt::Write>(&self, f: &mut fmt::Formatter<W>) -> fmt::Result {
        match *self {
            Wording::Named(Code { number, name }) => write!(f, "{number} {name}"),
            Wording::NamedAt(Code { number, name }, words, place) => {
                write!(f, "{number} {name}{words}{place}")
            }
            Wording::NamedWith(Code { number, name }, words, place, more, other) => {
                write!(f, "{number} {name}{words}{place}{more}{other}")
            }
            Wording::Words(words) => write!(f, "{words}"),
            Wording::Number(words, number) => write!(f, "{words}{number}"),
            Wording::Between(words, number, more) => write!(f, "{words}{number}{more}"),
            Wording::Numbers(words, number, more, other) => {
                write!(f, "{words}{number}{more}{other}")
            }
        }
    }
}
