//! The faults of a text, as a reader finds them one after the other.

ghost use Rattle.std.specs.Prelude.{◌≡◌, ◌∷◌, [], OnOk, option_map, option_to_list};
ghost use Rattle.auction_terms.specs.Judged.{Holds, HoldsMore, cause_text, reported_as, fault_at, fault_of_whole, kept_fault};
ghost use Rattle.auction_terms.specs.Wording.{wording_text};

use crate::front::Front;
use crate::wording::Wording;
use std::alloc::{AllocError, Global};

/// What is wrong with a field, name, record or line, in words.
#[derive(Drop)]
pub enum Cause {
    Words(Wording),
    /// Words with more than two numbers.
    Both(Wording, Wording),
    /// Words, and the name that was wanted.
    Wanted(&'static str, Front),
}

/// A fault of a text: where in its record or line it is, what is there, and what is wrong with it.
#[derive(Drop)]
pub struct FaultAt<F> {
    /// The number, from 1, of the field or name; 0 where the fault is that of the whole record or line.
    pub field: usize,
    /// The first bytes of the field or name.
    pub text: Front,
    /// Which fault it is, and in which record or line.
    pub fault: F,
    /// What is wrong with the field, name, record or line, in words; `None` where the fault's own name says it.
    pub cause: Option<Cause>,
}

impl<F: Copy> FaultAt<F> {
    /// The fault of a field or name of this number, from 1, with these bytes.
    pub fn new(field: usize, text: &[u8], fault: F, cause: Wording) -> FaultAt<F>
        ensures { kept_fault result ≡ fault_at field text.now fault (wording_text cause) }
    {
        FaultAt::by_cause(field, text, fault, Cause::Words(cause))
    }

    /// The fault of a field or name of this number, from 1, with these bytes; 0 where the bytes are those of a whole line.
    pub fn by_cause(field: usize, text: &[u8], fault: F, cause: Cause) -> FaultAt<F>
        ensures { kept_fault result ≡ fault_at field text.now fault (cause_text cause) }
    {
        FaultAt {
            field,
            text: Front::of(text),
            fault,
            cause: Some(cause),
        }
    }

    /// The fault of a whole record or line.
    pub fn of_whole(fault: F, cause: Option<Wording>) -> FaultAt<F>
        ensures { kept_fault result ≡ fault_of_whole fault (option_map wording_text cause) }
    {
        FaultAt {
            field: 0,
            text: Front::of(b""),
            fault,
            cause: cause.map(Cause::Words),
        }
    }

    /// The fault of a text as that of what the text is part of.
    pub fn reported_as<G: Copy>(self, fault: G) -> FaultAt<G>
        ensures { kept_fault result ≡ reported_as fault (kept_fault self) }
    {
        FaultAt {
            field: self.field,
            text: self.text,
            fault,
            cause: self.cause,
        }
    }
}

/// The faults of a text: the first ones, and how many more there are.
#[derive(Drop)]
pub struct All<F> {
    /// How many faults are kept at most.
    pub most: usize,
    /// The faults that are kept, in the order in which they were found.
    pub kept: Vec<FaultAt<F>>,
    /// How many more were found.
    pub more: u64,
}

impl<F: Copy> All<F> {
    /// No fault so far.
    pub fn new(alloc: Global, most: usize) -> All<F>
        ensures { Holds most result [] }
    {
        All {
            most,
            kept: Vec::new(alloc),
            more: 0,
        }
    }

    /// Adds a fault after those that were found.
    pub fn add(&mut self, at: FaultAt<F>) -> Result<(), AllocError>
        ensures { OnOk result (HoldsMore self.old self.new (kept_fault at ∷ [])) }
    {
        if self.kept.len() >= self.most {
            self.more = self.more.saturating_add(1);
            return Ok(());
        }
        if self.kept.push(at).is_err() {
            return Err(AllocError);
        }
        Ok(())
    }

    /// Adds a fault, if there is one.
    pub fn add_any(&mut self, at: Option<FaultAt<F>>) -> Result<(), AllocError>
        ensures { OnOk result (HoldsMore self.old self.new
            (option_to_list (option_map kept_fault at))) }
    {
        match at {
            Some(at) => self.add(at),
            None => Ok(()),
        }
    }
}
