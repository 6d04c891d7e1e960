//! The winners without each group.

ghost use Rattle.std.specs.Prelude.{length, ⊤};

use auction_terms::{Choice, Groups};
use findings::{Found, found_alike, search};
use group_compiler::{GroupPrograms, Maker};
use std::alloc::{AllocError, Global};

/// The searches without each group, of which the first is done.
#[derive(Drop)]
pub struct Others<'s> {
    pub programs: &'s GroupPrograms<'s>,
    pub groups: &'s Groups,
    pub first: &'s Found,
    /// The bids of a point that is known of each group, if points are known.
    pub known: &'s [Vec<Choice>],
    pub most_steps: u64,
}

impl<'s> Maker for Others<'s> {
    type Made = Option<Found>;

    ghost count_of = { λ o. length o.groups.now };

    ghost groups_of = { λ o. length o.groups.now };

    ghost makes = { λ _ _ _. ⊤ };

    fn count(&self) -> usize {
        self.groups.count()
    }

    fn groups(&self) -> usize {
        self.groups.count()
    }

    fn make(&self, alloc: Global, number: usize) -> Result<Option<Found>, AllocError> {
        if number == 0 {
            return Ok(None);
        }
        self.groups.within_limits();
        let group = self.groups.group(number + 1);
        let program = self.programs.without(alloc, group)?;
        match found_alike(alloc, &program, group, self.first)? {
            Some(alike) => Ok(Some(alike)),
            None => Ok(Some(search(alloc, &program, self.start(number), self.most_steps)?)),
        }
    }
}

impl<'s> Others<'s> {
    /// The bids of the point that a search begins at.
    fn start(&self, number: usize) -> &[Choice] {
        match self.known.get(number) {
            Some(choices) => choices.as_slice(),
            None => self.first.choices.as_slice(),
        }
    }
}
