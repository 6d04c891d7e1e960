//! Pages as workers make them.

ghost use Rattle.std.specs.Prelude.{◌≡◌, ◌≤◌};
ghost use Rattle.auction_terms.specs.Terms.{lots_in};
ghost use Rattle.auction_terms.specs.declared.limits.TheConstants.{MOST_GROUPS};
ghost use Rattle.bid_desk.specs.Closing.{book_of};
ghost use Rattle.presolve.specs.Flags.{flags_of};

use crate::maker::Maker;
use crate::page::Page;
use bid_desk::ClosedBook;
use presolve::Flags;
use std::alloc::{AllocError, Global};

/// Makes the page of each bidder, by flags that are found once. No page is that of a group: so a worker that drew a number
/// stops at the gate with the group that has it, and then makes the page of the bidder who has it.
#[derive(Drop)]
pub struct PageMaker<'b> {
    pub book: &'b ClosedBook,
    pub flags: Flags,
    pub groups: usize,
    ghost flags_are: { flags ≡ flags_of (lots_in book.now.rules) (book_of book.now) },
    ghost few: { groups ≤ MOST_GROUPS },
}

impl<'b> Maker for PageMaker<'b> {
    ghost use Rattle.std.specs.Prelude.{◌≡◌, length};
    ghost use Rattle.bid_desk.specs.Closing.{book_of};
    ghost use Rattle.group_compiler.specs.inside.Making.{page_at};

    type Made = Page;

    ghost count_of = { λ m. length (book_of m.book.now) };

    ghost groups_of = { λ m. m.groups };

    ghost makes = { λ m n page. page ≡ page_at m.book.now n };

    fn count(&self) -> usize {
        self.book.rules().bidders().len()
    }

    fn groups(&self) -> usize {
        self.groups
    }

    fn make(&self, alloc: Global, number: usize) -> Result<Page, AllocError> {
        self.book.within_limits();
        Page::of_form(alloc, self.book, &self.flags, number as u16 + 1)
    }
}
