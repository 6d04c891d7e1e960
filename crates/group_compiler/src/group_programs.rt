//! The programs of groups, as selections of one program.

ghost use Rattle.std.specs.Prelude.{◌≡◌, IfOk};
ghost use Rattle.auction_terms.specs.Terms.{lots_in};
ghost use Rattle.bid_desk.specs.Closing.{book_of};
ghost use Rattle.presolve.specs.Flags.{flags_of};
ghost use Rattle.group_compiler.specs.inside.Sharing.{shared_program};

use auction_terms::{Group, Groups};
use bid_desk::ClosedBook;
use presolve::Flags;
use program_rows::{Selection, SharedProgram, build_shared};
use std::alloc::{AllocError, Global};
use std::marker::Model;

/// The program of a book with nobody left out, by the flags of the book.
fn shared_program(
    alloc: Global,
    book: &ClosedBook,
    flags: &Flags,
) -> Result<SharedProgram, AllocError>
    requires { flags.now ≡ flags_of (lots_in book.now.rules) (book_of book.now) }
    ensures { IfOk result (λ shared. shared ≡ shared_program book.now) }
{
    let nobody = Groups::only_empty(alloc)?;
    let kept = flags.kept(alloc, book, nobody.group(1))?;
    build_shared(alloc, book.rules(), &kept)
}

/// The program of a book, which each group takes what it needs from. Contracts see the book.
#[derive(Drop)]
pub struct GroupPrograms<'b> {
    book: &'b ClosedBook,
    shared: SharedProgram,
    ghost shared_is: { shared ≡ shared_program book.now },
}

impl<'b> Model for GroupPrograms<'b> {
    ghost use Rattle.bid_desk.specs.Closing.{Closing};

    ghost Value = { Closing };

    ghost view = { λ p. p.book.now };
}

impl<'b> GroupPrograms<'b> {
    ghost use Rattle.std.specs.Prelude.{◌≡◌, IfOk};
    ghost use Rattle.auction_terms.specs.Terms.{lots_in};
    ghost use Rattle.bid_desk.specs.Closing.{book_of};
    ghost use Rattle.presolve.specs.Flags.{flags_of};
    ghost use Rattle.group_compiler.specs.Compiled.{program_without};

    pub(crate) fn new(
        alloc: Global,
        book: &'b ClosedBook,
        flags: &Flags,
    ) -> Result<GroupPrograms<'b>, AllocError>
        requires { flags.now ≡ flags_of (lots_in book.now.rules) (book_of book.now) }
        ensures { IfOk result (λ programs. programs ≡ book.now) }
    {
        let shared = shared_program(alloc, book, flags)?;
        Ok(GroupPrograms { book, shared })
    }

    /// The program without a group.
    pub fn without(&self, alloc: Global, group: &Group) -> Result<Selection<'_>, AllocError>
        ensures { IfOk result (λ program. program ≡ program_without self.now group.now) }
    {
        self.book.within_limits();
        self.shared.without(alloc, group)
    }
}
