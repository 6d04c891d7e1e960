//! Compiling one group.

ghost use Rattle.std.specs.Prelude.{◌≡◌, ◌≤◌, ◌-◌, [], IfOk, length, slice_index_or};
ghost use Rattle.auction_terms.specs.Groups.{has};
ghost use Rattle.auction_terms.specs.Terms.{lots_in};
ghost use Rattle.auction_terms.specs.declared.limits.TheConstants.{MOST_GROUPS};
ghost use Rattle.bid_desk.specs.Closing.{book_of};
ghost use Rattle.mps_text.specs.FaithfulText.{IsFaithfulText};
ghost use Rattle.mps_text.specs.Text.{text};
ghost use Rattle.presolve.specs.Flags.{flags_of};
ghost use Rattle.program_rows.specs.Faithful.{IsFaithful};
ghost use Rattle.group_compiler.specs.Compiled.{compiled, program_without};

use crate::compiled::Compiled;
use crate::group_programs::GroupPrograms;
use crate::maker::Maker;
use auction_terms::{Choice, Group, Groups};
use bid_desk::ClosedBook;
use presolve::Flags;
use program_rows::{Program, build};
use std::alloc::{AllocError, Global};
use std::marker::Model;
use std::thread::Threads;

/// Compiles group k, counted from 1. Each point of the program is a feasible allocation of the same total, and each
/// feasible allocation has a point of at least its total; the text of the program says the same.
pub fn compile_one<'g>(
    rt: &(impl Threads + Sync),
    alloc: Global,
    book: &ClosedBook,
    groups: &'g Groups,
    k: usize,
) -> Result<Compiled<'g>, AllocError>
    requires some { 1 ≤ k }
    requires within { k ≤ length groups.now }
    ensures compiled { IfOk result (λ c. c ≡ compiled book.now
        (slice_index_or groups.now (k - 1) [])) }
    ensures faithful { IfOk result (λ c. IsFaithful (lots_in book.now.rules) (book_of book.now)
        (has (slice_index_or groups.now (k - 1) [])) c.program) }
    ensures text { IfOk result (λ c. IsFaithfulText (lots_in book.now.rules) (book_of book.now)
        (has (slice_index_or groups.now (k - 1) [])) (text c.program)) }
{
    let flags = Flags::new(rt, alloc, book)?;
    let group = groups.group(k);
    let program = compile(alloc, book, &flags, group)?;
    Ok(Compiled::new(group, program))
}

/// The program of a book without a group, by the flags of the book.
pub(crate) fn compile(
    alloc: Global,
    book: &ClosedBook,
    flags: &Flags,
    group: &Group,
) -> Result<Program, AllocError>
    requires { flags.now ≡ flags_of (lots_in book.now.rules) (book_of book.now) }
    ensures program { IfOk result (λ program. program ≡ program_without book.now group.now) }
    ensures faithful { IfOk result (λ program. IsFaithful (lots_in book.now.rules)
        (book_of book.now) (has group.now) program) }
    ensures text { IfOk result (λ program. IsFaithfulText (lots_in book.now.rules)
        (book_of book.now) (has group.now) (text program)) }
{
    let kept = flags.kept(alloc, book, group)?;
    build(alloc, book.rules(), &kept)
}

/// Compiles the groups of an auction, by flags that are found once. Contracts see the book and the groups.
#[derive(Drop)]
pub struct Compiler<'b, 'g> {
    book: &'b ClosedBook,
    groups: &'g Groups,
    flags: Flags,
    ghost flags_are: { flags ≡ flags_of (lots_in book.now.rules) (book_of book.now) },
}

impl<'b, 'g> Model for Compiler<'b, 'g> {
    ghost use Rattle.group_compiler.specs.Compiled.{Compiling, compiling};

    ghost Value = { Compiling };

    ghost view = { λ c. compiling c.book.now c.groups.now };
}

impl<'b, 'g> Compiler<'b, 'g> {
    ghost use Rattle.group_compiler.specs.Compiled.{compiling, program_among};

    /// A compiler of the groups of an auction.
    pub fn new(
        rt: &(impl Threads + Sync),
        alloc: Global,
        book: &'b ClosedBook,
        groups: &'g Groups,
    ) -> Result<Compiler<'b, 'g>, AllocError>
        ensures { IfOk result (λ compiler. compiler ≡ compiling book.now groups.now) }
    {
        Ok(Compiler {
            book,
            groups,
            flags: Flags::new(rt, alloc, book)?,
        })
    }

    /// The book.
    pub fn book(&self) -> &'b ClosedBook
        ensures { result.now ≡ self.now.book }
    {
        self.book
    }

    /// How many groups there are.
    pub fn count(&self) -> usize
        ensures count { result ≡ length self.now.groups }
        ensures few { result ≤ MOST_GROUPS }
    {
        self.groups.count()
    }

    /// What every compiler keeps to: how many groups there may be.
    pub fn within_limits(&self)
        ensures few { length self.now.groups ≤ MOST_GROUPS }
    {
        self.count();
    }

    /// Group k, counted from 1.
    pub fn group(&self, k: usize) -> &'g Group
        requires some { 1 ≤ k }
        requires within { k ≤ length self.now.groups }
        ensures { result.now ≡ slice_index_or self.now.groups (k - 1) [] }
    {
        self.groups.group(k)
    }

    /// The program of those bids alone that are kept without a group and are among these choices.
    pub fn program_among(
        &self,
        alloc: Global,
        group: &Group,
        choices: Vec<Choice>,
    ) -> Result<Program, AllocError>
        ensures { IfOk result (λ program. program
            ≡ program_among self.now.book group.now choices.items) }
    {
        let kept = self.flags.kept_among(alloc, self.book, group, choices)?;
        build(alloc, self.book.rules(), &kept)
    }

    /// The program without a group, whether it is one of these or another one.
    pub fn program_without(&self, alloc: Global, group: &Group) -> Result<Program, AllocError>
        ensures { IfOk result (λ program. program ≡ program_without self.now.book group.now) }
    {
        compile(alloc, self.book, &self.flags, group)
    }

    /// The programs of all groups, whether they are these or other ones, by one program that is made here.
    pub fn group_programs(&self, alloc: Global) -> Result<GroupPrograms<'b>, AllocError>
        ensures { IfOk result (λ programs. programs ≡ self.now.book) }
    {
        GroupPrograms::new(alloc, self.book, &self.flags)
    }

    /// Compiles group k, counted from 1, as `compile_one` does.
    pub fn compile(&self, alloc: Global, k: usize) -> Result<Compiled<'g>, AllocError>
        requires some { 1 ≤ k }
        requires within { k ≤ length self.now.groups }
        ensures { IfOk result (λ c. c ≡ compiled self.now.book
            (slice_index_or self.now.groups (k - 1) [])) }
    {
        let group = self.groups.group(k);
        let program = self.program_without(alloc, group)?;
        Ok(Compiled::new(group, program))
    }
}

impl<'b, 'g> Maker for Compiler<'b, 'g> {
    type Made = Compiled<'g>;

    ghost count_of = { λ c. length c.groups };

    ghost groups_of = { λ c. length c.groups };

    ghost makes = { λ c n made. made ≡ compiled c.book (slice_index_or c.groups n []) };

    fn count(&self) -> usize {
        Compiler::count(self)
    }

    fn groups(&self) -> usize {
        Compiler::count(self)
    }

    fn make(&self, alloc: Global, number: usize) -> Result<Compiled<'g>, AllocError> {
        self.within_limits();
        self.compile(alloc, number + 1)
    }
}
