//! What the solutions of all groups win.

ghost use Rattle.std.specs.Prelude.{◌≡◌, ◌≤◌, ◌<◌, [], IfErr, IfOk, Ok, OnOk, length, slice_index_or, true};
ghost use Rattle.auction_terms.specs.declared.limits.TheConstants.{MOST_WORKERS};
ghost use Rattle.auction_terms.specs.Groups.{starts_empty};
ghost use Rattle.bid_desk.specs.Sale.{sale_of};
ghost use Rattle.auction_input.specs.Refused.{Refuses};
ghost use Rattle.auction_input.specs.Settled.{held};
ghost use Rattle.auction_terms.specs.Lines.{bytes_of};
ghost use Rattle.group_compiler.specs.Compiled.{compiling};
ghost use Rattle.answers.specs.SolutionWinners.{winners_of_groups};
ghost use Rattle.answers.specs.inside.SolutionWinners.{AreMade, parsed_winners};

use crate::first_faulty::Lowest;
use crate::winning::{won_by_all, won_by_named};
use auction_input::{Auction, PartKind, Refusal};
use group_compiler::{Compiler, Maker, make_each};
use outcome::Allocation;
use std::alloc::{AllocError, Global};
use std::thread::Threads;

/// Finds what the solution of each group's program wins, by the program of the bids that it names. A solution that this
/// refuses is left to be read against the program of all bids, and nothing is begun after it: so only one such program
/// stands at a time, however many workers there are.
#[derive(Drop)]
pub struct Winning<'a, 'b, 'g, 't> {
    compiler: &'a Compiler<'b, 'g>,
    solutions: &'a [&'t [u8]],
    left: Lowest,
    ghost each: { length solutions.now ≡ length compiler.now.groups },
}

impl<'a, 'b, 'g, 't> Maker for Winning<'a, 'b, 'g, 't> {
    ghost use Rattle.std.specs.Prelude.{◌≡◌, ◌+◌, IfSome, Ok, length};
    ghost use Rattle.bid_desk.specs.Sale.{sale_of};
    ghost use Rattle.answers.specs.inside.SolutionWinners.{winners_at};

    type Made = Option<Allocation>;

    ghost count_of = { λ w. length w.compiler.now.groups };

    ghost groups_of = { λ w. length w.compiler.now.groups };

    ghost makes = { λ w n made. IfSome made (λ a. winners_at (sale_of w.compiler.now.book) w.compiler.now.groups (bytes_of w.solutions.now) n ≡ Ok a) };

    fn count(&self) -> usize {
        self.compiler.count()
    }

    fn groups(&self) -> usize {
        self.compiler.count()
    }

    fn make(&self, alloc: Global, number: usize) -> Result<Option<Allocation>, AllocError> {
        if self.left.is_below(number) {
            return Ok(None);
        }
        self.compiler.within_limits();
        let group = self.compiler.group(number + 1);
        let text = text_at(self.solutions, number);
        let won = won_by_named(alloc, self.compiler, group, text)?;
        if won.is_none() {
            self.left.note(number);
        }
        Ok(won)
    }
}

impl<'a, 'b, 'g, 't> Winning<'a, 'b, 'g, 't> {
    ghost use Rattle.std.specs.Prelude.{◌≡◌, ◌<◌, IfSome, Ok, length};
    ghost use Rattle.answers.specs.inside.SolutionWinners.{IsParsedAnswer, winners_at};

    // What the solution of a group wins, or why it is refused, where this was made of it. Its number is from 0.
    fn answer(
        &self,
        alloc: Global,
        number: usize,
        made: Option<Allocation>,
    ) -> Result<Allocation, Refusal>
        requires within { number < length self.now.compiler.now.groups }
        requires made { IfSome made (λ a. winners_at (sale_of self.now.compiler.now.book)
            self.now.compiler.now.groups (bytes_of self.now.solutions.now) number ≡ Ok a) }
        ensures { IsParsedAnswer (winners_at (sale_of self.now.compiler.now.book)
            self.now.compiler.now.groups (bytes_of self.now.solutions.now) number) result }
    {
        if let Some(allocation) = made {
            return Ok(allocation);
        }
        self.compiler.within_limits();
        let group = self.compiler.group(number + 1);
        let text = text_at(self.solutions, number);
        won_by_all(alloc, self.compiler, group, number + 1, text)
    }
}

/// The text at a place.
pub fn text_at<'t>(texts: &[&'t [u8]], place: usize) -> &'t [u8]
    requires { place < length texts.now }
    ensures { result.now ≡ slice_index_or (bytes_of texts.now) place [] }
{
    texts[place]
}

/// Checks that the first group is empty, and that there is a solution for each group. What this refuses is refused before
/// anything else of solutions, so that no compiler need be made for it.
pub fn check_counts(auction: &Auction<'_>) -> Result<(), Refusal>
    ensures first { OnOk result (starts_empty auction.now.groups ≡ true) }
    ensures each { OnOk result (length auction.now.solutions.items ≡ length auction.now.groups) }
    ensures refuses { IfErr result (Refuses (winners_of_groups (held auction.now))) }
{
    let Auction {
        groups,
        solutions,
        ..
    } = auction;
    if !groups.starts_empty() {
        return Err(Refusal::FirstGroupNotEmpty);
    }
    if solutions.len() != groups.count() {
        return Err(Refusal::PartCount(PartKind::Solution));
    }
    Ok(())
}

/// What the solutions of an auction whose counts are right win, group by group, by the auction's compiler. No more programs
/// stand at once than there are workers.
pub fn won_by_groups<R: Threads + Sync + AllocGlobal>(
    rt: &R,
    auction: &Auction<'_>,
    compiler: &Compiler<'_, '_>,
    workers: usize,
) -> Result<Vec<Allocation>, Refusal>
    requires some { 1 ≤ workers }
    requires few { workers ≤ MOST_WORKERS }
    requires compiler { compiler.now ≡ compiling auction.now.book auction.now.groups }
    requires first { starts_empty auction.now.groups ≡ true }
    requires each { length auction.now.solutions.items ≡ length auction.now.groups }
    ensures count { IfOk result (λ won. length won.items ≡ length auction.now.groups) }
    ensures won { IfOk result (λ won. winners_of_groups (held auction.now) ≡ Ok won.items) }
    ensures refuses { IfErr result (Refuses (winners_of_groups (held auction.now))) }
{
    let alloc: Global = rt.alloc();
    let winning = Winning {
        compiler,
        solutions: auction.solutions.as_slice(),
        left: Lowest::none(),
    };
    let made = make_each(rt, alloc, workers, &winning)?;
    all_won(alloc, &winning, made)
}

// The allocations, where all solutions are taken, or the first refusal.
fn all_won(
    alloc: Global,
    winning: &Winning<'_, '_, '_, '_>,
    made: Vec<Option<Allocation>>,
) -> Result<Vec<Allocation>, Refusal>
    requires { AreMade winning.now.compiler.now (bytes_of winning.now.solutions.now) made.items }
    ensures won { IfOk result (λ all. parsed_winners winning.now.compiler.now
        (bytes_of winning.now.solutions.now) ≡ Ok all.items) }
    ensures refuses { IfErr result (Refuses (parsed_winners winning.now.compiler.now
        (bytes_of winning.now.solutions.now))) }
{
    let mut all = Vec::new(alloc);
    for found in made {
        let number = all.len();
        if all.push(winning.answer(alloc, number, found)?).is_err() {
            return Err(Refusal::OutOfMemory);
        }
    }
    Ok(all)
}
