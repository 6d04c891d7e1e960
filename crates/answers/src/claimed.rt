//! What is claimed of other awards after a report, and what comes of it.

ghost use Rattle.std.specs.Prelude.{◌≡◌, ◌≤◌, ◌<◌, ◌+◌, ◌⊎◌, ◌∷◌, [], All, IfErr, IfOk, None, Ok, OnOk, Some, false, length, map, slice_index_or, true};
ghost use Rattle.auction_terms.specs.Allocations.{IsFeasible};
ghost use Rattle.auction_terms.specs.FirstFault.{first_failed};
ghost use Rattle.auction_terms.specs.Groups.{starts_empty};
ghost use Rattle.auction_terms.specs.Keeping.{is_kept_choice};
ghost use Rattle.auction_terms.specs.Limits.{IsBook};
ghost use Rattle.auction_terms.specs.Terms.{lots_in};
ghost use Rattle.auction_terms.specs.declared.limits.TheConstants.{MOST_TIES};
ghost use Rattle.bid_desk.specs.Closing.{book_of};
ghost use Rattle.bid_desk.specs.Sale.{sale_of};
ghost use Rattle.auction_input.specs.Refused.{Refuses};
ghost use Rattle.auction_input.specs.Settled.{held};
ghost use Rattle.group_compiler.specs.Compiled.{compiling, program_without};
ghost use Rattle.outcome.specs.PointAllocation.{allocation_of};
ghost use Rattle.program_rows.specs.Points.{IsPoint};
ghost use Rattle.answers.specs.Claimed as claimed;
ghost use Rattle.answers.specs.Claimed.{award_fault, claim_counts, parsed_claims, parsed_tie, parsed_ties};
ghost use Rattle.answers.specs.Claimed.{IsTooWideClaim, tie_number};
ghost use Rattle.answers.specs.SolutionWinners.{winners_of_groups};
ghost use Rattle.answers.specs.inside.Claiming.{IsShownUnique, IsUniqueRefused, IsWonFirst};

use crate::winning::{column_name, row_name};
use auction_input::{Auction, Name, PartKind, Refusal, TieFault};
use auction_terms::MOST_TIES;
use bid_desk::ClosedBook;
use group_compiler::Compiler;
use optimality::check_only;
use outcome::{
    Allocation, Further, OtherAwards, map_back, others_of, read_solution, same_winners, total,
};
use program_rows::{Point, Program, SolutionFault};
use std::alloc::{AllocError, Global};

// Checks that there are as many texts of each kind of claim as there may be.
fn check_claim_counts(auction: &Auction<'_>) -> Result<(), Refusal>
    ensures fine { OnOk result (first_failed (claim_counts (held auction.now)) ≡ None) }
    ensures refused { IfErr result (λ r. first_failed (claim_counts (held auction.now)) ≡ Some r) }
{
    if auction.uniques.len() > 1 {
        return Err(Refusal::PartCount(PartKind::Unique));
    }
    if auction.ties.len() > usize::from(MOST_TIES) {
        return Err(Refusal::PartCount(PartKind::Tie));
    }
    Ok(())
}

// The number of a tie, if there are several.
fn tie_number(auction: &Auction<'_>, number: usize) -> Option<usize>
    ensures { result ≡ tie_number (held auction.now) number }
{
    if auction.ties.len() <= 1 {
        return None;
    }
    Some(number)
}

// A fault of the text of a tie, with the name of what it breaks.
fn tie_fault(alloc: Global, program: &Program, fault: SolutionFault) -> Result<TieFault, AllocError>
    ensures { IfOk result (λ f. f ≡ claimed.tie_fault program.now fault) }
{
    match fault {
        SolutionFault::BoundBroken { column } => {
            let column = Name::copied(alloc, column_name(program, column))?;
            Ok(TieFault::BoundBroken { column })
        }
        SolutionFault::RowBroken { row } => {
            let row = Name::copied(alloc, row_name(program, row))?;
            Ok(TieFault::RowBroken { row })
        }
        SolutionFault::TooLarge
        | SolutionFault::Fields { .. }
        | SolutionFault::UnknownColumn { .. }
        | SolutionFault::RepeatedColumn { .. }
        | SolutionFault::ValueText { .. }
        | SolutionFault::NotZeroOne { .. }
        | SolutionFault::OutOfMemory => Ok(TieFault::Solution(fault)),
    }
}

// The number of the first of these ties that has the winners of an award.
fn same_tie(ties: &[Allocation], award: &Allocation) -> Option<usize>
    requires few { length ties.now ≤ MOST_TIES }
    ensures { result ≡ claimed.same_tie 1 ties.now award.now }
{
    for (place, tie) in ties.iter().enumerate() {
        if same_winners(tie, award) {
            return Some(place + 1);
        }
    }
    None
}

// The award before, if there is one, that has the same winners.
fn same_fault(first: &Allocation, before: &[Allocation], award: &Allocation) -> Option<TieFault>
    requires few { length before.now ≤ MOST_TIES }
    ensures { result ≡ claimed.same_winners first.now before.now award.now }
{
    if same_winners(first, award) {
        return Some(TieFault::SameAsFirst);
    }
    let tie = same_tie(before, award)?;
    Some(TieFault::SameAsTie { tie })
}

// Why an award doesn't tie with the first one, or is there before.
fn award_fault(
    book: &ClosedBook,
    first: &Allocation,
    before: &[Allocation],
    award: &Allocation,
) -> Option<TieFault>
    requires few { length before.now ≤ MOST_TIES }
    ensures { result ≡ award_fault (sale_of book.now) first.now before.now award.now }
{
    if total(book, award) < total(book, first) {
        return Some(TieFault::LowerTotal);
    }
    same_fault(first, before, award)
}

/// A point that ties, and the award that it wins.
#[derive(Drop)]
struct Tie {
    point: Point,
    award: Allocation,
}

// Reads the tie of a text, after ties with these awards.
fn read_tie(
    alloc: Global,
    auction: &Auction<'_>,
    program: &Program,
    first: &Allocation,
    before: &[Allocation],
    text: &[u8],
) -> Result<Tie, Refusal>
    requires book { IsBook (lots_in auction.now.book.rules) (book_of auction.now.book) }
    requires program { program.now ≡ program_without auction.now.book [] }
    requires few { length before.now ≤ MOST_TIES }
    ensures parsed { IfOk result (λ t. parsed_tie (held auction.now) first.now before.now text.now
        ≡ Ok t.point) }
    ensures point { IfOk result (λ t. IsPoint program.now t.point) }
    ensures award { IfOk result (λ t. t.award ≡ allocation_of program.now t.point) }
    ensures refuses { IfErr result (Refuses (parsed_tie (held auction.now) first.now before.now
        text.now)) }
{
    let tie = tie_number(auction, before.len() + 1);
    let point = match read_solution(alloc, text, program) {
        Ok(point) => point,
        Err(fault) => {
            let fault = tie_fault(alloc, program, fault)?;
            return Err(Refusal::Tie { tie, fault });
        }
    };
    let award = map_back(alloc, program, &point)?;
    match award_fault(&auction.book, first, before, &award) {
        Some(fault) => Err(Refusal::Tie { tie, fault }),
        None => Ok(Tie { point, award }),
    }
}

/// The points that tie, and the award that each wins.
#[derive(Drop)]
struct Ties {
    points: Vec<Point>,
    awards: Vec<Allocation>,
}

impl Ties {
    ghost use Rattle.std.specs.Prelude.{◌≡◌, ◌++◌, ◌∷◌, [], OnOk};

    // Adds a tie.
    fn add(&mut self, tie: Tie) -> Result<(), AllocError>
        ensures points { OnOk result (self.new.points.items
            ≡ self.old.points.items ++ tie.point ∷ []) }
        ensures awards { OnOk result (self.new.awards.items
            ≡ self.old.awards.items ++ tie.award ∷ []) }
    {
        let Tie { point, award } = tie;
        self.points.push(point)?;
        self.awards.push(award)?;
        Ok(())
    }
}

// Reads all ties of an auction.
fn read_ties(
    alloc: Global,
    auction: &Auction<'_>,
    program: &Program,
    first: &Allocation,
) -> Result<Ties, Refusal>
    requires book { IsBook (lots_in auction.now.book.rules) (book_of auction.now.book) }
    requires program { program.now ≡ program_without auction.now.book [] }
    requires few { length auction.now.ties.items ≤ MOST_TIES }
    ensures parsed { IfOk result (λ t. parsed_ties (held auction.now) first.now []
        (held auction.now).ties ≡ Ok t.points.items) }
    ensures points { IfOk result (λ t. All (IsPoint program.now) t.points.items) }
    ensures awards { IfOk result (λ t. t.awards.items
        ≡ map (allocation_of program.now) t.points.items) }
    ensures refuses { IfErr result (Refuses (parsed_ties (held auction.now) first.now []
        (held auction.now).ties)) }
{
    let mut ties = Ties {
        points: Vec::new(alloc),
        awards: Vec::new(alloc),
    };
    for text in auction.ties.as_slice() {
        let tie = read_tie(alloc, auction, program, first, &ties.awards, text)?;
        ties.add(tie)?;
    }
    Ok(ties)
}

// Checks that the one text shows that no point but group 1's and those of the ties is as good.
fn check_unique(
    alloc: Global,
    auction: &Auction<'_>,
    program: &Program,
    points: &[Point],
) -> Result<(), Refusal>
    requires program { program.now ≡ program_without auction.now.book [] }
    requires points { All (IsPoint program.now) points.now }
    requires some { 0 < length auction.now.solutions.items }
    requires one { length auction.now.uniques.items ≡ 1 }
    ensures shown { OnOk result (IsShownUnique (held auction.now) points.now) }
    ensures refuses { IfErr result (IsUniqueRefused (held auction.now) points.now) }
{
    // The solution was taken before, so that only memory can refuse it now.
    let Ok(point) = read_solution(alloc, auction.solutions[0], program) else {
        return Err(Refusal::OutOfMemory);
    };
    match check_only(alloc, auction.uniques[0], program, &point, points) {
        Ok(()) => Ok(()),
        Err(fault) => Err(Refusal::Unique(fault)),
    }
}

// What comes of ties, and of a text that is to show that there is no other award.
fn claimed_others(
    alloc: Global,
    auction: &Auction<'_>,
    compiler: &Compiler<'_, '_>,
    first: &Allocation,
) -> Result<OtherAwards, Refusal>
    requires compiler { compiler.now ≡ compiling auction.now.book auction.now.groups }
    requires won { IsWonFirst auction.now first.now }
    requires counted { first_failed (claim_counts (held auction.now)) ≡ None }
    ensures parsed { IfOk result (λ others. parsed_claims (held auction.now) first.now ≡ Ok others) }
    ensures refuses { IfErr result (λ r. Refuses (parsed_claims (held auction.now) first.now) r
        ⊎ IsTooWideClaim (held auction.now) first.now r) }
{
    auction.book.within_limits();
    let program = compiler.program_without(alloc, auction.groups.group(1))?;
    let Ties { points, awards } = read_ties(alloc, auction, &program, first)?;
    if auction.uniques.is_empty() {
        return Ok(OtherAwards::new(awards, Further::Unknown));
    }
    check_unique(alloc, auction, &program, &points)?;
    Ok(others_of(alloc, &auction.book, first, awards)?)
}

/// What comes of the claims of an auction, by the auction's compiler, where its solutions win these allocations.
pub fn claim_of(
    alloc: Global,
    auction: &Auction<'_>,
    compiler: &Compiler<'_, '_>,
    won: &[Allocation],
) -> Result<OtherAwards, Refusal>
    requires compiler { compiler.now ≡ compiling auction.now.book auction.now.groups }
    requires won { winners_of_groups (held auction.now) ≡ Ok won.now }
    ensures parsed { IfOk result (λ others. parsed_claims (held auction.now)
        (slice_index_or won.now 0 []) ≡ Ok others) }
    ensures refuses { IfErr result (λ r. Refuses (parsed_claims (held auction.now)
        (slice_index_or won.now 0 [])) r
        ⊎ IsTooWideClaim (held auction.now) (slice_index_or won.now 0 []) r) }
{
    check_claim_counts(auction)?;
    if auction.uniques.is_empty() && auction.ties.is_empty() {
        return Ok(OtherAwards::new(Vec::new(alloc), Further::Unknown));
    }
    claimed_others(alloc, auction, compiler, &won[0])
}
