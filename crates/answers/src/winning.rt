//! What a solution wins.

ghost use Rattle.std.specs.Prelude.{◌≡◌, ℕ, [], IfErr, IfOk, IfSome, Ok, slice_get};
ghost use Rattle.std.specs.Option.{option_map_or};
ghost use Rattle.auction_terms.specs.Allocations.{IsFeasible};
ghost use Rattle.auction_terms.specs.Groups.{has};
ghost use Rattle.auction_terms.specs.Terms.{lots_in};
ghost use Rattle.bid_desk.specs.Closing.{book_of};
ghost use Rattle.group_compiler.specs.Compiled.{program_without};
ghost use Rattle.program_rows.specs.Faithful.{IsFaithful};
ghost use Rattle.auction_input.specs.Refused.{Refuses};
ghost use Rattle.answers.specs.SolutionWinners.{solution_refused, winners_by};
ghost use Rattle.program_rows.specs.ProgramNames.{row_name};

use auction_input::{Name, Refusal};
use auction_terms::{Choice, Group, LineReader, next_field};
use bid_desk::ClosedBook;
use group_compiler::Compiler;
use outcome::{Allocation, map_back, read_solution};
use program_rows::{Program, SolutionFault, bid_named};
use std::alloc::{AllocError, Global};

/// The allocation that a solution of a group's program wins. The solution is named by its number, from 1.
pub fn allocation_won(
    alloc: Global,
    book: &ClosedBook,
    group: &Group,
    program: &Program,
    solution: usize,
    text: &[u8],
) -> Result<Allocation, Refusal>
    requires { IsFaithful (lots_in book.now.rules) (book_of book.now) (has group.now) program.now }
    ensures feasible { IfOk result (λ a. IsFeasible (lots_in book.now.rules) (book_of book.now)
        (has group.now) a) }
    ensures won { IfOk result (λ a. winners_by program.now solution text.now ≡ Ok a) }
    ensures refuses { IfErr result (Refuses (winners_by program.now solution text.now)) }
{
    match read_solution(alloc, text, program) {
        Ok(point) => Ok(map_back(alloc, program, &point)?),
        Err(fault) => Err(refused(alloc, program, solution, fault)?),
    }
}

/// The allocation that a solution wins without a group. Its text is read against the program of just those kept bids that
/// it names, and only where that refuses it against the program of all, which says why it is refused.
pub fn won_without(
    alloc: Global,
    compiler: &Compiler<'_, '_>,
    group: &Group,
    solution: usize,
    text: &[u8],
) -> Result<Allocation, Refusal>
    ensures feasible { IfOk result (λ a. IsFeasible (lots_in compiler.now.book.rules)
        (book_of compiler.now.book) (has group.now) a) }
    ensures won { IfOk result (λ a. winners_by (program_without compiler.now.book group.now)
        solution text.now ≡ Ok a) }
    ensures refuses { IfErr result (Refuses (winners_by
        (program_without compiler.now.book group.now) solution text.now)) }
{
    if let Some(allocation) = won_by_named(alloc, compiler, group, text)? {
        return Ok(allocation);
    }
    won_by_all(alloc, compiler, group, solution, text)
}

/// The allocation that a solution wins by the program of all kept bids, or why that refuses it.
pub fn won_by_all(
    alloc: Global,
    compiler: &Compiler<'_, '_>,
    group: &Group,
    solution: usize,
    text: &[u8],
) -> Result<Allocation, Refusal>
    ensures feasible { IfOk result (λ a. IsFeasible (lots_in compiler.now.book.rules)
        (book_of compiler.now.book) (has group.now) a) }
    ensures won { IfOk result (λ a. winners_by (program_without compiler.now.book group.now)
        solution text.now ≡ Ok a) }
    ensures refuses { IfErr result (Refuses (winners_by
        (program_without compiler.now.book group.now) solution text.now)) }
{
    compiler.book().within_limits();
    let program = compiler.program_without(alloc, group)?;
    allocation_won(alloc, compiler.book(), group, &program, solution, text)
}

// The bid that a line names, if its first field spells one.
fn bid_in(line: &[u8]) -> Option<Choice> {
    bid_named(next_field(line)?.text)
}

// The bids that the lines of a text name. Whatever they are, a solution is taken as it would be against the program of all
// bids, so that nothing is said of them.
fn named_bids(alloc: Global, text: &[u8]) -> Result<Vec<Choice>, AllocError> {
    let mut named = Vec::new(alloc);
    let mut lines = LineReader::new(text);
    while let Some(line) = lines.next() {
        if let Some(choice) = bid_in(line) {
            named.push(choice)?;
        }
    }
    Ok(named)
}

/// The allocation that a solution wins by the program of the bids that it names, if that takes it.
pub fn won_by_named(
    alloc: Global,
    compiler: &Compiler<'_, '_>,
    group: &Group,
    text: &[u8],
) -> Result<Option<Allocation>, AllocError>
    ensures feasible { IfOk result (λ taken. IfSome taken (λ a.
        IsFeasible (lots_in compiler.now.book.rules) (book_of compiler.now.book)
        (has group.now) a)) }
    ensures won { IfOk result (λ taken. IfSome taken (λ a. (number : ℕ)
        → winners_by (program_without compiler.now.book group.now) number text.now ≡ Ok a)) }
{
    compiler.book().within_limits();
    let choices = named_bids(alloc, text)?;
    let program = compiler.program_among(alloc, group, choices)?;
    match read_solution(alloc, text, &program) {
        Ok(point) => Ok(Some(map_back(alloc, &program, &point)?)),
        Err(SolutionFault::OutOfMemory) => Err(AllocError),
        Err(_) => Ok(None),
    }
}

// A fault of a solution, with the name of what it breaks.
fn refused(
    alloc: Global,
    program: &Program,
    solution: usize,
    fault: SolutionFault,
) -> Result<Refusal, AllocError>
    ensures { IfOk result (λ r. r ≡ solution_refused program.now solution fault) }
{
    match fault {
        SolutionFault::BoundBroken { column } => {
            let column = Name::copied(alloc, column_name(program, column))?;
            Ok(Refusal::BoundBroken { solution, column })
        }
        SolutionFault::RowBroken { row } => {
            let row = Name::copied(alloc, row_name(program, row))?;
            Ok(Refusal::RowBroken { solution, row })
        }
        SolutionFault::TooLarge
        | SolutionFault::Fields { .. }
        | SolutionFault::UnknownColumn { .. }
        | SolutionFault::RepeatedColumn { .. }
        | SolutionFault::ValueText { .. }
        | SolutionFault::NotZeroOne { .. }
        | SolutionFault::OutOfMemory => Ok(Refusal::Solution { solution, fault }),
    }
}

// The name of a column; where there is none, no name.
pub(crate) fn column_name(program: &Program, column: usize) -> &[u8]
    ensures { result.now ≡ option_map_or (λ c. c.name) (slice_get program.now.columns column) [] }
{
    if column < program.column_count() {
        program.column_name(column)
    } else {
        b"".as_slice()
    }
}

// The name of a row; where there is none, no name.
pub(crate) fn row_name(program: &Program, row: usize) -> &[u8]
    ensures { result.now ≡ row_name program.now.rows row }
{
    if row < program.row_count() {
        program.row_name(row)
    } else {
        b"".as_slice()
    }
}
