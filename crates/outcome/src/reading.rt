//! Reading a solution: its lines, by the columns that they name, and whether what they say is a point of the program.

ghost use Rattle.std.specs.Prelude.{◌≡◌, ◌<◌, ◌≤◌, [], length, map, unwrap_or, false, IfOk, OnOk, Ok, Err, None};
ghost use Rattle.std.specs.Prelude.{bytes_eq, IfSome, position, ◌∷◌, ◌++◌, ◌+◌, ◌==◌, ℕ, List, slice_index, true, not};
ghost use Rattle.std.specs.List.{IsDistinct, zip};
ghost use Rattle.auction_terms.specs.FirstFault.{first_fault, first_failed};
ghost use Rattle.auction_terms.specs.Lines.{lines_of, bytes_of};
ghost use Rattle.auction_terms.specs.Stages.{Answers, unless};
ghost use Rattle.program_rows.specs.Points.{IsPoint, allows};
ghost use Rattle.program_rows.specs.declared.solution_fault.SolutionFault.TheVariants as fault;
ghost use Rattle.outcome.specs.declared.limits.TheConstants.{SOLUTION_LIMIT};
ghost use Rattle.program_rows.specs.ProgramNames.{column_names};
ghost use Rattle.outcome.specs.inside.Reading.{said_by, pair_checks};
ghost use Rattle.outcome.specs.Solution.{is_solution_memory, is_one, solution_line_fault, solution, point_fault};
ghost use Rattle.auction_terms.specs.LineFields.{fields, is_skipped};

use crate::limits::SOLUTION_LIMIT;
use crate::solution_values::{at_line, value_of};
use auction_terms::{LineReader, next_field};
use indexmap::IndexSet;
use program_rows::{Bounds, NameSet, Point, Program, Seeded, SolutionFault, place_of};
use std::alloc::{AllocError, Global};
use std::cell::Cell;

/// Finds columns by name.
#[derive(Drop)]
pub struct ColumnFinder<'p> {
    /// The names of the columns, in the order of the program.
    pub names: NameSet<'p>,
    /// Where the next name is looked for first.
    pub next: Cell<usize>,
}

impl<'p> ColumnFinder<'p> {
    /// The place of the column of this name.
    pub fn place(&self, name: &[u8]) -> Option<usize>
        ensures index { result ≡ position (λ column. bytes_eq name.now column.now)
            self.now.names.keys }
        ensures within { IfSome result (λ place. place < length self.now.names.keys) }
    {
        place_of(&self.names, &self.next, name)
    }
}

/// A finder of the columns of a program.
fn finder_of(alloc: Global, program: &Program) -> Result<ColumnFinder<'_>, AllocError>
    requires { IsDistinct bytes_eq (column_names program.now) }
    ensures { IfOk result (λ finder. bytes_of finder.names.keys ≡ column_names program.now) }
{
    let mut names = IndexSet::with_capacity_and_hasher(
        alloc,
        program.column_count(),
        Seeded::by_names(program),
    )?;
    for column in 0..program.column_count() {
        names.insert(program.column_name(column))?;
    }
    Ok(ColumnFinder {
        names,
        next: Cell::new(0),
    })
}

/// Notes the value that a line gives a column.
fn take_pair(
    columns: &ColumnFinder,
    said: &mut [Option<bool>],
    place: usize,
    name: &[u8],
    token: &[u8],
) -> Result<(), SolutionFault>
    requires { length said.old ≡ length columns.now.names.keys }
    ensures answer { (before : List (List ℕ)) → said.old
        ≡ said_by (bytes_of columns.now.names.keys) before
        → result ≡ unless (first_failed (pair_checks (bytes_of columns.now.names.keys) before
        place name.now token.now)) (Ok tt) }
    ensures kept { OnOk result ((before : List (List ℕ)) (line : List ℕ)
        → IsDistinct bytes_eq (bytes_of columns.now.names.keys)
        → said.old ≡ said_by (bytes_of columns.now.names.keys) before → is_skipped line ≡ false
        → fields line ≡ name.now ∷ token.now ∷ []
        → said.new ≡ said_by (bytes_of columns.now.names.keys) (before ++ line ∷ [])) }
{
    let Some(column) = columns.place(name) else {
        return Err(SolutionFault::UnknownColumn { place });
    };
    if said[column].is_some() {
        return Err(SolutionFault::RepeatedColumn { place });
    }
    match value_of(token) {
        Ok(value) => said[column] = Some(value),
        Err(fault) => return Err(at_line(fault, place)),
    }
    Ok(())
}

fn is_comment(line: &[u8]) -> bool
    ensures { result ≡ (slice_index line.now 0 == 35) }
{
    !line.is_empty() && line[0] == b'#'
}

/// Takes a line, of which `place` is the number.
fn take_line(
    columns: &ColumnFinder,
    said: &mut [Option<bool>],
    place: usize,
    line: &[u8],
) -> Result<(), SolutionFault>
    requires { length said.old ≡ length columns.now.names.keys }
    ensures answer { (before : List (List ℕ)) → said.old
        ≡ said_by (bytes_of columns.now.names.keys) before → place ≡ length before + 1
        → result ≡ unless (solution_line_fault (bytes_of columns.now.names.keys) before line.now)
        (Ok tt) }
    ensures kept { OnOk result ((before : List (List ℕ))
        → IsDistinct bytes_eq (bytes_of columns.now.names.keys)
        → said.old ≡ said_by (bytes_of columns.now.names.keys) before
        → said.new ≡ said_by (bytes_of columns.now.names.keys) (before ++ line.now ∷ [])) }
{
    if is_comment(line) {
        return Ok(());
    }
    let Some(name) = next_field(line) else {
        return Ok(());
    };
    let Some(value) = next_field(name.rest) else {
        return Err(SolutionFault::Fields { place });
    };
    if next_field(value.rest).is_some() {
        return Err(SolutionFault::Fields { place });
    }
    take_pair(columns, said, place, name.text, value.text)
}

/// Takes the lines of a text.
fn take_lines(
    columns: &ColumnFinder,
    said: &mut [Option<bool>],
    text: &[u8],
) -> Result<(), SolutionFault>
    requires sized { length said.old ≡ length columns.now.names.keys }
    requires distinct { IsDistinct bytes_eq (bytes_of columns.now.names.keys) }
    requires nothing { said.old ≡ said_by (bytes_of columns.now.names.keys) [] }
    requires small { length text.now ≤ SOLUTION_LIMIT }
    ensures answer { result ≡ unless (first_fault
        (solution_line_fault (bytes_of columns.now.names.keys)) [] (lines_of text.now)) (Ok tt) }
    ensures said { OnOk result (said.new ≡ said_by (bytes_of columns.now.names.keys)
        (lines_of text.now)) }
{
    let mut lines = LineReader::new(text);
    let mut place = 0;
    while let Some(line) = lines.next() {
        place += 1;
        take_line(columns, said, place, line)?;
    }
    Ok(())
}

/// Whether the bounds allow a value.
fn allows(bounds: Bounds, value: bool) -> bool
    ensures { result ≡ allows bounds value }
{
    match bounds {
        Bounds::ZeroOrOne => true,
        Bounds::Zero => !value,
        Bounds::One => value,
    }
}

/// The place of the first column whose bounds don't allow its value.
fn broken_bound(program: &Program, values: &[bool]) -> Option<usize>
    requires { length values.now ≡ length program.now.columns }
    ensures { result ≡ position (λ e. not (allows e.0.bounds e.1))
        (zip program.now.columns values.now) }
{
    for (column, &value) in values.iter().enumerate() {
        if !allows(program.bounds(column), value) {
            return Some(column);
        }
    }
    None
}

/// Refuses values that break a bound, and then those that break a row.
fn check_point(program: &Program, point: &Point) -> Result<(), SolutionFault>
    requires { length point.now ≡ length program.now.columns }
    ensures { result ≡ unless (point_fault program.now point.now) (Ok tt) }
{
    if let Some(column) = broken_bound(program, point.values()) {
        return Err(SolutionFault::BoundBroken { column });
    }
    if let Some(row) = program.broken_row(point) {
        return Err(SolutionFault::RowBroken { row });
    }
    Ok(())
}

/// The values of the columns: those of which nothing is said are 0.
fn values_from(alloc: Global, said: &[Option<bool>]) -> Result<Vec<bool>, AllocError>
    ensures { IfOk result (λ values. values.items ≡ map (λ s. unwrap_or s false) said.now) }
{
    said.iter().map(|s| s.unwrap_or(false)).collect(alloc)
}

/// The values that the lines give the columns.
fn read_values(alloc: Global, bytes: &[u8], program: &Program) -> Result<Point, SolutionFault>
    requires distinct { IsDistinct bytes_eq (column_names program.now) }
    requires small { length bytes.now ≤ SOLUTION_LIMIT }
    ensures { Answers is_solution_memory result
        (unless (first_fault (solution_line_fault (column_names program.now)) []
        (lines_of bytes.now)) (Ok (map (is_one (lines_of bytes.now)) (column_names program.now)))) }
{
    let mut said = vec![in alloc; None; program.column_count()]?;
    let columns = finder_of(alloc, program)?;
    take_lines(&columns, &mut said, bytes)?;
    Ok(Point::new(values_from(alloc, &said)?))
}

/// Reads a solution of a program: each line names a column and gives its value; other columns are 0.
pub fn read_solution(alloc: Global, bytes: &[u8], program: &Program) -> Result<Point, SolutionFault>
    ensures too_large { SOLUTION_LIMIT < length bytes.now → result ≡ Err fault.TooLarge }
    ensures answer { Answers is_solution_memory result (solution program.now bytes.now) }
    ensures point { IfOk result (λ values. IsPoint program.now values) }
{
    if bytes.len() > SOLUTION_LIMIT {
        return Err(SolutionFault::TooLarge);
    }
    // Names of columns differ, so that a set of them has each at its place.
    program.well_formed();
    let point = read_values(alloc, bytes, program)?;
    check_point(program, &point)?;
    Ok(point)
}
