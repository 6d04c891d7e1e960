//! One pass over the lines of a text.
//!
//! The reader goes over the text once, a line at a time, and holds what the lines so far make: the open section, the rows
//! with their right sides, and the columns, of which the last one may be open. Two things are said of that state, and each
//! function below has a clause for each:
//!
//! - *It fits* (`ReadingFits`): names and tables agree with one another, whatever the text was. Places found by name lie
//!   within the tables, and a program can be made of them.
//! - *It tells* (`ReadingTells`): it holds what the lines so far describe, by the definitions of a text's meaning over its
//!   gathered sections. A line more puts one in front of its section's list, so each step of a proof computes.
//!
//! A line's fault is that of the definition, `fault before line`, for any sections that the state describes. Nothing is kept
//! beside the state to remember lines: a repeated entry is found by a stamp for each row (the number of the column that named
//! it last; right sides have a stamp after all columns), and a split column by the name of the open one.
//!
//! To mind when changing it: the order of the checks in a line is that of `Faults`, and the first that fails is reported, so a
//! check moved up or down is another reader. A column is closed by the first line that isn't its own, also by a header, and
//! only then are its entries in the order of rows. What is added to the state needs a line in both records.

ghost use Rattle.std.specs.Prelude.{◌≡◌, ◌≤◌, ◌<◌, length, Err, IfErr, not, map, true, false, position, option_map, is_some};
ghost use Rattle.std.specs.Prelude.{Some, IfOk, ◌≢◌, drop, codes, bytes_eq, OnOk};
ghost use Rattle.auction_terms.specs.Lines.{lines_of, bytes_of};
ghost use Rattle.mps_reader.specs.Answer.{IsRead};
ghost use Rattle.program_rows.specs.MpsMeaning.{meaning};
ghost use Rattle.program_rows.specs.declared.mps_fault_kind.MpsFaultKind.TheVariants.{TooLarge, NotBinary};
ghost use Rattle.program_rows.specs.MpsSections.{Sections, with_line, is_end};
ghost use Rattle.program_rows.specs.MpsProgram.{program};
ghost use Rattle.mps_reader.specs.inside.Reading.{AnswersFault, IsRefusedLine};
ghost use Rattle.mps_reader.specs.inside.Tracking.{ReadingTells};
ghost use Rattle.mps_reader.specs.inside.Agreeing.{ReadingFits};
ghost use Rattle.mps_reader.specs.inside.Rows.{option_now};
ghost use Rattle.mps_reader.specs.inside.States.{state_bounds, is_binary_state};
ghost use Rattle.std.specs.List.{AllByRecursion};
ghost use Rattle.program_rows.specs.MpsLines as spec;
ghost use Rattle.auction_terms.specs.LineFields.{LineFields, field};
ghost use Rattle.program_rows.specs.MpsLines.{Unprintable, line_of};
ghost use Rattle.program_rows.specs.MpsFaults.{fault, header_fault};
ghost use Rattle.program_rows.specs.Parts.{IsName};

use crate::bounds::take_bound;
use crate::columns::close_column;
use crate::entries::take_column_line;
use crate::fields::{Line, is_word, read_line};
use crate::headers::{take_header, take_sense_line};
use crate::limits::PROGRAM_LIMIT;
use crate::refusal::Refusal;
use crate::right_sides::take_right_side_line;
use crate::rows::take_row;
use crate::sections::Section;
use crate::tables::{ColumnState, ColumnTable, Reading, Rows};
use auction_terms::LineReader;
use program_rows::{Bounds, MpsFault, MpsFaultKind, Program, ProgramParts, Seeded};
use std::alloc::{AllocError, Global};

fn take_header_line<'t>(reading: &mut Reading<'t>, fields: &[&'t [u8]]) -> Result<bool, Refusal>
    requires fit { ReadingFits reading.old }
    requires some { 1 ≤ length fields.now }
    ensures end { IfOk result (λ is_end. is_end
        ≡ bytes_eq (field 0 (bytes_of fields.now)) (codes "ENDATA")) }
    ensures fit { OnOk result (ReadingFits reading.new) }
    ensures closed { IfOk result (λ is_end. is_end ≡ true
        → is_some reading.new.columns.current ≡ false) }
    ensures objective { IfOk result (λ is_end. is_end ≡ true
        → is_some reading.new.rows.objective ≡ true) }
    ensures fault { (before : Sections) → ReadingTells before reading.old
        → AnswersFault result (header_fault before (field 0 (bytes_of fields.now))
        (drop 1 (bytes_of fields.now))) }
    ensures tells { OnOk result ((before : Sections) (more : LineFields)
        → ReadingTells before reading.old
        → ReadingTells (with_line before (spec.Header (field 0 (bytes_of fields.now)) more))
        reading.new) }
{
    close_column(&mut reading.columns)?;
    let has_objective = reading.rows.objective.is_some();
    reading.section = take_header(reading.section, has_objective, fields[0], &fields[1..])?;
    if is_word(fields[0], b"ENDATA") {
        refuse_open(reading.columns.states.as_slice())?;
        return Ok(true);
    }
    Ok(false)
}

#[tactic(auto, unfolding(program_rows::specs::MpsFaults::fault))]
fn take_data<'t>(reading: &mut Reading<'t>, fields: &[&'t [u8]]) -> Result<(), Refusal>
    requires fit { ReadingFits reading.old }
    requires some { 1 ≤ length fields.now }
    requires names { AllByRecursion IsName (bytes_of fields.now) }
    ensures fit { OnOk result (ReadingFits reading.new) }
    ensures fault { (before : Sections) → ReadingTells before reading.old
        → AnswersFault result (fault before (spec.Data (bytes_of fields.now))) }
    ensures tells { OnOk result ((before : Sections) → ReadingTells before reading.old
        → ReadingTells (with_line before (spec.Data (bytes_of fields.now))) reading.new) }
{
    match reading.section {
        Section::Sense => take_sense_line(fields),
        Section::Rows => {
            take_row(&mut reading.rows, fields)?;
            Ok(())
        }
        Section::Columns => {
            take_column_line(&mut reading.rows, &mut reading.columns, fields)?;
            Ok(())
        }
        Section::RightSides => {
            take_right_side_line(&mut reading.rows, reading.columns.names.len() + 1, fields)?;
            Ok(())
        }
        Section::Bounds => {
            take_bound(&mut reading.columns, fields)?;
            Ok(())
        }
        _ => Err(Refusal::Fault(MpsFaultKind::Section)),
    }
}

/// Takes a line, and returns whether it is the end.
fn take_line<'t>(reading: &mut Reading<'t>, line: &'t [u8]) -> Result<bool, Refusal>
    requires fit { ReadingFits reading.old }
    ensures end { IfOk result (λ end. end ≡ is_end (line_of line.now)) }
    ensures text { OnOk result (line_of line.now ≢ Unprintable) }
    ensures fit { OnOk result (ReadingFits reading.new) }
    ensures closed { IfOk result (λ is_end. is_end ≡ true
        → is_some reading.new.columns.current ≡ false) }
    ensures objective { IfOk result (λ is_end. is_end ≡ true
        → is_some reading.new.rows.objective ≡ true) }
    ensures fault { (before : Sections) → ReadingTells before reading.old
        → AnswersFault result (fault before (line_of line.now)) }
    ensures tells { OnOk result ((before : Sections) → ReadingTells before reading.old
        → ReadingTells (with_line before (line_of line.now)) reading.new) }
{
    match read_line(line) {
        Line::Skipped => Ok(false),
        Line::Unprintable => Err(Refusal::Fault(MpsFaultKind::NotText)),
        Line::Header(fields) => {
            let is_end = take_header_line(reading, fields.as_slice())?;
            Ok(is_end)
        }
        Line::Data(fields) => {
            take_data(reading, fields.as_slice())?;
            Ok(false)
        }
    }
}

fn is_binary(state: ColumnState) -> bool
    ensures { result ≡ is_binary_state state }
{
    match state.upper {
        Some(upper) => state.is_integer && (upper || !state.lower),
        None => false,
    }
}

/// Refuses the first column without bounds of 0 and 1.
fn refuse_open(states: &[ColumnState]) -> Result<(), Refusal>
    ensures { AnswersFault result (option_map NotBinary
        (position (λ state. not (is_binary_state state)) states.now)) }
{
    match states.iter().position(|state| !is_binary(*state)) {
        Some(column) => Err(Refusal::Fault(MpsFaultKind::NotBinary { column })),
        None => Ok(()),
    }
}

fn bounds_of(state: ColumnState) -> Bounds
    ensures { result ≡ state_bounds state }
{
    if state.lower {
        return Bounds::One;
    }
    match state.upper {
        Some(false) => Bounds::Zero,
        _ => Bounds::ZeroOrOne,
    }
}

// The bounds of all columns.
fn all_bounds(alloc: Global, states: &[ColumnState]) -> Result<Vec<Bounds>, AllocError>
    ensures { IfOk result (λ bounds. bounds.items ≡ map state_bounds states.now) }
{
    states.iter().map(|state| bounds_of(*state)).collect(alloc)
}

fn objective_name(alloc: Global, objective: Option<&[u8]>) -> Result<Vec<u8>, AllocError>
    requires { is_some objective ≡ true }
    ensures { IfOk result (λ name. option_now objective.entry ≡ Some name.items) }
{
    match objective {
        Some(name) => Ok(Vec::from_slice(alloc, name)?),
        None => Ok(Vec::new(alloc)),
    }
}

/// The program that the lines up to the end describe.
fn finished<'t>(alloc: Global, reading: Reading<'t>) -> Result<Program, AllocError>
    requires fit { ReadingFits reading }
    requires closed { is_some reading.columns.current ≡ false }
    requires objective { is_some reading.rows.objective ≡ true }
    ensures { IfOk result (λ made. (before : Sections) → ReadingTells before reading.entry
        → program before ≡ made) }
{
    let Reading { rows, columns, .. } = reading;
    let bounds = all_bounds(alloc, columns.states.as_slice())?;
    let objective_name = objective_name(alloc, rows.objective)?;
    Ok(Program::from_parts(ProgramParts {
        objective_name,
        rows: rows.rows,
        columns: columns.done.with_bounds(bounds),
    }))
}

fn refused(line: usize, refusal: Refusal) -> MpsFault
    ensures line { result.line ≤ line }
    ensures is { IsRefusedLine line refusal result }
{
    match refusal {
        Refusal::Memory => MpsFault {
            line: 0,
            kind: MpsFaultKind::OutOfMemory,
        },
        Refusal::Fault(kind) => MpsFault { line, kind },
    }
}

fn read_lines(alloc: Global, text: &[u8]) -> Result<Program, MpsFault>
    requires { length text.now ≤ PROGRAM_LIMIT }
    ensures line { IfErr result (λ e. e.line ≤ length (lines_of text.now)) }
    ensures meaning { IsRead result (meaning text.now) }
{
    let seed = Seeded::by_text(text);
    let mut reading = Reading {
        section: Section::Start,
        rows: Rows::new(alloc, seed),
        columns: ColumnTable::new(alloc, seed),
    };
    let mut lines = LineReader::new(text);
    let mut place: usize = 0;
    while let Some(line) = lines.next() {
        place += 1;
        let is_end = match take_line(&mut reading, line) {
            Ok(is_end) => is_end,
            Err(refusal) => return Err(refused(place, refusal)),
        };
        if is_end {
            return match finished(alloc, reading) {
                Ok(program) => Ok(program),
                Err(_) => Err(refused(place, Refusal::Memory)),
            };
        }
    }
    Err(MpsFault {
        line: place,
        kind: MpsFaultKind::NoEnd,
    })
}

/// The program that an MPS text describes, or its first faulty line.
pub fn read_program(alloc: Global, text: &[u8]) -> Result<Program, MpsFault>
    ensures too_large { PROGRAM_LIMIT < length text.now
        → result ≡ Err (record { line = 0; kind = TooLarge }) }
    ensures line { IfErr result (λ e. e.line ≤ length (lines_of text.now)) }
    ensures meaning { length text.now ≤ PROGRAM_LIMIT → IsRead result (meaning text.now) }
{
    if text.len() > PROGRAM_LIMIT {
        return Err(MpsFault {
            line: 0,
            kind: MpsFaultKind::TooLarge,
        });
    }
    read_lines(alloc, text)
}
