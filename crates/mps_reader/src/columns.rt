//! The columns that the lines so far name, and the markers between them.

ghost use Rattle.std.specs.Prelude.{◌≡◌, [], ℕ, List, Option, Some, length, not, true, false, ◌&&◌, bytes_eq, is_some, OnOk, codes, IfOk};
ghost use Rattle.std.specs.List.{list_any};
ghost use Rattle.std.specs.List.Sorted.{IsPermutation, IsNonDecreasingBy};
ghost use Rattle.program_rows.specs.declared.mps_fault_kind.MpsFaultKind.TheVariants.{ColumnSplit};
ghost use Rattle.auction_terms.specs.LineFields.{LineFields, field};
ghost use Rattle.program_rows.specs.Parts.{IsName};
ghost use Rattle.mps_reader.specs.inside.Reading.{AnswersFault};
ghost use Rattle.mps_reader.specs.inside.Rows.{names_of, option_now};
ghost use Rattle.mps_reader.specs.inside.Columns.{ColumnsFit, AddsColumn, IsApart};
ghost use Rattle.mps_reader.specs.inside.Tracking.{ColumnsTell, ColumnAdded, is_current};
ghost use Rattle.std.specs.Bool.{then_some as when};
ghost use Rattle.program_rows.specs.MpsProgram.{is_marker};
ghost use Rattle.program_rows.specs.MpsFaults.{is_integer_open, marker_fault};
ghost use Rattle.auction_terms.specs.Lines.{bytes_of};

use crate::fields::is_word;
use crate::refusal::Refusal;
use crate::tables::{ColumnState, ColumnTable, insert_name};
use program_rows::{Bounds, MpsFaultKind};
use std::alloc::AllocError;

// Entries are stated by their places and not by their order, so the sort has a contract of its own.
fn sort_entries(entries: &mut Vec<(usize, i64)>)
    ensures moved { IsPermutation entries.old.items entries.new.items }
    ensures sorted { IsNonDecreasingBy (λ entry. entry.0) entries.new.items }
{
    entries.sort_unstable_by_key(|entry| entry.0);
}

/// Ends the current column.
pub fn close_column<'t>(columns: &mut ColumnTable<'t>) -> Result<(), AllocError>
    ensures fit { OnOk result ((count : ℕ) → ColumnsFit count columns.old
        → ColumnsFit count columns.new) }
    ensures names { columns.new.names ≡ columns.old.names }
    ensures states { columns.new.states ≡ columns.old.states }
    ensures begun { columns.new.is_begun ≡ columns.old.is_begun }
    ensures closed { OnOk result (is_some columns.new.current ≡ false) }
    ensures tells { OnOk result ((objective : Option (List ℕ)) (rows : List (List ℕ))
        (lines bounds : List LineFields) → ColumnsFit (length rows) columns.old
        → ColumnsTell objective rows lines bounds columns.old
        → ColumnsTell objective rows lines bounds columns.new) }
{
    let Some(name) = columns.current else {
        return Ok(());
    };
    sort_entries(&mut columns.current_column.entries);
    columns.done.push(
        name,
        Bounds::ZeroOrOne,
        columns.current_column.cost,
        columns.current_column.entries.as_slice(),
    )?;
    columns.current_column.entries.clear();
    columns.current_column.cost = 0;
    columns.current = None;
    Ok(())
}

fn is_current(current: Option<&[u8]>, name: &[u8]) -> bool
    ensures { result ≡ is_current current.entry name.now }
{
    match current {
        Some(other) => is_word(name, other),
        None => false,
    }
}

fn add_column<'t>(columns: &mut ColumnTable<'t>, name: &'t [u8]) -> Result<(), Refusal>
    ensures fault { AnswersFault result (when
        (list_any (bytes_eq name.now) (names_of columns.old.names)) ColumnSplit) }
    ensures added { OnOk result (AddsColumn name.now columns.old columns.new) }
{
    let is_new = insert_name(&mut columns.names, name)?;
    refuse!(!is_new, ColumnSplit);
    columns.states.push(ColumnState {
        is_integer: columns.is_begun,
        lower: false,
        upper: None,
    })?;
    columns.current = Some(name);
    Ok(())
}

/// The column that a line names is the current one from then on.
pub fn open_column<'t>(columns: &mut ColumnTable<'t>, name: &'t [u8]) -> Result<(), Refusal>
    requires { IsName name.now }
    ensures current { OnOk result (option_now columns.new.current ≡ Some name.now) }
    ensures fit { OnOk result ((count : ℕ) → ColumnsFit count columns.old
        → ColumnsFit count columns.new) }
    ensures fault { AnswersFault result (when
        (not (is_current columns.old.current name.now)
        && list_any (bytes_eq name.now) (names_of columns.old.names)) ColumnSplit) }
    ensures same { OnOk result (is_current columns.old.current name.now ≡ true
        → columns.new ≡ columns.old) }
    ensures added { OnOk result (is_current columns.old.current name.now ≡ false
        → (objective : Option (List ℕ)) (rows : List (List ℕ)) (lines : List LineFields)
        → ColumnsFit (length rows) columns.old → ColumnsTell objective rows lines [] columns.old
        → ColumnAdded objective rows lines name.now columns.new) }
    ensures apart { OnOk result ((count : ℕ) (stamps : List ℕ) (places : List (Option ℕ))
        → ColumnsFit count columns.old
        → IsApart stamps places (length (names_of columns.old.names))
        columns.old.current_column.entries.items
        → IsApart stamps places (length (names_of columns.new.names))
        columns.new.current_column.entries.items) }
{
    if is_current(columns.current, name) {
        return Ok(());
    }
    close_column(columns)?;
    add_column(columns, name)?;
    Ok(())
}

/// Whether a line of COLUMNS is a marker.
pub fn names_marker(fields: &[&[u8]]) -> bool
    ensures { result ≡ is_marker (bytes_of fields.now) }
{
    if fields.len() < 2 {
        return false;
    }
    is_word(fields[1], b"'MARKER'")
}

/// A marker line: whether integers begin after it.
pub fn take_marker(is_begun: bool, fields: &[&[u8]]) -> Result<bool, Refusal>
    ensures fault { (lines : List LineFields) → is_integer_open lines ≡ is_begun
        → AnswersFault result (marker_fault lines (bytes_of fields.now)) }
    ensures value { IfOk result (λ now. now ≡ bytes_eq (field 2 (bytes_of fields.now))
        (codes "'INTORG'")) }
{
    refuse!(fields.len() != 3, Marker);
    let begins = is_word(fields[2], b"'INTORG'");
    let ends = is_word(fields[2], b"'INTEND'");
    refuse!(!begins && !ends, Marker);
    refuse!(begins && is_begun, Marker);
    refuse!(ends && !is_begun, Marker);
    Ok(begins)
}
