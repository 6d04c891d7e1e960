//! Lines of COLUMNS.

ghost use Rattle.std.specs.Prelude.{◌≡◌, ◌≤◌, ◌==◌, ◌||◌, ◌∷◌, [], ◌++◌, ℕ, ℤ, Bool, List, not, true, false, is_some};
ghost use Rattle.std.specs.Prelude.{length, bytes_eq, drop, Option, None, OnOk, if◌then◌else◌};
ghost use Rattle.std.specs.List.{AllByRecursion, list_any};
ghost use Rattle.program_rows.specs.declared.mps_fault_kind.MpsFaultKind.TheVariants.{UnknownRow, EntryRepeated};
ghost use Rattle.auction_terms.specs.LineFields.{LineFields};
ghost use Rattle.program_rows.specs.MpsSections.{Sections};
ghost use Rattle.program_rows.specs.MpsProgram.{value, pairs, is_marker, number_beside};
ghost use Rattle.program_rows.specs.MpsFaults.{earliest_fault, number_fault, is_declared, pairs_fault, is_integer_open, marker_fault, column_fault};
ghost use Rattle.program_rows.specs.Parts.{IsName};
ghost use Rattle.auction_terms.specs.Lines.{bytes_of};
ghost use Rattle.mps_reader.specs.inside.Reading.{AnswersFault};
ghost use Rattle.mps_reader.specs.inside.Rows.{RowsFit, StampsAre, names_of, declared_row_names, option_now};
ghost use Rattle.mps_reader.specs.inside.Tracking.{AreStampsUpTo, HoldsNumbers, ColumnsTell, DataLines, data_lines, InColumns};
ghost use Rattle.mps_reader.specs.declared.tables.Rows as row_table;
ghost use Rattle.mps_reader.specs.inside.Columns.{ColumnsFit, put_entries, PairsFit, BothFit};
ghost use Rattle.auction_terms.specs.Decimals.{number};
ghost use Rattle.std.specs.Bool.{then_some as when};

use crate::columns::{close_column, names_marker, open_column, take_marker};
use crate::fields::take_number;
use crate::refusal::Refusal;
use crate::rows::{is_objective, stamp_row};
use crate::tables::{ColumnTable, OpenColumn, Rows};
use program_rows::MpsFaultKind;
use std::alloc::AllocError;

fn put(
    column: &mut OpenColumn,
    is_cost: bool,
    place: Option<usize>,
    value: i64,
) -> Result<(), AllocError>
    ensures entries { OnOk result (column.new.entries.items
        ≡ put_entries is_cost place value column.old.entries.items) }
    ensures cost { OnOk result (column.new.cost ≡ (if is_cost then value else column.old.cost)) }
{
    if is_cost {
        column.cost = value;
        return Ok(());
    }
    let Some(place) = place else {
        return Ok(());
    };
    if value == 0 {
        return Ok(());
    }
    column.entries.push((place, value))?;
    Ok(())
}

/// A pair of row and number, of the column with the stamp.
#[inline(always)]
fn take_entry<'t>(
    rows: &mut Rows<'t>,
    column: &mut OpenColumn,
    stamp: usize,
    row: &[u8],
    token: &[u8],
) -> Result<(), Refusal>
    requires fit { RowsFit rows.old }
    ensures fit { OnOk result (RowsFit rows.new) }
    ensures frame { rows.new ≡ record rows.old { stamps = rows.new.stamps } }
    ensures entries { OnOk result (PairsFit stamp rows.old column.old
        → PairsFit stamp rows.new column.new) }
    ensures fault { (has : List ℕ → Bool) → StampsAre rows.old.stamps.items stamp
        (names_of rows.old.names) has
        → AnswersFault result (earliest_fault
        (when (not (list_any (bytes_eq row.now) (names_of rows.old.names))) UnknownRow
        ∷ when (has row.now) EntryRepeated ∷ number_fault (number token.now) ∷ [])) }
    ensures stamps { OnOk result ((has : List ℕ → Bool)
        → StampsAre rows.old.stamps.items stamp (names_of rows.old.names) has
        → StampsAre rows.new.stamps.items stamp (names_of rows.old.names)
        (λ name. bytes_eq name row.now || has name)) }
    ensures low { OnOk result (AreStampsUpTo stamp rows.old → AreStampsUpTo stamp rows.new) }
    ensures tells { OnOk result (PairsFit stamp rows.old column.old → (number : List ℕ → ℤ)
        → HoldsNumbers (option_now rows.old.objective) (declared_row_names rows.old.rows.items)
        number column.old → HoldsNumbers (option_now rows.old.objective)
        (declared_row_names rows.old.rows.items)
        (λ name. if bytes_eq name row.now then value token.now else number name) column.new) }
{
    let index = stamp_row(&rows.names, &rows.next, &mut rows.stamps, row, stamp)?;
    let value = take_number(token)?;
    let place = rows.places[index];
    // A row with a place among those that aren't `N` isn't the objective: its name needn't be compared.
    let is_cost = place.is_none() && is_objective(rows.objective, row);
    put(column, is_cost, place, value)?;
    Ok(())
}

fn take_marker_line<'t>(columns: &mut ColumnTable<'t>, fields: &[&[u8]]) -> Result<(), Refusal>
    ensures fit { OnOk result ((r : row_table.Rows) → BothFit r columns.old
        → BothFit r columns.new) }
    ensures closed { OnOk result (is_some columns.new.current ≡ false) }
    ensures fault { (lines : List LineFields) → is_integer_open lines ≡ columns.old.is_begun
        → AnswersFault result (marker_fault lines (bytes_of fields.now)) }
    ensures names { OnOk result (columns.new.names ≡ columns.old.names) }
    ensures tells { OnOk result (is_marker (bytes_of fields.now) ≡ true
        → (objective : Option (List ℕ)) (rows : List (List ℕ)) (lines : List LineFields)
        → ColumnsFit (length rows) columns.old → ColumnsTell objective rows lines [] columns.old
        → ColumnsTell objective rows (bytes_of fields.now ∷ lines) [] columns.new) }
{
    let is_begun = take_marker(columns.is_begun, fields)?;
    close_column(columns)?;
    columns.is_begun = is_begun;
    Ok(())
}

fn take_entries<'t>(
    rows: &mut Rows<'t>,
    column: &mut OpenColumn,
    stamp: usize,
    fields: &[&[u8]],
) -> Result<(), Refusal>
    requires fit { RowsFit rows.old }
    requires some { 3 ≤ length fields.now }
    requires count { ((length fields.now == 3) || (length fields.now == 5)) ≡ true }
    ensures fit { OnOk result (RowsFit rows.new) }
    ensures frame { rows.new ≡ record rows.old { stamps = rows.new.stamps } }
    ensures entries { OnOk result (PairsFit stamp rows.old column.old
        → PairsFit stamp rows.new column.new) }
    ensures fault { (lines : List LineFields) (earlier : List (List ℕ × List ℕ))
        → ((name : List ℕ) → is_declared lines name
        ≡ list_any (bytes_eq name) (names_of rows.old.names))
        → StampsAre rows.old.stamps.items stamp (names_of rows.old.names)
        (λ row. list_any (λ other. bytes_eq row other.0) earlier)
        → AnswersFault result (pairs_fault lines None earlier
        (pairs (drop 1 (bytes_of fields.now)))) }
    ensures stamps { OnOk result ((earlier : List (List ℕ × List ℕ))
        → StampsAre rows.old.stamps.items stamp (names_of rows.old.names)
        (λ row. list_any (λ other. bytes_eq row other.0) earlier)
        → StampsAre rows.new.stamps.items stamp (names_of rows.old.names)
        (λ row. list_any (λ other. bytes_eq row other.0)
        (pairs (drop 1 (bytes_of fields.now)) ++ earlier))) }
    ensures low { OnOk result (AreStampsUpTo stamp rows.old → AreStampsUpTo stamp rows.new) }
    ensures tells { OnOk result (PairsFit stamp rows.old column.old
        → (earlier : List (List ℕ × List ℕ))
        → StampsAre rows.old.stamps.items stamp (names_of rows.old.names)
        (λ row. list_any (λ other. bytes_eq row other.0) earlier)
        → HoldsNumbers (option_now rows.old.objective) (declared_row_names rows.old.rows.items)
        (number_beside earlier) column.old
        → HoldsNumbers (option_now rows.old.objective) (declared_row_names rows.old.rows.items)
        (number_beside (pairs (drop 1 (bytes_of fields.now)) ++ earlier)) column.new) }
{
    take_entry(rows, column, stamp, fields[1], fields[2])?;
    if fields.len() == 5 {
        take_entry(rows, column, stamp, fields[3], fields[4])?;
        return Ok(());
    }
    Ok(())
}

/// A line of COLUMNS.
pub fn take_column_line<'t>(
    rows: &mut Rows<'t>,
    columns: &mut ColumnTable<'t>,
    fields: &[&'t [u8]],
) -> Result<(), Refusal>
    requires fit { RowsFit rows.old }
    requires names { AllByRecursion IsName (bytes_of fields.now) }
    ensures fit { OnOk result (RowsFit rows.new) }
    ensures frame { rows.new ≡ record rows.old { stamps = rows.new.stamps } }
    ensures columns { OnOk result (BothFit rows.old columns.old → BothFit rows.new columns.new) }
    ensures fault { (before : Sections) → ((name : List ℕ)
        → is_declared before.rows name ≡ list_any (bytes_eq name) (names_of rows.old.names))
        → BothFit rows.old columns.old
        → ColumnsTell (option_now rows.old.objective) (declared_row_names rows.old.rows.items)
        before.columns [] columns.old → InColumns (data_lines before) rows.old columns.old
        → AnswersFault result (column_fault before (bytes_of fields.now)) }
    ensures tells { OnOk result ((lines : DataLines) → BothFit rows.old columns.old
        → ColumnsTell (option_now rows.old.objective) (declared_row_names rows.old.rows.items)
        lines.columns [] columns.old → InColumns lines rows.old columns.old
        → ColumnsTell (option_now rows.old.objective) (declared_row_names rows.old.rows.items)
        (bytes_of fields.now ∷ lines.columns) [] columns.new
        × InColumns (record lines { columns = bytes_of fields.now ∷ lines.columns }) rows.new
        columns.new) }
{
    refuse!(fields.len() != 3 && fields.len() != 5, Fields);
    if names_marker(fields) {
        take_marker_line(columns, fields)?;
        return Ok(());
    }
    open_column(columns, fields[0])?;
    take_entries(
        rows,
        &mut columns.current_column,
        columns.names.len(),
        fields,
    )?;
    Ok(())
}
