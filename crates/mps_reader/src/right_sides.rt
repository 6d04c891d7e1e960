//! Lines of RHS.

ghost use Rattle.std.specs.Prelude.{◌≡◌, ◌≤◌, ◌<◌, ◌==◌, ◌||◌, ◌∷◌, ◌++◌, ℕ, ℤ, Bool, List, true, false, length};
ghost use Rattle.std.specs.Prelude.{map, bytes_eq, if◌then◌else◌, OnOk, flat_map};
ghost use Rattle.std.specs.List.{list_any};
ghost use Rattle.std.specs.Option.{option_map_or};
ghost use Rattle.auction_terms.specs.LineFields.{LineFields};
ghost use Rattle.program_rows.specs.MpsSections.{Sections};
ghost use Rattle.program_rows.specs.MpsProgram.{pairs, value, first_free, number_beside, line_right_sides};
ghost use Rattle.program_rows.specs.MpsFaults.{is_declared, pairs_fault, right_side_fault};
ghost use Rattle.auction_terms.specs.Lines.{bytes_of};
ghost use Rattle.mps_reader.specs.inside.Reading.{AnswersFault};
ghost use Rattle.program_rows.specs.Parts.{shown_row};
ghost use Rattle.mps_reader.specs.inside.Rows.{RowsFit, StampsAre, names_of, with_side, rows_by, side_fault};
ghost use Rattle.mps_reader.specs.inside.Tracking.{RowsTell};

use crate::fields::take_number;
use crate::refusal::Refusal;
use crate::rows::{is_objective, stamp_row};
use crate::tables::Rows;
use program_rows::{MpsFaultKind, Row};

// Sets the right side of the row at a place, and leaves all else as it is.
fn set_right_side(rows: &mut Vec<Row>, place: usize, value: i64)
    requires { place < length rows.old.items }
    ensures { map shown_row rows.new.items ≡ with_side place value (map shown_row rows.old.items) }
{
    rows[place].right_side = value;
}

/// A pair of row and number.
fn take_right_side<'t>(
    rows: &mut Rows<'t>,
    stamp: usize,
    row: &[u8],
    token: &[u8],
) -> Result<(), Refusal>
    requires fit { RowsFit rows.old }
    ensures fit { OnOk result (RowsFit rows.new) }
    ensures count { OnOk result (length rows.new.rows.items ≡ length rows.old.rows.items) }
    ensures objective { rows.new.objective ≡ rows.old.objective }
    ensures names { rows.new.names ≡ rows.old.names }
    ensures fault { (has : List ℕ → Bool) → StampsAre rows.old.stamps.items stamp
        (names_of rows.old.names) has
        → AnswersFault result (side_fault (list_any (bytes_eq row.now) (names_of rows.old.names))
        (has row.now) (option_map_or (λ name. bytes_eq row.now name.now) rows.old.objective false)
        token.now) }
    ensures stamps { OnOk result ((has : List ℕ → Bool)
        → StampsAre rows.old.stamps.items stamp (names_of rows.old.names) has
        → StampsAre rows.new.stamps.items stamp (names_of rows.old.names)
        (λ name. bytes_eq name row.now || has name)) }
    ensures rows { OnOk result ((side : List ℕ → ℤ) (lines : List LineFields)
        → map shown_row rows.old.rows.items ≡ rows_by side lines
        → map shown_row rows.new.rows.items
        ≡ rows_by (λ name. if bytes_eq name row.now then value token.now else side name) lines) }
{
    let index = stamp_row(&rows.names, &rows.next, &mut rows.stamps, row, stamp)?;
    let value = take_number(token)?;
    let is_cost = is_objective(rows.objective, row);
    refuse!(is_cost && value != 0, ObjectiveConstant);
    let Some(place) = rows.places[index] else {
        return Ok(());
    };
    set_right_side(&mut rows.rows, place, value);
    Ok(())
}

fn take_right_sides<'t>(rows: &mut Rows<'t>, stamp: usize, fields: &[&[u8]]) -> Result<(), Refusal>
    requires fit { RowsFit rows.old }
    requires some { 2 ≤ length fields.now }
    requires even { ((length fields.now == 2) || (length fields.now == 4)) ≡ true }
    ensures fit { OnOk result (RowsFit rows.new) }
    ensures count { OnOk result (length rows.new.rows.items ≡ length rows.old.rows.items) }
    ensures objective { rows.new.objective ≡ rows.old.objective }
    ensures names { rows.new.names ≡ rows.old.names }
    ensures fault { (lines : List LineFields) (earlier : List (List ℕ × List ℕ))
        → ((name : List ℕ) → is_declared lines name
        ≡ list_any (bytes_eq name) (names_of rows.old.names))
        → ((name : List ℕ) → option_map_or (bytes_eq name) (first_free lines) false
        ≡ option_map_or (λ other. bytes_eq name other.now) rows.old.objective false)
        → StampsAre rows.old.stamps.items stamp (names_of rows.old.names)
        (λ row. list_any (λ other. bytes_eq row other.0) earlier)
        → AnswersFault result (pairs_fault lines (first_free lines) earlier
        (pairs (bytes_of fields.now))) }
    ensures stamps { OnOk result ((earlier : List (List ℕ × List ℕ))
        → StampsAre rows.old.stamps.items stamp (names_of rows.old.names)
        (λ row. list_any (λ other. bytes_eq row other.0) earlier)
        → StampsAre rows.new.stamps.items stamp (names_of rows.old.names)
        (λ row. list_any (λ other. bytes_eq row other.0)
        (pairs (bytes_of fields.now) ++ earlier))) }
    ensures rows { OnOk result ((earlier : List (List ℕ × List ℕ)) (lines : List LineFields)
        → StampsAre rows.old.stamps.items stamp (names_of rows.old.names)
        (λ row. list_any (λ other. bytes_eq row other.0) earlier)
        → map shown_row rows.old.rows.items ≡ rows_by (number_beside earlier) lines
        → map shown_row rows.new.rows.items
        ≡ rows_by (number_beside (pairs (bytes_of fields.now) ++ earlier)) lines) }
{
    take_right_side(rows, stamp, fields[0], fields[1])?;
    if fields.len() == 4 {
        take_right_side(rows, stamp, fields[2], fields[3])?;
        return Ok(());
    }
    Ok(())
}

/// A line of RHS.
pub fn take_right_side_line<'t>(
    rows: &mut Rows<'t>,
    stamp: usize,
    fields: &[&[u8]],
) -> Result<(), Refusal>
    requires fit { RowsFit rows.old }
    ensures fit { OnOk result (RowsFit rows.new) }
    ensures count { OnOk result (length rows.new.rows.items ≡ length rows.old.rows.items) }
    ensures objective { rows.new.objective ≡ rows.old.objective }
    ensures names { rows.new.names ≡ rows.old.names }
    ensures fault { (before : Sections) → ((name : List ℕ)
        → is_declared before.rows name ≡ list_any (bytes_eq name) (names_of rows.old.names))
        → ((name : List ℕ) → option_map_or (bytes_eq name) (first_free before.rows) false
        ≡ option_map_or (λ other. bytes_eq name other.now) rows.old.objective false)
        → StampsAre rows.old.stamps.items stamp (names_of rows.old.names)
        (λ row. list_any (λ other. bytes_eq row other.0)
        (flat_map line_right_sides before.right_sides))
        → AnswersFault result (right_side_fault before (bytes_of fields.now)) }
    ensures stamps { OnOk result ((rights : List LineFields)
        → StampsAre rows.old.stamps.items stamp (names_of rows.old.names)
        (λ row. list_any (λ other. bytes_eq row other.0) (flat_map line_right_sides rights))
        → StampsAre rows.new.stamps.items stamp (names_of rows.old.names)
        (λ row. list_any (λ other. bytes_eq row other.0)
        (flat_map line_right_sides (bytes_of fields.now ∷ rights)))) }
    ensures tells { OnOk result ((lines rights : List LineFields)
        → StampsAre rows.old.stamps.items stamp (names_of rows.old.names)
        (λ row. list_any (λ other. bytes_eq row other.0) (flat_map line_right_sides rights))
        → RowsTell lines rights rows.old → RowsTell lines (bytes_of fields.now ∷ rights) rows.new) }
{
    refuse!(fields.len() < 2 || fields.len() > 5, Fields);
    take_right_sides(rows, stamp, &fields[fields.len() % 2..])?;
    Ok(())
}
