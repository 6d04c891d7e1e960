//! Lines of BOUNDS.

ghost use Rattle.std.specs.Prelude.{◌≡◌, ◌≤◌, ◌<◌, ◌+◌, ◌∷◌, [], ◌&&◌, ◌==◌, ℕ, List, not, true, false, codes, bytes_eq};
ghost use Rattle.std.specs.Prelude.{length, nat_le, if◌then◌else◌, Option, IfOk, OnOk};
ghost use Rattle.program_rows.specs.declared.mps_fault_kind.MpsFaultKind.TheVariants.{BoundType, Fields};
ghost use Rattle.std.specs.List.{IsDistinct};
ghost use Rattle.auction_terms.specs.LineFields.{LineFields, field};
ghost use Rattle.program_rows.specs.MpsProgram.{is_one_of, is_binary_bound, value, columns_named};
ghost use Rattle.program_rows.specs.MpsFaults.{earliest_fault, bound_fault};
ghost use Rattle.auction_terms.specs.Lines.{bytes_of};
ghost use Rattle.mps_reader.specs.inside.Reading.{AnswersFault, bit_fault};
ghost use Rattle.mps_reader.specs.inside.Columns.{BothFit};
ghost use Rattle.mps_reader.specs.inside.Rows.{names_of};
ghost use Rattle.mps_reader.specs.inside.Tracking.{ColumnsTell, state_values, bounded_values};
ghost use Rattle.std.specs.Bool.{then_some as when};
ghost use Rattle.mps_reader.specs.declared.tables.Rows as row_table;

use crate::fields::{is_word, take_bit};
use crate::refusal::Refusal;
use crate::tables::{ColumnState, ColumnTable};
use program_rows::{MpsFaultKind, place_of};

fn is_bound_type(word: &[u8]) -> bool
    ensures { result ≡ is_one_of word.now (codes "UP" ∷ codes "LO" ∷ codes "FX" ∷ codes "BV" ∷ []) }
{
    is_word(word, b"UP") || is_word(word, b"LO") || is_word(word, b"FX") || is_word(word, b"BV")
}

/// The type and the number of fields of a bound: whether it makes its column binary.
fn take_bound_type(fields: &[&[u8]]) -> Result<bool, Refusal>
    requires some { 1 ≤ length fields.now }
    ensures number { IfOk result (λ is_binary. is_binary ≡ false
        → is_one_of (field 0 (bytes_of fields.now)) (codes "UP" ∷ codes "LO" ∷ codes "FX" ∷ [])
        ≡ true) }
    ensures fault { AnswersFault result (earliest_fault
        (when (not (is_one_of (field 0 (bytes_of fields.now))
        (codes "UP" ∷ codes "LO" ∷ codes "FX" ∷ codes "BV" ∷ []))) BoundType
        ∷ when (not (if is_binary_bound (bytes_of fields.now) then nat_le 2
        (length (bytes_of fields.now))
        && nat_le (length (bytes_of fields.now)) 4 else nat_le 3 (length (bytes_of fields.now))
        && nat_le (length (bytes_of fields.now)) 4)) Fields ∷ [])) }
    ensures binary { IfOk result (λ is_binary. is_binary ≡ is_binary_bound (bytes_of fields.now)) }
    ensures range { IfOk result (λ is_binary. ((if is_binary then 2 else 3) ≤ length fields.now)
        × (length fields.now ≤ 4)) }
{
    refuse!(!is_bound_type(fields[0]), BoundType);
    let is_binary = is_word(fields[0], b"BV");
    let fewest = if is_binary { 2 } else { 3 };
    refuse!(fields.len() < fewest || fields.len() > 4, Fields);
    Ok(is_binary)
}

/// The place of a bound's column: after the name of the set, if there is one.
fn place_of_column(is_binary: bool, count: usize) -> usize
    requires range { ((if is_binary then 2 else 3) ≤ count) × (count ≤ 4) }
    ensures value { result ≡ (if count == (if is_binary then 2 else 3) then 1 else 2) }
    ensures within { result < count }
    ensures number { is_binary ≡ false → result + 1 < count }
{
    let short = if is_binary { 2 } else { 3 };
    if count == short {
        return 1;
    }
    2
}

/// What a bound says of its column.
fn bounded(word: &[u8], state: ColumnState, token: &[u8]) -> Result<ColumnState, Refusal>
    requires { is_one_of word.now (codes "UP" ∷ codes "LO" ∷ codes "FX" ∷ []) ≡ true }
    ensures fault { AnswersFault result (bit_fault token.now) }
    ensures values { IfOk result (λ new. state_values new
        ≡ bounded_values word.now (value token.now) (state_values state)) }
{
    let value = take_bit(token)?;
    if is_word(word, b"UP") {
        return Ok(ColumnState {
            upper: Some(value),
            ..state
        });
    }
    if is_word(word, b"LO") {
        return Ok(ColumnState {
            lower: value,
            ..state
        });
    }
    Ok(ColumnState {
        lower: value,
        upper: Some(value),
        ..state
    })
}

/// A line of BOUNDS.
pub fn take_bound<'t>(columns: &mut ColumnTable<'t>, fields: &[&[u8]]) -> Result<(), Refusal>
    requires some { 1 ≤ length fields.now }
    requires states { length columns.old.states.items ≡ length columns.old.names.keys }
    ensures fit { OnOk result ((r : row_table.Rows) → BothFit r columns.old
        → BothFit r columns.new) }
    ensures current { columns.new.current ≡ columns.old.current }
    ensures fault { (lines : List LineFields) → names_of columns.old.names ≡ columns_named lines
        → AnswersFault result (bound_fault lines (bytes_of fields.now)) }
    ensures tells { OnOk result ((objective : Option (List ℕ)) (rows : List (List ℕ))
        (lines bounds : List LineFields) → IsDistinct bytes_eq (names_of columns.old.names)
        → ColumnsTell objective rows lines bounds columns.old
        → ColumnsTell objective rows lines (bytes_of fields.now ∷ bounds) columns.new) }
{
    let is_binary = take_bound_type(fields)?;
    let at = place_of_column(is_binary, fields.len());
    let Some(index) = place_of(&columns.names, &columns.next, fields[at]) else {
        return Err(Refusal::Fault(MpsFaultKind::UnknownColumn));
    };
    if is_binary {
        columns.states[index] = ColumnState {
            is_integer: true,
            lower: false,
            upper: Some(true),
        };
        return Ok(());
    }
    let state = bounded(fields[0], columns.states[index], fields[at + 1])?;
    columns.states[index] = state;
    Ok(())
}
