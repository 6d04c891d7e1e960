//! The rows that the lines so far declare.

ghost use Rattle.std.specs.Prelude.{◌≡◌, ◌≤◌, ◌∷◌, [], ◌==◌, ℕ, Bool, List, length, not, false};
ghost use Rattle.std.specs.Prelude.{bytes_eq, codes, slice_get, Some, IfOk, OnOk};
ghost use Rattle.std.specs.List.{list_any, slice_set, AllByRecursion};
ghost use Rattle.std.specs.Option.{option_map_or};
ghost use Rattle.program_rows.specs.declared.mps_fault_kind.MpsFaultKind.TheVariants.{Fields, RowType, RowRepeated, UnknownRow, EntryRepeated};
ghost use Rattle.auction_terms.specs.LineFields.{field, LineFields};
ghost use Rattle.program_rows.specs.MpsProgram.{is_one_of, row_kind_of};
ghost use Rattle.program_rows.specs.MpsFaults.{earliest_fault};
ghost use Rattle.program_rows.specs.Parts.{IsName};
ghost use Rattle.auction_terms.specs.Lines.{bytes_of};
ghost use Rattle.mps_reader.specs.inside.Reading.{AnswersFault};
ghost use Rattle.mps_reader.specs.inside.Rows.{names_of, RowsFit, AddsFree, AddsBound, StampsAre};
ghost use Rattle.mps_reader.specs.inside.Tracking.{RowsTell, AreStampsUpTo};
ghost use Rattle.std.specs.Bool.{then_some as when};

use crate::fields::is_word;
use crate::refusal::Refusal;
use crate::tables::{Rows, insert_name};
use program_rows::{MpsFaultKind, NameSet, Row, RowKind, place_of};
use std::alloc::AllocError;
use std::cell::Cell;

fn is_row_type(letter: &[u8]) -> bool
    ensures { result ≡ is_one_of letter.now (codes "N" ∷ codes "L" ∷ codes "G" ∷ codes "E" ∷ []) }
{
    is_word(letter, b"N") || is_word(letter, b"L") || is_word(letter, b"G") || is_word(letter, b"E")
}

fn row_kind(letter: &[u8]) -> RowKind
    ensures { result ≡ row_kind_of letter.now }
{
    if is_word(letter, b"L") {
        return RowKind::AtMost;
    }
    if is_word(letter, b"G") {
        return RowKind::AtLeast;
    }
    RowKind::Equal
}

fn add_free<'t>(rows: &mut Rows<'t>, name: &'t [u8]) -> Result<(), AllocError>
    ensures { OnOk result (AddsFree name.now rows.old rows.new) }
{
    rows.places.push(None)?;
    rows.stamps.push(0)?;
    if rows.objective.is_none() {
        rows.objective = Some(name);
    }
    Ok(())
}

fn add_bound<'t>(rows: &mut Rows<'t>, letter: &[u8], name: &'t [u8]) -> Result<(), AllocError>
    ensures { OnOk result (AddsBound letter.now name.now rows.old rows.new) }
{
    rows.places.push(Some(rows.rows.len()))?;
    rows.stamps.push(0)?;
    rows.rows.push(Row {
        name: Vec::from_slice(rows.alloc, name)?,
        kind: row_kind(letter),
        right_side: 0,
    })?;
    Ok(())
}

/// A line of ROWS.
pub fn take_row<'t>(rows: &mut Rows<'t>, fields: &[&'t [u8]]) -> Result<(), Refusal>
    requires fit { RowsFit rows.old }
    requires names { AllByRecursion IsName (bytes_of fields.now) }
    ensures fault { AnswersFault result (earliest_fault
        (when (not (length (bytes_of fields.now) == 2)) Fields
        ∷ when (not (is_one_of (field 0 (bytes_of fields.now))
        (codes "N" ∷ codes "L" ∷ codes "G" ∷ codes "E" ∷ []))) RowType
        ∷ when (list_any (bytes_eq (field 1 (bytes_of fields.now))) (names_of rows.old.names))
        RowRepeated ∷ [])) }
    ensures fit { OnOk result (RowsFit rows.new) }
    ensures grows { OnOk result (length rows.old.rows.items ≤ length rows.new.rows.items) }
    ensures tells { OnOk result ((lines : List LineFields) → RowsTell lines [] rows.old
        → RowsTell (bytes_of fields.now ∷ lines) [] rows.new) }
    ensures stamps { OnOk result ((most : ℕ) → AreStampsUpTo most rows.old
        → AreStampsUpTo most rows.new) }
{
    refuse!(fields.len() != 2, Fields);
    refuse!(!is_row_type(fields[0]), RowType);
    let is_new = insert_name(&mut rows.names, fields[1])?;
    refuse!(!is_new, RowRepeated);
    if is_word(fields[0], b"N") {
        add_free(rows, fields[1])?;
        return Ok(());
    }
    add_bound(rows, fields[0], fields[1])?;
    Ok(())
}

/// Stamps the row that a pair names, and gives its place among all. `next` holds where it is looked for first.
#[inline(always)]
pub fn stamp_row(
    names: &NameSet,
    next: &Cell<usize>,
    stamps: &mut Vec<usize>,
    row: &[u8],
    stamp: usize,
) -> Result<usize, Refusal>
    requires fit { length stamps.old.items ≡ length names.now.keys }
    ensures fault { (has : List ℕ → Bool) → StampsAre stamps.old.items stamp (names_of names.now)
        has → AnswersFault result
        (earliest_fault (when (not (list_any (bytes_eq row.now) (names_of names.now))) UnknownRow
        ∷ when (has row.now) EntryRepeated ∷ [])) }
    ensures index { IfOk result (λ i. slice_get (names_of names.now) i ≡ Some row.now) }
    ensures fresh { IfOk result (λ i. (d : ℕ) → slice_get stamps.old.items i ≡ Some d
        → (d == stamp) ≡ false) }
    ensures stamped { IfOk result (λ i. stamps.new.items ≡ slice_set stamps.old.items i stamp) }
{
    let Some(index) = place_of(names, next, row) else {
        return Err(Refusal::Fault(MpsFaultKind::UnknownRow));
    };
    refuse!(stamps[index] == stamp, EntryRepeated);
    stamps[index] = stamp;
    Ok(index)
}

/// Whether the row is the objective.
pub fn is_objective(objective: Option<&[u8]>, row: &[u8]) -> bool
    ensures { result ≡ option_map_or (λ name. bytes_eq row.now name.now) objective.entry false }
{
    match objective {
        Some(name) => is_word(row, name),
        None => false,
    }
}
