//! Headers: the sections and their order, and the sense of the objective.

ghost use Rattle.std.specs.Prelude.{◌≡◌, ◌∷◌, [], ◌<◌, ◌&&◌, not, codes, nat_lt, length, is_none, bytes_eq, true};
ghost use Rattle.std.specs.Prelude.{IfOk, OnOk, None, if◌then◌else◌, position, option_map};
ghost use Rattle.program_rows.specs.declared.mps_fault_kind.MpsFaultKind.TheVariants.{NotBinary};
ghost use Rattle.program_rows.specs.MpsSections.{Sections};
ghost use Rattle.program_rows.specs.MpsProgram.{is_one_of, first_free, columns_named};
ghost use Rattle.program_rows.specs.MpsFaults.{place_of, sense_fault, header_fault, is_binary, sections_left_out};
ghost use Rattle.auction_terms.specs.Lines.{bytes_of};
ghost use Rattle.mps_reader.specs.inside.Reading.{AnswersFault, AnswersUpTo};
ghost use Rattle.mps_reader.specs.inside.Sections.{word_of};

use crate::fields::is_word;
use crate::refusal::Refusal;
use crate::sections::{Section, place, section_of};
use program_rows::MpsFaultKind;

/// The one field of a line of OBJSENSE, or of its header.
pub fn take_sense_line(fields: &[&[u8]]) -> Result<(), Refusal>
    ensures { AnswersFault result (sense_fault (bytes_of fields.now)) }
{
    refuse!(fields.len() != 1, Fields);
    let sense = fields[0];
    let is_greatest = is_word(sense, b"MAX") || is_word(sense, b"MAXIMIZE");
    refuse!(is_greatest, SenseMax);
    let is_least = is_word(sense, b"MIN") || is_word(sense, b"MINIMIZE");
    refuse!(!is_least, Fields);
    Ok(())
}

fn is_left_out(word: &[u8]) -> bool
    ensures { result ≡ is_one_of word.now sections_left_out }
{
    is_word(word, b"RANGES")
        || is_word(word, b"SOS")
        || is_word(word, b"SOS1")
        || is_word(word, b"SOS2")
        || is_word(word, b"QUADOBJ")
        || is_word(word, b"QMATRIX")
        || is_word(word, b"QSECTION")
        || is_word(word, b"QCMATRIX")
        || is_word(word, b"INDICATORS")
}

fn stands_alone(word: &[u8]) -> bool
    ensures { result ≡ is_one_of word.now
        (codes "ROWS" ∷ codes "COLUMNS" ∷ codes "RHS" ∷ codes "BOUNDS" ∷ []) }
{
    is_word(word, b"ROWS")
        || is_word(word, b"COLUMNS")
        || is_word(word, b"RHS")
        || is_word(word, b"BOUNDS")
}

fn wants_objective(word: &[u8]) -> bool
    ensures { result ≡ is_one_of word.now
        (codes "COLUMNS" ∷ codes "RHS" ∷ codes "BOUNDS" ∷ codes "ENDATA" ∷ []) }
{
    is_word(word, b"COLUMNS")
        || is_word(word, b"RHS")
        || is_word(word, b"BOUNDS")
        || is_word(word, b"ENDATA")
}

/// The sense that a header names, if it does.
fn take_header_sense(word: &[u8], more: &[&[u8]]) -> Result<(), Refusal>
    ensures { AnswersFault result (if bytes_eq word.now (codes "OBJSENSE")
        && nat_lt 0 (length (bytes_of more.now)) then sense_fault (bytes_of more.now) else None) }
{
    if is_word(word, b"OBJSENSE") && more.len() > 0 {
        return take_sense_line(more);
    }
    Ok(())
}

/// A header: the section that it opens. What is left to check at the end is that all columns are binary.
pub fn take_header(
    opened: Section,
    has_objective: bool,
    word: &[u8],
    more: &[&[u8]],
) -> Result<Section, Refusal>
    ensures fault { (before : Sections) → before.section ≡ word_of opened
        → is_none (first_free before.rows) ≡ not has_objective
        → AnswersUpTo result (header_fault before word.now (bytes_of more.now))
        (if bytes_eq word.now (codes "ENDATA") then option_map NotBinary
        (position (λ column. not (is_binary before column)) (columns_named before.columns))
        else None) }
    ensures objective { OnOk result (bytes_eq word.now (codes "ENDATA") ≡ true
        → has_objective ≡ true) }
    ensures opened { IfOk result (λ section. word_of section ≡ word.now) }
    ensures order { IfOk result (λ section. place_of (word_of opened)
        < place_of (word_of section)) }
{
    refuse!(is_left_out(word), SectionLeftOut);
    let section = section_of(word);
    refuse!(place(opened) >= place(section), Section);
    refuse!(stands_alone(word) && more.len() > 0, Fields);
    take_header_sense(word, more)?;
    refuse!(wants_objective(word) && !has_objective, NoObjective);
    Ok(section)
}
