//! The sections of a text.

ghost use Rattle.std.specs.Prelude.{◌≡◌};
ghost use Rattle.program_rows.specs.MpsFaults.{place_of};
ghost use Rattle.mps_reader.specs.inside.Sections.{word_of, section_named};

use crate::fields::is_word;

/// The section that is open.
#[derive(Clone, Copy, PartialEq, Eq)]
pub enum Section {
    Start,
    Name,
    Sense,
    Rows,
    Columns,
    RightSides,
    Bounds,
    End,
}

/// Its place in the order of sections, from 1; 0 before the first.
pub fn place(section: Section) -> u8
    ensures { result ≡ place_of (word_of section) }
{
    match section {
        Section::Start => 0,
        Section::Name => 1,
        Section::Sense => 2,
        Section::Rows => 3,
        Section::Columns => 4,
        Section::RightSides => 5,
        Section::Bounds => 6,
        Section::End => 7,
    }
}

/// The section that a word heads; the start if it heads none.
pub fn section_of(word: &[u8]) -> Section
    ensures { result ≡ section_named word.now }
{
    if is_word(word, b"NAME") {
        return Section::Name;
    }
    if is_word(word, b"OBJSENSE") {
        return Section::Sense;
    }
    if is_word(word, b"ROWS") {
        return Section::Rows;
    }
    if is_word(word, b"COLUMNS") {
        return Section::Columns;
    }
    if is_word(word, b"RHS") {
        return Section::RightSides;
    }
    if is_word(word, b"BOUNDS") {
        return Section::Bounds;
    }
    if is_word(word, b"ENDATA") {
        return Section::End;
    }
    Section::Start
}
