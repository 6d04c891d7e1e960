//! Which text of an input a refusal is of, and the number that its part has there.

ghost use Rattle.std.specs.Prelude.{◌≡◌, ◌≤◌, IfOk, if◌then◌else◌, map};
ghost use Rattle.auction_input.specs.Parts.{cut_lines, parts_in};
ghost use Rattle.auction_input.specs.Places.{count_in, located, parts_counted, spot_of};
ghost use Rattle.auction_input.specs.inside.Parts.{part_name};
ghost use Rattle.auction_input.specs.inside.Places.{is_counted};

use crate::input_texts::NamedText;
use crate::part_kind::PartKind;
use crate::parts::{first_part, has_bytes_before, head_name, without_bytes_before};
use crate::refusal::Refusal;
use std::alloc::{AllocError, Global};
use std::marker::Model;

/// A text of an input, by its place from 0, and the number that a part has there.
#[derive(Clone, Copy)]
pub struct Spot {
    pub text: usize,
    pub number: usize,
}

/// What is counted in each text to find the one that a refusal is of.
#[derive(Clone, Copy)]
pub enum Counted {
    /// The parts of a kind.
    Kind(PartKind),
    /// All parts.
    Parts,
    /// The text itself, where it has bytes before its first part.
    BytesBefore,
}

// Whether a part with this name in its head counts: each one, or those of a kind.
fn is_counted(kind: Option<PartKind>, name: &[u8]) -> bool
    ensures { result ≡ is_counted kind name.now }
{
    match kind {
        Some(kind) => name == kind.name(),
        None => true,
    }
}

fn count_head(kind: Option<PartKind>, head: &[u8]) -> usize
    ensures counts { result ≡ (if is_counted kind (part_name head.now) then 1 else 0) }
    ensures most { result ≤ 1 }
{
    if is_counted(kind, head_name(head)) {
        1
    } else {
        0
    }
}

// How many parts of a kind a text has; without a kind, how many parts.
fn count_parts(kind: Option<PartKind>, text: &[u8]) -> usize
    ensures { result ≡ parts_counted kind (parts_in 0 (cut_lines text.now)) }
{
    let mut rest = without_bytes_before(text);
    let mut count: usize = 0;
    while !rest.is_empty() {
        let first = first_part(rest);
        count += count_head(kind, first.head);
        rest = first.rest;
    }
    count
}

// How much a text counts.
fn count_in(what: Counted, given: &NamedText) -> usize
    ensures { result ≡ count_in what given.now }
{
    match what {
        Counted::Kind(kind) => count_parts(Some(kind), given.bytes()),
        Counted::Parts => count_parts(None, given.bytes()),
        Counted::BytesBefore if has_bytes_before(given) => 1,
        Counted::BytesBefore => 0,
    }
}

// The text with what has that number of all that is counted. It takes no memory.
fn find_spot(texts: &[NamedText], what: Counted, number: usize) -> Option<Spot>
    ensures { result ≡ located (map (count_in what) texts.now) number }
{
    let mut left = number;
    for (place, text) in texts.iter().enumerate() {
        let count = count_in(what, text);
        if left <= count {
            return Some(Spot {
                text: place,
                number: left,
            });
        }
        left -= count;
    }
    None
}

/// The text that a refusal is of, where there are several, and the number that its part has there. It takes no memory.
pub fn spot_of(texts: &[NamedText], refusal: &Refusal) -> Option<Spot>
    ensures { result ≡ spot_of texts.now refusal.now }
{
    if texts.len() <= 1 {
        return None;
    }
    let (what, number) = refusal.counted()?;
    find_spot(texts, what, number)
}

// The same where it is known how much each text counts.
fn spot_among(counts: &[usize], number: usize) -> Option<Spot>
    ensures { result ≡ located counts.now number }
{
    let mut left = number;
    for (place, &count) in counts.iter().enumerate() {
        if left <= count {
            return Some(Spot {
                text: place,
                number: left,
            });
        }
        left -= count;
    }
    None
}

fn counts_of(alloc: Global, texts: &[NamedText], what: Counted) -> Result<Vec<usize>, AllocError>
    ensures { IfOk result (λ counts. counts.items ≡ map (count_in what) texts.now) }
{
    let mut counts = Vec::new(alloc);
    for given in texts {
        counts.push(count_in(what, given))?;
    }
    Ok(counts)
}

/// The texts of an input, and how many parts with rules, forms and groups each has, so that the texts of many faults are found.
#[derive(Drop)]
pub struct Places<'i> {
    texts: &'i [NamedText],
    rules: Vec<usize>,
    forms: Vec<usize>,
    groups: Vec<usize>,
}

impl<'i> Model for Places<'i> {
    ghost use Rattle.std.specs.Prelude.{List};
    ghost use Rattle.auction_input.specs.Input.{NamedText as Seen};
    ghost use Rattle.auction_input.specs.inside.Places.{AreCounted};

    ghost Value = { List Seen };

    ghost view = { λ places. places.texts.now };

    ghost invariant = { λ places. AreCounted places.texts.now places.rules.items places.forms.items places.groups.items };
}

impl<'i> Places<'i> {
    /// Counts the parts of these texts, where there are several.
    pub fn of_texts(alloc: Global, texts: &'i [NamedText]) -> Result<Places<'i>, AllocError>
        ensures { IfOk result (λ places. places ≡ texts.now) }
    {
        let counted = if texts.len() <= 1 { &texts[..0] } else { texts };
        Ok(Places {
            texts,
            rules: counts_of(alloc, counted, Counted::Kind(PartKind::Rules))?,
            forms: counts_of(alloc, counted, Counted::Kind(PartKind::Form))?,
            groups: counts_of(alloc, counted, Counted::Kind(PartKind::Groups))?,
        })
    }

    /// The texts.
    pub fn texts(&self) -> &[NamedText]
        ensures { result.now ≡ self.now }
    {
        self.texts
    }

    /// The text that a refusal is of, where there are several, and the number that its part has there.
    pub fn spot_of(&self, refusal: &Refusal) -> Option<Spot>
        ensures { result ≡ spot_of self.now refusal.now }
    {
        if self.texts.len() <= 1 {
            return None;
        }
        let (what, number) = refusal.counted()?;
        match what {
            Counted::Kind(PartKind::Rules) => spot_among(self.rules.as_slice(), number),
            Counted::Kind(PartKind::Form) => spot_among(self.forms.as_slice(), number),
            Counted::Kind(PartKind::Groups) => spot_among(self.groups.as_slice(), number),
            what => find_spot(self.texts, what, number),
        }
    }
}
