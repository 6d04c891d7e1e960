//! The input of a closed round.

ghost use Rattle.std.specs.Prelude.{◌≡◌, ◌++◌, ◌<◌, ◌≤◌, List, ℕ, IfOk, IfSome, OnOk, length};
ghost use Rattle.bid_book.specs.History.{standing_of};
ghost use Rattle.desk_book.specs.Digests.{commit};
ghost use Rattle.desk_book.specs.Settling.{AreOpened, IsPartAdded, IsSettledInput};

use crate::commitment::Commitment;
use crate::desk::Desk;
use crate::digests::commit_of;
use crate::judge::Judge;
use crate::openings::find_opening;
use bid_book::Book;
use std::alloc::{AllocError, Global};
use std::marker::Model;

/// Why a round isn't settled.
#[derive(Clone, Copy, Debug, PartialEq, Eq)]
pub enum SettleFault {
    /// No opening begins at this byte.
    NoOpening { at: usize },
    /// The opening at this byte is of no form that stands.
    NotStanding { at: usize },
    /// The opening at this byte is of a form that was opened before.
    Again { at: usize },
    /// The form of this entry stands, and isn't opened.
    Missing { entry: u64 },
    OutOfMemory,
}

impl From<AllocError> for SettleFault {
    fn from(_: AllocError) -> SettleFault {
        SettleFault::OutOfMemory
    }
}

// A text with its salt, and the commitment of both. Contracts see the salt and the text.
#[derive(Drop)]
struct Opened<'c> {
    salt: [u8; 64],
    text: &'c [u8],
    commitment: [u8; 64],
}

impl<'c> Model for Opened<'c> {
    ghost use Rattle.std.specs.Prelude.{◌≡◌, List, ℕ};
    ghost use Rattle.desk_book.specs.Digests.{commit};

    ghost Value = { List ℕ × List ℕ };

    ghost view = { λ o. (o.salt, o.text.now) };

    ghost invariant = { λ o. o.commitment ≡ commit o.salt o.text.now };
}

impl<'c> Opened<'c> {
    fn new(salt: [u8; 64], text: &'c [u8]) -> Opened<'c>
        ensures { result ≡ (salt, text.now) }
    {
        let commitment = commit_of(&salt, text);
        Opened {
            salt,
            text,
            commitment,
        }
    }

    fn text(&self) -> &'c [u8]
        ensures { result.now ≡ self.now.1 }
    {
        self.text
    }

    fn commit(&self) -> &[u8; 64]
        ensures { result.now ≡ commit self.now.0 self.now.1 }
    {
        &self.commitment
    }
}

// What has this commitment among what is opened.
fn opened_with<'o, 'c>(opened: &'o [Opened<'c>], wanted: &[u8; 64]) -> Option<&'o Opened<'c>>
    ensures { IfSome result (λ o. commit o.now.0 o.now.1 ≡ wanted.now) }
{
    for each in opened {
        if each.commit() == wanted {
            return Some(each);
        }
    }
    None
}

// Whether a form with this commitment stands.
fn is_standing<J: Judge + Drop>(desk: &Desk<J>, commit: &[u8; 64]) -> bool {
    for place in 0..desk.rules().bidders().len().min(256) {
        if let Some(standing) = desk.book().standing(place as u16 + 1) {
            if standing.form.commit == *commit {
                return true;
            }
        }
    }
    false
}

// Takes the opening at this byte, and tells where the next one begins.
fn take_opening<'c, J: Judge + Drop>(
    desk: &Desk<J>,
    taken: &mut Vec<Opened<'c>>,
    bytes: &'c [u8],
    at: usize,
) -> Result<usize, SettleFault>
    requires { at < length bytes.now }
    ensures { IfOk result (λ next. (at < next) × (next ≤ length bytes.now)) }
{
    let Ok(opening) = find_opening(&bytes[at..]) else {
        return Err(SettleFault::NoOpening { at });
    };
    let opened = Opened::new(opening.salt, opening.text);
    if !is_standing(desk, opened.commit()) {
        return Err(SettleFault::NotStanding { at });
    }
    if opened_with(taken, opened.commit()).is_some() {
        return Err(SettleFault::Again { at });
    }
    if taken.push(opened).is_err() {
        return Err(SettleFault::OutOfMemory);
    }
    Ok(at + opening.len)
}

// Takes the openings of these bytes.
fn take_openings<'c, J: Judge + Drop>(
    alloc: Global,
    desk: &Desk<J>,
    bytes: &'c [u8],
) -> Result<Vec<Opened<'c>>, SettleFault> {
    let mut taken = Vec::new(alloc);
    let mut at = 0;
    'openings: while at < bytes.len() {
        at = take_opening(desk, &mut taken, bytes, at)?;
    }
    Ok(taken)
}

// Adds what stands of a bidder, as it is opened.
fn add_part(
    input: &mut Vec<u8>,
    book: &Book<Commitment>,
    bidder: u16,
    opened: &[Opened<'_>],
) -> Result<(), SettleFault>
    ensures { OnOk result (IsPartAdded (standing_of book.now bidder) input.old.items input.new.items) }
{
    let Some(standing) = book.standing(bidder) else {
        return Ok(());
    };
    match opened_with(opened, &standing.form.commit) {
        Some(opened) => {
            input.extend_from_slice(b"%form\n")?;
            input.extend_from_slice(opened.text())?;
            Ok(())
        }
        None => Err(SettleFault::Missing {
            entry: standing.form.entry,
        }),
    }
}

// Adds what stands of each of so many bidders.
fn add_parts(
    input: &mut Vec<u8>,
    book: &Book<Commitment>,
    bidders: usize,
    opened: &[Opened<'_>],
) -> Result<(), SettleFault>
    requires { bidders ≤ 256 }
    ensures { OnOk result ((parts : List ℕ) × AreOpened book.now bidders parts × (input.new.items ≡ input.old.items ++ parts)) }
{
    for place in 0..bidders {
        add_part(input, book, place as u16 + 1, opened)?;
    }
    Ok(())
}

/// The input of a round: its rules, and for each bidder, in the order of the rules, the form that stands, as these bytes open it.
pub fn settled_input<J: Judge + Drop>(
    alloc: Global,
    desk: &Desk<J>,
    rules: &[u8],
    openings: &[u8],
) -> Result<Vec<u8>, SettleFault>
    ensures { IfOk result (λ input. IsSettledInput desk.now.book rules.now (length desk.now.rules.bidders) input.items) }
{
    let opened = take_openings(alloc, desk, openings)?;
    let mut input = Vec::new(alloc);
    input.extend_from_slice(b"%rules\n")?;
    input.extend_from_slice(rules)?;
    add_parts(
        &mut input,
        desk.book(),
        desk.rules().bidders().len(),
        &opened,
    )?;
    Ok(input)
}
