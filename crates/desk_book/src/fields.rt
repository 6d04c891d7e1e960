//! The fields of a head.

use auction_terms::number;
use std::marker::Model;

/// The fields of a line that are left, parted by single blanks. Contracts see the list of them.
#[derive(Drop)]
pub(crate) struct Fields<'c> {
    rest: Option<&'c [u8]>,
}

impl<'c> Model for Fields<'c> {
    ghost use Rattle.std.specs.Prelude.{List, ℕ, option_map};
    ghost use Rattle.desk_book.specs.inside.Fields.{fields_left};

    ghost Value = { List (List ℕ) };

    ghost view = { λ f. fields_left (option_map (λ s. s.now) f.rest) };
}

impl<'c> Fields<'c> {
    ghost use Rattle.std.specs.Prelude.{◌≡◌, ◌∷◌, ◌<◌, ◌≤◌, ◌^◌, [], IfSome, MatchOption, Some, drop, option_map, slice_get};
    ghost use Rattle.auction_terms.specs.Numbers.{number_of};
    ghost use Rattle.desk_book.specs.Calls.{change_named, digest_named, head_fields, number_up_to, over_named};
    ghost use Rattle.desk_book.specs.Asking.{IsOver};
    ghost use Rattle.desk_book.specs.Fronts.{word_named};
    ghost use Rattle.desk_book.specs.inside.Fields.{first, no_field};

    pub(crate) fn of_line(line: &'c [u8]) -> Fields<'c>
        ensures { result ≡ head_fields line.now }
    {
        Fields { rest: Some(line) }
    }

    pub(crate) fn next(&mut self) -> Option<&'c [u8]>
        ensures next { MatchOption result (self.old ≡ []) (λ f. self.old ≡ f.now ∷ self.new) }
        ensures field { option_map (λ f. f.now) result ≡ slice_get self.old 0 }
        ensures rest { self.new ≡ drop 1 self.old }
    {
        let (field, rest) = split_field(self.rest?);
        self.rest = rest;
        Some(field)
    }

    /// The next field, a number of at most 18 digits.
    pub(crate) fn number(&mut self) -> Option<u64>
        ensures number { result ≡ first number_of self.old }
        ensures rest { self.new ≡ drop 1 self.old }
        ensures few { IfSome result (λ n. n < 10 ^ 18) }
    {
        number(self.next()?)
    }

    /// The next field, a number up to this one.
    pub(crate) fn number_to(&mut self, most: usize) -> Option<usize>
        ensures number { result ≡ first (number_up_to most) self.old }
        ensures rest { self.new ≡ drop 1 self.old }
        ensures few { IfSome result (λ n. n ≤ most) }
    {
        number_to(self.next()?, most as u64)
    }

    /// The next field, the number of a change.
    pub(crate) fn change(&mut self) -> Option<u32>
        ensures change { result ≡ first change_named self.old }
        ensures rest { self.new ≡ drop 1 self.old }
        ensures few { IfSome result (λ n. n < 10 ^ 9) }
    {
        change_of(self.next()?)
    }

    /// The next field, the number of a change or a hyphen for none.
    pub(crate) fn change_if(&mut self) -> Option<Option<u32>>
        ensures change { result ≡ first over_named self.old }
        ensures rest { self.new ≡ drop 1 self.old }
        ensures few { IfSome result IsOver }
    {
        over_of(self.next()?)
    }

    /// The next field, a digest.
    pub(crate) fn digest(&mut self) -> Option<[u8; 64]>
        ensures digest { result ≡ first digest_named self.old }
        ensures rest { self.new ≡ drop 1 self.old }
        ensures same { IfSome result (λ d. digest_named d ≡ Some d) }
    {
        digest_in(self.next()?)
    }

    /// The next field, a word.
    pub(crate) fn word(&mut self) -> Option<&'c [u8]>
        ensures word { option_map (λ f. f.now) result ≡ first word_named self.old }
        ensures rest { self.new ≡ drop 1 self.old }
    {
        let field = self.next()?;
        if is_word(field) { Some(field) } else { None }
    }

    /// Whether no field is left.
    pub(crate) fn is_done(&self) -> bool
        ensures { result ≡ no_field self.now }
    {
        match self.rest {
            Some(_) => false,
            None => true,
        }
    }
}

ghost use Rattle.std.specs.Prelude.{◌≡◌, ◌∷◌, ◌==◌, ◌<◌, ◌≤◌, ◌^◌, IfSome, Some, option_map};
ghost use Rattle.std.specs.List.{list_all, position, slice_split};
ghost use Rattle.desk_book.specs.Calls.{change_named, digest_named, is_hex_digit, number_up_to, over_named};
ghost use Rattle.auction_terms.specs.RulesText.{is_between};
ghost use Rattle.desk_book.specs.Fronts.{is_word};
ghost use Rattle.desk_book.specs.Asking.{IsOver};
ghost use Rattle.desk_book.specs.inside.Fields.{fields_left};

const GREATEST_CHANGE: u64 = 999_999_999;

// Where the first blank stands.
fn blank_in(text: &[u8]) -> Option<usize>
    ensures { result ≡ position (λ b. b == 32) text.now }
{
    text.iter().position(|byte| *byte == b' ')
}

// The first field of what is left of a line, and what is left then.
fn split_field(text: &[u8]) -> (&[u8], Option<&[u8]>)
    ensures { slice_split (λ b. b == 32) text.now
        ≡ result.0.now ∷ fields_left (option_map (λ s. s.now) result.1) }
{
    match blank_in(text) {
        Some(end) => (&text[..end], Some(&text[end + 1..])),
        None => (text, None),
    }
}

// The number that a field gives, if it is at most this one.
fn number_to(field: &[u8], most: u64) -> Option<usize>
    ensures number { result ≡ number_up_to most field.now }
    ensures few { IfSome result (λ n. n ≤ most) }
{
    let found = number(field)?;
    if found <= most {
        Some(found as usize)
    } else {
        None
    }
}

/// The number of a change that a field gives.
pub(crate) fn change_of(field: &[u8]) -> Option<u32>
    ensures change { result ≡ change_named field.now }
    ensures few { IfSome result (λ n. n < 10 ^ 9) }
{
    let found = number(field)?;
    if found <= GREATEST_CHANGE {
        Some(found as u32)
    } else {
        None
    }
}

/// The number of a change that a field gives, or none for a hyphen.
pub(crate) fn over_of(field: &[u8]) -> Option<Option<u32>>
    ensures change { result ≡ over_named field.now }
    ensures few { IfSome result IsOver }
{
    if field == b"-".as_slice() {
        return Some(None);
    }
    Some(Some(change_of(field)?))
}

fn is_digit(byte: u8) -> bool
    ensures { result ≡ is_hex_digit byte }
{
    byte.is_ascii_digit() || (b'a' <= byte && byte <= b'f')
}

fn are_digits(field: &[u8]) -> bool
    ensures { result ≡ list_all is_hex_digit field.now }
{
    field.iter().all(|byte| is_digit(*byte))
}

/// The digest whose hexadecimal digits these are.
pub(crate) fn digest_in(field: &[u8]) -> Option<[u8; 64]>
    ensures digest { result ≡ digest_named field.now }
    ensures same { IfSome result (λ d. digest_named d ≡ Some d) }
{
    if field.len() == 64 && are_digits(field) {
        let mut digest = [b'0'; 64];
        digest.copy_from_slice(field);
        Some(digest)
    } else {
        None
    }
}

fn is_printable(byte: u8) -> bool
    ensures { result ≡ is_between 33 126 byte }
{
    b'!' <= byte && byte <= b'~'
}

fn are_printable(field: &[u8]) -> bool
    ensures { result ≡ list_all (λ b. is_between 33 126 b) field.now }
{
    field.iter().all(|byte| is_printable(*byte))
}

fn is_word(field: &[u8]) -> bool
    ensures { result ≡ is_word field.now }
{
    1 <= field.len() && field.len() <= 128 && are_printable(field)
}
