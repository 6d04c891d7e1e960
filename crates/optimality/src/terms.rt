//! Names and numbers of a line.

ghost use Rattle.std.specs.Prelude.{Err, Ok, if◌then◌else◌, ◌≡◌, IfOk, length, bytes_eq, position};
ghost use Rattle.program_rows.specs.declared.certificate_fault.CertificateFaultKind.TheVariants.{Sign};
ghost use Rattle.auction_terms.specs.Decimals.{number};
ghost use Rattle.optimality.specs.inside.Answers.{AnswersSeen};
ghost use Rattle.optimality.specs.LineMeaning.{parsed_natural, parsed_integer, parsed_naturals, named_numbers};
ghost use Rattle.auction_terms.specs.LineFields.{fields};
ghost use Rattle.std.specs.List.{position_or_len};
ghost use Rattle.auction_terms.specs.Lines.{bytes_of};
ghost use Rattle.std.specs.Option.{ok_or};
ghost use Rattle.optimality.specs.Checking.{IsPrepared};
ghost use Rattle.optimality.specs.inside.Naming.{nameable, unknown_of};
ghost use Rattle.auction_terms.specs.Stages.{and_then};
ghost use Rattle.program_rows.specs.ProgramNames.{row_names};
ghost use Rattle.program_rows.specs.ProgramNames as of_program;

use crate::checker::Checker;
use crate::refusal::Refusal;
use auction_terms::{Choice, NumberFault, next_field, read_number};
use indexmap::IndexSet;
use program_rows::{CertificateFaultKind, NameSet, Seeded, Selection, bid_named, place_of};
use std::alloc::{AllocError, Global};
use std::cell::Cell;

pub fn take_number(token: &[u8]) -> Result<i64, Refusal>
    ensures { AnswersSeen (λ n. n) result (parsed_integer (number token.now)) }
{
    match read_number(token) {
        Ok(number) => Ok(number),
        Err(NumberFault::NumberText) => Err(Refusal::Fault(CertificateFaultKind::NumberText)),
        Err(NumberFault::NumberRange) => Err(Refusal::Fault(CertificateFaultKind::NumberRange)),
        Err(NumberFault::NotWhole) => Err(Refusal::Fault(CertificateFaultKind::NumberText)),
    }
}

pub fn take_natural(token: &[u8]) -> Result<u64, Refusal>
    ensures { AnswersSeen (λ n. n) result (parsed_natural token.now) }
{
    let n = take_number(token)?;
    if n < 0 {
        return Err(Refusal::Fault(CertificateFaultKind::Sign));
    }
    Ok(n as u64)
}

/// Numbers, and what follows them in their line.
#[derive(Drop)]
pub struct Naturals<'t> {
    pub numbers: Vec<u64>,
    pub rest: &'t [u8],
}

/// The first numbers of a text, as many as `count`.
pub fn take_naturals(alloc: Global, count: usize, text: &[u8]) -> Result<Naturals<'_>, Refusal>
    ensures parsed { AnswersSeen (λ naturals. (naturals.numbers.items, fields naturals.rest.now))
        result (parsed_naturals count (fields text.now)) }
    ensures count { IfOk result (λ naturals. length naturals.numbers.items ≡ count) }
{
    let mut numbers = Vec::new(alloc);
    let mut rest = text;
    for i in 0..count {
        let Some(token) = next_field(rest) else {
            return Err(Refusal::Fault(CertificateFaultKind::Fields));
        };
        let number = take_natural(token.text)?;
        numbers.push(number)?;
        rest = token.rest;
    }
    Ok(Naturals { numbers, rest })
}

/// The seed of the names of all rows, one after the other.
fn row_seed(alloc: Global, program: &Selection<'_>) -> Result<Seeded, AllocError> {
    let mut names = Vec::new(alloc);
    for row in 0..program.row_count() {
        names.extend_from_slice(program.row_name(row))?;
    }
    Ok(Seeded::by_text(names.as_slice()))
}

/// The names of the rows, in the order of the program.
pub fn row_names<'s>(alloc: Global, program: &'s Selection<'_>) -> Result<NameSet<'s>, AllocError>
    ensures { IfOk result (λ names. bytes_of names.keys ≡ of_program.row_names program.now) }
{
    // Names differ, so that a set of them has each at its place.
    program.well_formed();
    let seed = row_seed(alloc, program)?;
    let mut names = IndexSet::with_capacity_and_hasher(alloc, program.row_count(), seed)?;
    for row in 0..program.row_count() {
        names.insert(program.row_name(row))?;
    }
    Ok(names)
}

fn is_same(name: &[u8], other: &[u8]) -> bool
    ensures { result ≡ bytes_eq name.now other.now }
{
    name == other
}

/// Whether the bid of a column comes before another one.
fn is_before(found: Option<Choice>, bid: Choice) -> bool {
    match found {
        Some(other) => (other.bidder, other.bid) < (bid.bidder, bid.bid),
        None => false,
    }
}

/// Where the column of a bid is, if columns rise by their bids.
fn place_of_bid(program: &Selection<'_>, bid: Choice) -> usize {
    let mut low = 0;
    let mut high = program.column_count();
    while low < high {
        let middle = low + (high - low) / 2;
        if is_before(program.column_bid(middle), bid) {
            low = middle + 1;
        } else {
            high = middle;
        }
    }
    low
}

/// Where the column of a name may be: where the next one is expected, or by the bid that the name spells, or else last, as the
/// column of what all lots are worth is.
fn guess(program: &Selection<'_>, expected: usize, name: &[u8]) -> usize {
    if expected < program.column_count() && is_same(name, program.column_name(expected)) {
        return expected;
    }
    match bid_named(name) {
        Some(bid) => place_of_bid(program, bid),
        None => program.column_count().saturating_sub(1),
    }
}

fn search(program: &Selection<'_>, name: &[u8]) -> usize
    ensures { result ≡ position_or_len (λ c. bytes_eq name.now c.name) program.now.columns }
{
    for column in 0..program.column_count() {
        if is_same(name, program.column_name(column)) {
            return column;
        }
    }
    program.column_count()
}

/// The place of the column of a name, or the number of columns if there is none. The guess is tried first.
fn place_or_count(program: &Selection<'_>, guess: usize, name: &[u8]) -> usize
    ensures { result ≡ position_or_len (λ c. bytes_eq name.now c.name) program.now.columns }
{
    // Names differ, so that there is no other column of that name.
    program.well_formed();
    if guess < program.column_count() {
        if is_same(name, program.column_name(guess)) {
            return guess;
        }
    }
    search(program, name)
}

/// The place of the column of a name, if there is one. It takes no table of names: after the name that was found last, as `next`
/// holds, or else by the bid that it spells, it is found at once in a program whose columns rise by their bids.
fn column_place(program: &Selection<'_>, next: &Cell<usize>, name: &[u8]) -> Option<usize>
    ensures { result ≡ position (bytes_eq name.now) (of_program.column_names program.now) }
{
    let place = place_or_count(program, guess(program, next.get(), name), name);
    if place >= program.column_count() {
        return None;
    }
    next.set(place.wrapping_add(1));
    Some(place)
}

/// What the names of a line are of.
#[derive(Clone, Copy)]
pub enum Named {
    Columns,
    Rows,
}

/// The fault of a name that there isn't.
fn unknown(named: Named) -> CertificateFaultKind
    ensures { result ≡ unknown_of named }
{
    match named {
        Named::Columns => CertificateFaultKind::UnknownColumn,
        Named::Rows => CertificateFaultKind::UnknownRow,
    }
}

fn place_named(checker: &Checker, named: Named, name: &[u8]) -> Option<usize>
    requires { IsPrepared checker.now }
    ensures { result ≡ position (bytes_eq name.now) (nameable named checker.now.program.now) }
{
    match named {
        Named::Columns => column_place(checker.program, &checker.next_column, name),
        Named::Rows => place_of(&checker.rows, &checker.next_row, name),
    }
}

fn take_term(
    checker: &Checker,
    named: Named,
    name: &[u8],
    token: &[u8],
) -> Result<(usize, i64), Refusal>
    requires { IsPrepared checker.now }
    ensures { AnswersSeen (λ term. term) result (and_then (ok_or (position (bytes_eq name.now)
        (nameable named checker.now.program.now)) (unknown_of named)) (λ place.
        and_then (parsed_integer (number token.now)) (λ n. Ok (place, n)))) }
{
    let Some(place) = place_named(checker, named, name) else {
        return Err(Refusal::Fault(unknown(named)));
    };
    let number = take_number(token)?;
    Ok((place, number))
}

/// Names of columns or of rows, each with a number, to the end of a line.
pub fn take_terms(
    checker: &Checker,
    named: Named,
    text: &[u8],
) -> Result<Vec<(usize, i64)>, Refusal>
    requires { IsPrepared checker.now }
    ensures { AnswersSeen (λ terms. terms.items) result (named_numbers
        (nameable named checker.now.program.now) (unknown_of named) (fields text.now)) }
{
    let mut terms = Vec::new(checker.alloc);
    let mut rest = text;
    while let Some(name) = next_field(rest) {
        let Some(token) = next_field(name.rest) else {
            return Err(Refusal::Fault(CertificateFaultKind::Fields));
        };
        let term = take_term(checker, named, name.text, token.text)?;
        terms.push(term)?;
        rest = token.rest;
    }
    Ok(terms)
}
