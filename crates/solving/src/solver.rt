//! From an input to its audit.

ghost use Rattle.std.specs.Prelude.{◌≤◌, IfErr, OnOk};
ghost use Rattle.auction_terms.specs.declared.limits.TheConstants.{MOST_WORKERS};
ghost use Rattle.solving.specs.Audits.{IsUnsolved, WritesAccepted};

use crate::audit::{write_audit, write_unproved};
use crate::groups::Others;
use answers::{check_counts, won_by_groups};
use auction_input::{Input, NamedText, Refusal, Request, read_auction};
use auction_terms::{Choice, Groups};
use byte_sinks::Sink;
use findings::{Found, add_part, add_ties, search};
use group_compiler::{Compiler, GroupPrograms, make_each};
use outcome::Allocation;
use std::alloc::{AllocError, Global};
use std::sync::Wait;
use std::thread::Threads;

/// How an input is solved.
#[derive(Clone, Copy, Debug)]
pub struct Options {
    /// So many workers search groups.
    pub workers: usize,
    /// Whether every award of a tie is looked for.
    pub ties: bool,
    /// The most steps of a search.
    pub most_steps: u64,
    /// Whether solutions are written that aren't proved.
    pub unproved: bool,
}

/// What is wanted when the steps are used up.
#[derive(Clone, Copy, PartialEq, Eq, Debug)]
pub enum Wanted {
    /// The certificate of a group, counted from 1.
    Group(usize),
    /// The other awards, or the text that shows that there are no more.
    Ties,
}

/// Why there is no audit.
#[derive(Drop)]
pub enum Unsolved {
    Refused(Refusal),
    /// The steps were used up.
    NotProved(Wanted),
}

impl From<AllocError> for Unsolved {
    fn from(_: AllocError) -> Unsolved {
        Unsolved::Refused(Refusal::OutOfMemory)
    }
}

impl From<Refusal> for Unsolved {
    fn from(refusal: Refusal) -> Unsolved {
        Unsolved::Refused(refusal)
    }
}

/// What was found of an input.
#[derive(Drop)]
enum Solved {
    /// The parts that make it an audit.
    Proved(Vec<u8>),
    /// The solutions alone.
    NotProved { wanted: Wanted, solutions: Vec<u8> },
}

/// What shows that solutions are right.
#[derive(Drop)]
enum Shown {
    /// The parts after the solutions.
    By(Vec<u8>),
    /// The steps were used up.
    Lacks(Wanted),
}

/// Copies of texts, and one more.
fn texts_with(alloc: Global, given: &Input, last: &NamedText) -> Result<Input, AllocError> {
    let mut texts = Vec::new(alloc);
    for text in given.texts() {
        texts.push(copied(alloc, text)?)?;
    }
    texts.push(copied(alloc, last)?)?;
    Ok(Input::new(texts).with_last_wins(given.last_wins()))
}

fn copied(alloc: Global, text: &NamedText) -> Result<NamedText, AllocError> {
    let name = Vec::from_slice(alloc, text.name())?;
    let bytes = Vec::from_slice(alloc, text.bytes())?;
    Ok(NamedText::new(name, bytes))
}

/// What solutions win, group by group, as `report` takes them.
fn read_known<R: Threads + Wait + Sync + AllocGlobal>(
    rt: &R,
    given: &Input,
    solutions: &NamedText,
    workers: usize,
) -> Result<Vec<Vec<Choice>>, Refusal>
    requires some { 1 ≤ workers }
    requires few { workers ≤ MOST_WORKERS }
{
    let alloc: Global = rt.alloc();
    let input = texts_with(alloc, given, solutions)?;
    let auction = read_auction(rt, &Request::Report { workers }, &input)?;
    check_counts(&auction)?;
    let compiler = Compiler::new(rt, alloc, &auction.book, &auction.groups)?;
    let won = won_by_groups(rt, &auction, &compiler, workers)?;
    Ok(choices_of_all(alloc, won.as_slice())?)
}

/// The bids that allocations have.
fn choices_of_all(alloc: Global, won: &[Allocation]) -> Result<Vec<Vec<Choice>>, AllocError> {
    let mut known = Vec::new(alloc);
    for allocation in won {
        known.push(Vec::from_slice(alloc, allocation.choices())?)?;
    }
    Ok(known)
}

/// What is found with nobody left out.
fn search_first(
    alloc: Global,
    programs: &GroupPrograms<'_>,
    known: &[Vec<Choice>],
    most_steps: u64,
) -> Result<Found, AllocError> {
    let nobody = Groups::only_empty(alloc)?;
    let program = programs.without(alloc, nobody.group(1))?;
    let start = match known.first() {
        Some(choices) => choices.as_slice(),
        None => &[],
    };
    search(alloc, &program, start, most_steps)
}

/// What was found of group 1 and then of the others.
fn joined(
    alloc: Global,
    first: Found,
    others: Vec<Option<Found>>,
) -> Result<Vec<Found>, AllocError> {
    let mut all = Vec::new(alloc);
    all.push(first)?;
    for found in others {
        if let Some(found) = found {
            all.push(found)?;
        }
    }
    Ok(all)
}

/// What is found without each group, in order: the first one from nothing, and the others from what it came to.
fn search_groups<R: Threads + Sync + AllocGlobal>(
    rt: &R,
    programs: &GroupPrograms<'_>,
    groups: &Groups,
    known: &[Vec<Choice>],
    options: Options,
) -> Result<Vec<Found>, AllocError>
    requires some { 1 ≤ options.workers }
    requires few { options.workers ≤ MOST_WORKERS }
{
    let alloc: Global = rt.alloc();
    let first = search_first(alloc, programs, known, options.most_steps)?;
    let others = Others {
        programs,
        groups,
        first: &first,
        known,
        most_steps: options.most_steps,
    };
    let made = make_each(rt, alloc, options.workers, &others)?;
    joined(alloc, first, made)
}

/// The parts `%solution`.
fn solutions_of(alloc: Global, all: &[Found]) -> Result<Vec<u8>, AllocError> {
    let mut text = Vec::new(alloc);
    for found in all {
        add_part(&mut text, b"%solution", found.solution.as_slice())?;
    }
    Ok(text)
}

/// Adds the parts `%certificate`. The first group that hasn't got one, counted from 1.
fn add_certificates(text: &mut Vec<u8>, all: &[Found]) -> Result<Option<usize>, AllocError> {
    let mut number: usize = 0;
    for found in all {
        number = number.saturating_add(1);
        let Some(certificate) = &found.certificate else {
            return Ok(Some(number));
        };
        add_part(text, b"%certificate", certificate.as_slice())?;
    }
    Ok(None)
}

/// What shows that what was found is right: the certificates, and the ties if they are asked for.
fn show(
    alloc: Global,
    programs: &GroupPrograms<'_>,
    all: &[Found],
    options: Options,
) -> Result<Shown, AllocError> {
    let mut parts = Vec::new(alloc);
    if let Some(group) = add_certificates(&mut parts, all)? {
        return Ok(Shown::Lacks(Wanted::Group(group)));
    }
    match all.first() {
        Some(first) if options.ties => {
            if add_first_ties(alloc, programs, first, options.most_steps, &mut parts)? {
                Ok(Shown::By(parts))
            } else {
                Ok(Shown::Lacks(Wanted::Ties))
            }
        }
        _ => Ok(Shown::By(parts)),
    }
}

/// Adds the parts on ties of group 1. Whether the steps sufficed.
fn add_first_ties(
    alloc: Global,
    programs: &GroupPrograms<'_>,
    first: &Found,
    most_steps: u64,
    text: &mut Vec<u8>,
) -> Result<bool, AllocError> {
    let nobody = Groups::only_empty(alloc)?;
    let program = programs.without(alloc, nobody.group(1))?;
    add_ties(alloc, &program, first, most_steps, text)
}

/// What is found of the programs of an auction.
fn solve_programs<R: Threads + Sync + AllocGlobal>(
    rt: &R,
    programs: &GroupPrograms<'_>,
    groups: &Groups,
    known: &[Vec<Choice>],
    options: Options,
) -> Result<Solved, AllocError>
    requires some { 1 ≤ options.workers }
    requires few { options.workers ≤ MOST_WORKERS }
{
    let alloc: Global = rt.alloc();
    let all = search_groups(rt, programs, groups, known, options)?;
    let shown = show(alloc, programs, all.as_slice(), options)?;
    let mut text = solutions_of(alloc, all.as_slice())?;
    Ok(match shown {
        Shown::By(parts) => {
            text.extend_from_slice(parts.as_slice())?;
            Solved::Proved(text)
        }
        Shown::Lacks(wanted) => Solved::NotProved {
            wanted,
            solutions: text,
        },
    })
}

/// What is found of an input.
fn solve_input<R: Threads + Wait + Sync + AllocGlobal>(
    rt: &R,
    given: &Input,
    known: &[Vec<Choice>],
    options: Options,
) -> Result<Solved, Refusal>
    requires some { 1 ≤ options.workers }
    requires few { options.workers ≤ MOST_WORKERS }
{
    let alloc: Global = rt.alloc();
    let workers = options.workers;
    let auction = read_auction(rt, &Request::Compile { workers }, given)?;
    if !auction.groups.starts_empty() {
        return Err(Refusal::FirstGroupNotEmpty);
    }
    let compiler = Compiler::new(rt, alloc, &auction.book, &auction.groups)?;
    let programs = compiler.group_programs(alloc)?;
    Ok(solve_programs(rt, &programs, &auction.groups, known, options)?)
}

/// What is found of an input, from the points of a text of solutions, if there is one.
fn find<R: Threads + Wait + Sync + AllocGlobal>(
    rt: &R,
    given: &Input,
    solutions: Option<&NamedText>,
    options: Options,
) -> Result<Solved, Refusal>
    requires some { 1 ≤ options.workers }
    requires few { options.workers ≤ MOST_WORKERS }
{
    let known = match solutions {
        Some(text) => read_known(rt, given, text, options.workers)?,
        None => Vec::new(rt.alloc()),
    };
    solve_input(rt, given, known.as_slice(), options)
}

/// Writes what was found of an input, and then the bytes that came in.
fn write_solved<R: Threads + Wait + Sync + AllocGlobal, S: Sink>(
    rt: &R,
    given: &Input,
    solved: &Solved,
    options: Options,
    out: &mut S,
) -> Result<(), Unsolved>
    requires some { 1 ≤ options.workers }
    requires few { options.workers ≤ MOST_WORKERS }
    ensures audit { OnOk result (WritesAccepted (Request.Verify options.workers) given.now
        (S.state out.old) (S.state out.new)) }
    ensures unsolved { IfErr result (IsUnsolved options.workers given.now
        (S.state out.old) (S.state out.new)) }
{
    let workers = options.workers;
    match solved {
        Solved::Proved(parts) => match write_audit(rt, given, parts.as_slice(), workers, out) {
            Ok(()) => Ok(()),
            Err(refusal) => Err(Unsolved::Refused(refusal)),
        },
        Solved::NotProved { wanted, solutions } => {
            if !options.unproved {
                return Err(Unsolved::NotProved(*wanted));
            }
            match write_unproved(rt, given, solutions.as_slice(), workers, out) {
                Ok(()) => Err(Unsolved::NotProved(*wanted)),
                Err(refusal) => Err(Unsolved::Refused(refusal)),
            }
        }
    }
}

/// Writes the audit of an input: a solution and a certificate for each group, the ties if they are asked for, and then the bytes that
/// came in. `verify` accepts what is written. Points of a text of solutions are begun with, if there is one.
pub fn solve<R: Threads + Wait + Sync + AllocGlobal, S: Sink>(
    rt: &R,
    given: &Input,
    solutions: Option<&NamedText>,
    options: Options,
    out: &mut S,
) -> Result<(), Unsolved>
    requires some { 1 ≤ options.workers }
    requires few { options.workers ≤ MOST_WORKERS }
    ensures audit { OnOk result (WritesAccepted (Request.Verify options.workers) given.now
        (S.state out.old) (S.state out.new)) }
    ensures unsolved { IfErr result (IsUnsolved options.workers given.now
        (S.state out.old) (S.state out.new)) }
{
    let solved = find(rt, given, solutions, options)?;
    write_solved(rt, given, &solved, options, out)
}
