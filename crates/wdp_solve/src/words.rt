//! What the words ask for.

ghost use Rattle.std.specs.Prelude.{◌≤◌};
ghost use Rattle.auction_terms.specs.declared.limits.TheConstants.{MOST_WORKERS};

use answers::{Command as Named, VERSION};
use auction_input::Request;
use auction_terms::MOST_WORKERS;
use clap::error::ErrorKind;
use clap::{Arg, ArgAction, ArgMatches, Command, Error, value_parser};
use solving::Options;
use std::alloc::{AllocError, Global};
use std::env::Args;

/// The steps of a search where the words don't say how many.
const STEPS: &str = "100000000000";

const ABOUT: &str = "Finds the winners of a combinatorial clock auction, and proves them";

const BELOW: &str =
    "Input: that of wdp compile; group 1 has to be -\nOutput: for each group a %solution and a %certificate, with --ties also %tie and %unique, and then the input; wdp verify accepts it\nStatus: 0 with an output, 1 where the input is refused, 2 where the words are, 3 where a group isn't proved within the steps\nExample: wdp-solve examples/worked.txt | wdp verify\n\nThe formats and each refusal: docs/REFERENCE.md";

/// What the words ask for.
#[derive(Drop)]
pub struct Asked {
    pub options: Options,
    /// The files that are read and written, and whether the last of a bidder's forms counts.
    pub named: Named,
    /// The file of solutions to begin with.
    pub solutions: Option<String>,
    ghost some: { 1 ≤ options.workers },
    ghost few: { options.workers ≤ MOST_WORKERS },
}

/// An option that has a value.
fn valued<'a>(alloc: Global, name: &'a str, value: &'a str, help: &'a str) -> Arg<'a> {
    Arg::new(alloc, name)
        .long(name)
        .value_name(value)
        .help(help)
}

/// An option that has none.
fn flag<'a>(alloc: Global, name: &'a str, help: &'a str) -> Arg<'a> {
    Arg::new(alloc, name)
        .long(name)
        .help(help)
        .action(ArgAction::SetTrue)
}

/// The options of the search.
fn with_search<'a>(alloc: Global, command: Command<'a>) -> Result<Command<'a>, AllocError> {
    let workers = value_parser!(u64).range(1..=MOST_WORKERS as i64);
    let steps = value_parser!(u64).range(1..=i64::MAX);
    let help = "How many workers search groups";
    let command = command.arg(
        valued(alloc, "workers", "N", help)
            .value_parser(workers)
            .default_value("1"),
    )?;
    let help = "The most steps of a search: numbers of its tables that are worked on";
    let command = command.arg(
        valued(alloc, "steps", "N", help)
            .value_parser(steps)
            .default_value(STEPS),
    )?;
    let help = "Find every award of a tie";
    let command = command.arg(flag(alloc, "ties", help))?;
    let help =
        "Where a group isn't proved, write the solutions that were found; wdp report takes them";
    let command = command.arg(flag(alloc, "unproved", help))?;
    let help = "Begin with the solutions in FILE, one for each group";
    command.arg(valued(alloc, "from", "FILE", help))
}

/// The options on files.
fn with_files<'a>(alloc: Global, command: Command<'a>) -> Result<Command<'a>, AllocError> {
    let help = "A bidder may have forms in several files, of which the last one counts";
    let command = command.arg(flag(alloc, "last-wins", help))?;
    let help = "The output file, written completely or not at all [default: standard output]";
    let output = valued(alloc, "output", "FILE", help).short('o');
    let help = "The input files, read as one input [default: standard input, also named -]";
    let files = Arg::new(alloc, "files")
        .value_name("FILE")
        .help(help)
        .action(ArgAction::Append);
    command.arg(output)?.arg(files)
}

fn parser<'a>(alloc: Global) -> Result<Command<'a>, AllocError> {
    let command = Command::new(alloc, "wdp-solve")
        .about(ABOUT)
        .after_help(BELOW)
        .version(VERSION);
    with_files(alloc, with_search(alloc, command)?)
}

fn has_flag(matches: &ArgMatches<'_>, id: &str) -> bool {
    match matches.get_str(id) {
        Some(text) => text == "true",
        None => false,
    }
}

/// How many workers there are. The parser has tested the number.
fn workers_of(matches: &ArgMatches<'_>) -> usize
    ensures some { 1 ≤ result }
    ensures few { result ≤ MOST_WORKERS }
{
    let Some(text) = matches.get_str("workers") else {
        return 1;
    };
    match text.parse::<usize>() {
        Ok(number) if 1 <= number && number <= MOST_WORKERS => number,
        _ => 1,
    }
}

/// The most steps of a search. The parser has tested the number.
fn steps_of(matches: &ArgMatches<'_>) -> u64 {
    match matches.get_str("steps") {
        Some(text) => text.parse::<u64>().unwrap_or(1),
        None => 1,
    }
}

fn text_of(
    alloc: Global,
    matches: &ArgMatches<'_>,
    id: &str,
) -> Result<Option<String>, AllocError> {
    match matches.get_str(id) {
        Some(text) => Ok(Some(String::from_str(alloc, text)?)),
        None => Ok(None),
    }
}

fn files_of(alloc: Global, matches: &ArgMatches<'_>) -> Result<Vec<String>, AllocError> {
    let mut files = Vec::new(alloc);
    if let Some(names) = matches.get_raw("files") {
        for name in names {
            files.push(String::from_str(alloc, name)?)?;
        }
    }
    Ok(files)
}

fn read(alloc: Global, matches: &ArgMatches<'_>) -> Result<Asked, AllocError> {
    let workers = workers_of(matches);
    Ok(Asked {
        options: Options {
            workers,
            ties: has_flag(matches, "ties"),
            most_steps: steps_of(matches),
            unproved: has_flag(matches, "unproved"),
        },
        named: Named {
            request: Request::Compile { workers },
            last_wins: has_flag(matches, "last-wins"),
            files: files_of(alloc, matches)?,
            output: text_of(alloc, matches, "output")?,
        },
        solutions: text_of(alloc, matches, "from")?,
    })
}

/// What the words ask for, the program's own name first. Help and the version are errors of the parser, which ask for them.
pub fn words_of(alloc: Global, words: Args) -> Result<Asked, Error> {
    let list: Vec<String> = words.collect(alloc)?;
    let mut texts: Vec<&str> = Vec::new(alloc);
    for word in &list {
        texts.push(word.as_str())?;
    }
    let matches = parser(alloc)?.try_get_matches_from(texts.as_slice())?;
    Ok(read(alloc, &matches)?)
}

/// Whether an error of the words asks for the version.
pub fn is_version(error: &Error) -> bool {
    error.kind() == ErrorKind::DisplayVersion
}

/// Whether memory ran out while the words were read.
pub fn is_memory(error: &Error) -> bool {
    error.kind() == ErrorKind::OutOfMemory
}
