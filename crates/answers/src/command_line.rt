//! What the words ask for.

ghost use Rattle.std.specs.Prelude.{◌≡◌, ◌⊎◌, ◌≤◌, [], IfErr, IfOk, List, OnOk, Some, codes, if◌then◌else◌, map, option_map};
ghost use Rattle.std.specs.Option.{option_map_or};
ghost use Rattle.std.specs.Vec.Iter.{into_iter_items};
ghost use Rattle.std.specs.Str.Parse.{digits_value, without_leading_plus};
ghost use Rattle.clap.specs.ValueTests.{is_unsigned_in};
ghost use Rattle.clap.specs.Words.{FailsBy, HasKind, Row, fault_of, first_of, found_of, rows_of, kind_of, subcommand_of, subcommand_rows_of};
ghost use Rattle.clap.specs.declared.error.kind.ErrorKind.TheVariants as kind;
ghost use Rattle.answers.specs.Asked as asked;
ghost use Rattle.answers.specs.Asked.{by_fault, command_line_of, faults_of, for_answer, command_fault, in_format, named, option_flag};
ghost use Rattle.answers.specs.Asked.{explain_options, option_number, option_target, option_texts, request_named, target_fault, text_of, wdp};
ghost use Rattle.auction_input.specs.Requests.{IsRequestWithinLimits};

use crate::parser::parser;
use auction_input::{ExplainOptions, Objects, Request, Target};
use auction_terms::{MOST_GROUPS, MOST_WORKERS};
use byte_sinks::Format;
use clap::error::ErrorKind;
use clap::{ArgMatches, Command as Words, Error};
use std::alloc::{AllocError, Global};
use std::env::Args;

/// A request, and the files that it reads and writes.
#[derive(Drop)]
pub struct Command {
    pub request: Request,
    /// Whether a bidder may have forms in several files, of which the last one counts.
    pub last_wins: bool,
    /// The files that are read, in order; none where standard input is.
    pub files: Vec<String>,
    /// The file that is written; standard output where there is none.
    pub output: Option<String>,
}

// The number that a text writes, from 1 to the most; of any other text 1. The parser has tested it to be within.
fn number_up_to(most: usize, text: &str) -> usize
    ensures number { result ≡ (if is_unsigned_in 1 most text.now
        then digits_value 10 (without_leading_plus text.now) else 1) }
    ensures least { 1 ≤ result }
    ensures most { 1 ≤ most → result ≤ most }
{
    match text.parse::<usize>() {
        Ok(number) if 1 <= number && number <= most => number,
        _ => 1,
    }
}

// The number that an option has.
fn number_of(matches: &ArgMatches<'_>, id: &str, most: usize) -> usize
    ensures number { result ≡ option_number id.now most (rows_of (found_of matches.now)) }
    ensures least { 1 ≤ result }
    ensures most { 1 ≤ most → result ≤ most }
{
    match matches.get_str(id) {
        Some(text) => number_up_to(most, text),
        None => 1,
    }
}

// Whether an option without a value is there: the parser gives it a text.
fn has_flag(matches: &ArgMatches<'_>, id: &str) -> bool
    ensures { result ≡ option_flag id.now (rows_of (found_of matches.now)) }
{
    match matches.get_str(id) {
        Some(text) => text == "true",
        None => false,
    }
}

// The command for which an input is to be explained. Its name was tested before.
fn target_of(matches: &ArgMatches<'_>) -> Option<Target>
    ensures { result ≡ option_target (codes "for") (rows_of (found_of matches.now)) }
{
    match matches.get_str("for") {
        Some(name) => Target::named(name),
        None => None,
    }
}

// What `explain` is asked.
fn options_of(matches: &ArgMatches<'_>) -> ExplainOptions
    ensures { result ≡ explain_options (rows_of (found_of matches.now)) }
{
    let format = if has_flag(matches, "json") {
        Format::Json
    } else {
        Format::Words
    };
    ExplainOptions {
        bids: has_flag(matches, "bids"),
        target: target_of(matches),
        format,
    }
}

// Copies of texts.
fn copies_of(alloc: Global, texts: &[&str]) -> Result<Vec<String>, AllocError>
    ensures { IfOk result (λ copies. map text_of copies.items ≡ map (λ t. t.now) texts.now) }
{
    let mut copies = Vec::with_capacity(alloc, texts.len())?;
    for text in texts {
        copies.push(String::from_str(alloc, text)?)?;
    }
    Ok(copies)
}

// The files that are named.
fn files_of(alloc: Global, matches: &ArgMatches<'_>) -> Result<Vec<String>, AllocError>
    ensures { IfOk result (λ files. map text_of files.items
        ≡ option_texts (codes "files") (rows_of (found_of matches.now))) }
{
    match matches.get_raw("files") {
        Some(names) => copies_of(alloc, names),
        None => Ok(Vec::new(alloc)),
    }
}

// The file that is named to be written.
fn output_of(alloc: Global, matches: &ArgMatches<'_>) -> Result<Option<String>, AllocError>
    ensures { IfOk result (λ output. option_map text_of output
        ≡ first_of (codes "output") (rows_of (found_of matches.now))) }
{
    match matches.get_str("output") {
        Some(name) => Ok(Some(String::from_str(alloc, name)?)),
        None => Ok(None),
    }
}

// A request, or what takes its place where objects of JSON are asked for.
fn in_format(format: Format, asked: Request, objects: Objects) -> Request
    requires asked { IsRequestWithinLimits asked }
    requires objects { IsRequestWithinLimits (Request.Objects objects) }
    ensures request { result ≡ in_format format asked objects }
    ensures limits { IsRequestWithinLimits result }
{
    match format {
        Format::Words => asked,
        Format::Json => Request::Objects(objects),
    }
}

// What `verify` is asked.
fn verify_by(with_forms: bool, workers: usize) -> Request
    requires some { 1 ≤ workers }
    requires few { workers ≤ MOST_WORKERS }
    ensures request { result ≡ (if with_forms then Request.VerifyWithForms workers
        else Request.Verify workers) }
    ensures limits { IsRequestWithinLimits result }
{
    if with_forms {
        return Request::VerifyWithForms { workers };
    }
    Request::Verify { workers }
}

// The request of the command of this name, with what the options say.
fn request_by(
    name: &str,
    workers: usize,
    with_forms: bool,
    group: usize,
    options: ExplainOptions,
) -> Request
    requires workers { (1 ≤ workers) × (workers ≤ MOST_WORKERS) }
    requires group { (1 ≤ group) × (group ≤ MOST_GROUPS) }
    ensures request { (rows : List Row)
        → workers ≡ option_number (codes "workers") MOST_WORKERS rows
        → with_forms ≡ option_flag (codes "forms") rows
        → group ≡ option_number (codes "group") MOST_GROUPS rows
        → options ≡ explain_options rows
        → result ≡ request_named (Some (name.now, rows)) }
    ensures limits { IsRequestWithinLimits result }
{
    match name {
        "compile" => Request::Compile { workers },
        "check" => Request::Check,
        "map" => Request::Map { group },
        "report" => in_format(
            options.format,
            Request::Report { workers },
            Objects::Report { workers },
        ),
        "verify" => in_format(
            options.format,
            verify_by(with_forms, workers),
            Objects::Verify { workers },
        ),
        "explain" => Request::Explain(options),
        "forms" => in_format(options.format, Request::Forms, Objects::Forms),
        _ => Request::Text,
    }
}

// The request of the command of this name. An option that it hasn't got says what holds where nothing is said.
fn request_of(name: &str, matches: &ArgMatches<'_>) -> Request
    ensures request { result ≡ request_named (Some (name.now, rows_of (found_of matches.now))) }
    ensures limits { IsRequestWithinLimits result }
{
    let workers = number_of(matches, "workers", MOST_WORKERS);
    let group = number_of(matches, "group", MOST_GROUPS as usize);
    let with_forms = has_flag(matches, "forms");
    request_by(name, workers, with_forms, group, options_of(matches))
}

// What the words of a command say.
fn read_command(alloc: Global, name: &str, matches: &ArgMatches<'_>) -> Result<Command, AllocError>
    ensures line { IfOk result (λ command. command_line_of command
        ≡ named (Some (name.now, rows_of (found_of matches.now)))) }
    ensures limits { IfOk result (λ command. IsRequestWithinLimits command.request) }
{
    Ok(Command {
        request: request_of(name, matches),
        last_wins: has_flag(matches, "last-wins"),
        files: files_of(alloc, matches)?,
        output: output_of(alloc, matches)?,
    })
}

// What the words of the command that was found say.
fn read(alloc: Global, matches: &ArgMatches<'_>) -> Result<Command, AllocError>
    ensures line { IfOk result (λ command. command_line_of command
        ≡ named (subcommand_rows_of matches.now)) }
    ensures limits { IfOk result (λ command. IsRequestWithinLimits command.request) }
{
    match matches.subcommand() {
        Some((name, found)) => read_command(alloc, name, found),
        None => Ok(Command {
            request: Request::Text,
            last_wins: false,
            files: Vec::new(alloc),
            output: None,
        }),
    }
}

// What the parser makes of the words.
fn matches_of<'a>(alloc: Global, words: &'a [&'a str]) -> Result<ArgMatches<'a>, Error>
    ensures faults { FailsBy (fault_of wdp (map (λ word. word.now) words.entry.now)) result }
    ensures subcommand { IfOk result (λ m. subcommand_rows_of m
        ≡ subcommand_of wdp (map (λ word. word.now) words.entry.now)) }
{
    parser(alloc)?.try_get_matches_from(words)
}

// The fault of a name that no command has, as the parser reports one that isn't a possible value.
fn unknown_target(alloc: Global, name: &str) -> Result<Error, AllocError>
    ensures { IfOk result (λ e. kind_of e ≡ kind.InvalidValue) }
{
    let text = format!(in alloc;
        "invalid value '{name}' for '--for <COMMAND>'\n  [possible values: text, compile, map, report, verify]"
    )?;
    let mut command = Words::new(alloc, "explain").override_usage(
        "wdp explain [OPTIONS] [FILE]...",
    );
    command.error(ErrorKind::InvalidValue, text.as_str())
}

// Tests that a command has this name.
fn check_name(alloc: Global, name: &str) -> Result<(), Error>
    ensures known { OnOk result (command_fault name.now ≡ []) }
    ensures unknown { IfErr result (HasKind (command_fault name.now)) }
{
    match Target::named(name) {
        Some(_) => Ok(()),
        None => Err(unknown_target(alloc, name)?),
    }
}

// Tests that a command has the name that an option has, if it has one.
fn check_option(alloc: Global, matches: &ArgMatches<'_>) -> Result<(), Error>
    ensures known { OnOk result (option_map_or command_fault
        (first_of (codes "for") (rows_of (found_of matches.now))) [] ≡ []) }
    ensures unknown { IfErr result (HasKind (option_map_or command_fault
        (first_of (codes "for") (rows_of (found_of matches.now))) [])) }
{
    match matches.get_str("for") {
        Some(name) => check_name(alloc, name),
        None => Ok(()),
    }
}

// Tests that a command has the name for which an input is to be explained, if it is.
fn check_target(alloc: Global, matches: &ArgMatches<'_>) -> Result<(), Error>
    ensures known { OnOk result (target_fault (subcommand_rows_of matches.now) ≡ []) }
    ensures unknown { IfErr result (HasKind (target_fault (subcommand_rows_of matches.now))) }
{
    match matches.subcommand() {
        Some((_, found)) => check_option(alloc, found),
        None => Ok(()),
    }
}

// The words in a list.
fn listed(alloc: Global, words: Args) -> Result<Vec<String>, AllocError>
    ensures { IfOk result (λ list. list.items ≡ into_iter_items words) }
{
    words.collect(alloc)
}

// The words as texts.
fn texts_of<'a>(alloc: Global, words: &'a [String]) -> Result<Vec<&'a str>, AllocError>
    ensures { IfOk result (λ texts. map (λ text. text.now) texts.items
        ≡ map text_of words.entry.now) }
{
    words
        .iter()
        .map(
            |word: &String| -> &str
                ensures { result.now ≡ word.entry.now.bytes.items }
            { word.as_str() },
        )
        .collect(alloc)
}

// The words as the parser takes them: `help` in front of others is put as `--help` after them.
fn spelled<'a>(alloc: Global, words: &'a [String]) -> Result<Vec<&'a str>, AllocError>
    ensures { IfOk result (λ texts. map (λ text. text.now) texts.items
        ≡ asked.spelled (map text_of words.entry.now)) }
{
    let mut texts = texts_of(alloc, words)?;
    if texts.len() > 1 && texts[1] == "help" {
        texts.remove(1);
        texts.push("--help")?;
    }
    Ok(texts)
}

/// What the words ask for, the program's own name first. Help and the version are errors of the parser, which ask for them.
pub fn command_of(alloc: Global, words: Args) -> Result<Command, Error>
    ensures asked { IfOk result (λ command. asked.asked (map text_of (into_iter_items words))
        ≡ for_answer (command_line_of command)) }
    ensures faults { IfErr result (HasKind (faults_of (map text_of (into_iter_items words)))) }
    ensures shown { IfErr result (λ e. (kind_of e ≡ kind.OutOfMemory)
        ⊎ (asked.asked (map text_of (into_iter_items words)) ≡ by_fault (kind_of e))) }
    ensures limits { IfOk result (λ command. IsRequestWithinLimits command.request) }
{
    let words = listed(alloc, words)?;
    let texts = spelled(alloc, words.as_slice())?;
    let matches = matches_of(alloc, texts.as_slice())?;
    check_target(alloc, &matches)?;
    Ok(read(alloc, &matches)?)
}
