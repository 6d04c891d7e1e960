//! The options of the commands, and the files that they name.

ghost use Rattle.std.specs.Prelude.{◌≡◌, Some, codes, false};
ghost use Rattle.clap.specs.Words.{new_rule, rule_of};
ghost use Rattle.answers.specs.Asked as asked;

use auction_terms::{MOST_GROUPS, MOST_WORKERS};
use clap::builder::ValueParser;
use clap::{Arg, ArgAction, value_parser};
use std::alloc::Global;

// An option whose value is one of these numbers.
fn number_option<'a>(
    alloc: Global,
    name: &'a str,
    value: &'a str,
    help: &'a str,
    numbers: ValueParser<'a>,
) -> Arg<'a>
    ensures rule { rule_of result ≡ record (new_rule name.entry.now) {
      long = Some name.entry.now;
      value_names = 1;
      parser = Some numbers.entry;
    } }
    ensures local { result.global ≡ false }
{
    Arg::new(alloc, name)
        .long(name)
        .value_name(value)
        .help(help)
        .value_parser(numbers)
}

pub(crate) fn group<'a>(alloc: Global) -> Arg<'a>
    ensures rule { rule_of result ≡ asked.group }
    ensures local { result.global ≡ false }
{
    let numbers = value_parser!(u64).range(1..=i64::from(MOST_GROUPS));
    let help = "The group that is left out, counted from 1";
    number_option(alloc, "group", "K", help, numbers).required(true)
}

pub(crate) fn workers<'a>(alloc: Global) -> Arg<'a>
    ensures rule { rule_of result ≡ asked.workers }
    ensures local { result.global ≡ false }
{
    let numbers = value_parser!(u64).range(1..=MOST_WORKERS as i64);
    number_option(alloc, "workers", "N", "How many workers to run", numbers).default_value("1")
}

pub(crate) fn with_forms<'a>(alloc: Global) -> Arg<'a>
    ensures rule { rule_of result ≡ asked.with_forms }
    ensures local { result.global ≡ false }
{
    Arg::new(alloc, "forms")
        .long("forms")
        .help("Begin with the lines that wdp forms prints")
        .action(ArgAction::SetTrue)
}

pub(crate) fn bids<'a>(alloc: Global) -> Arg<'a>
    ensures rule { rule_of result ≡ asked.bids }
    ensures local { result.global ≡ false }
{
    Arg::new(alloc, "bids")
        .long("bids")
        .help("If nothing is wrong, print which bids are in no program")
        .action(ArgAction::SetTrue)
}

pub(crate) fn explained_for<'a>(alloc: Global) -> Arg<'a>
    ensures rule { rule_of result ≡ asked.explained_for }
    ensures local { result.global ≡ false }
{
    Arg::new(alloc, "for")
        .long("for")
        .value_name("COMMAND")
        .help("Take the input as this command does: text, compile, map, report or verify")
}

pub(crate) fn json<'a>(alloc: Global) -> Arg<'a>
    ensures rule { rule_of result ≡ asked.json }
    ensures local { result.global ≡ false }
{
    Arg::new(alloc, "json")
        .long("json")
        .help("Print JSON, one object a line")
        .action(ArgAction::SetTrue)
}

pub(crate) fn last_wins<'a>(alloc: Global) -> Arg<'a>
    ensures rule { rule_of result ≡ asked.last_wins }
    ensures local { result.global ≡ false }
{
    Arg::new(alloc, "last-wins")
        .long("last-wins")
        .help("A bidder may have forms in several files, of which the last one counts")
        .action(ArgAction::SetTrue)
}

pub(crate) fn output<'a>(alloc: Global) -> Arg<'a>
    ensures rule { rule_of result ≡ asked.output }
    ensures local { result.global ≡ false }
{
    Arg::new(alloc, "output")
        .short('o')
        .long("output")
        .value_name("FILE")
        .help("The output file, written completely or not at all [default: standard output]")
}

pub(crate) fn file<'a>(alloc: Global) -> Arg<'a>
    ensures rule { rule_of result ≡ asked.file }
    ensures local { result.global ≡ false }
{
    Arg::new(alloc, "files")
        .value_name("FILE")
        .help("The input file [default: standard input, also named -]")
}

pub(crate) fn files<'a>(alloc: Global) -> Arg<'a>
    ensures rule { rule_of result ≡ asked.files }
    ensures local { result.global ≡ false }
{
    Arg::new(alloc, "files")
        .value_name("FILE")
        .help("The input files, read as one input [default: standard input, also named -]")
        .action(ArgAction::Append)
}
