//! The commands, and what the help says of each.

ghost use Rattle.std.specs.Prelude.{◌≡◌, ◌++◌, ◌∷◌, [], IfOk, OnOk, codes, false, map, true};
ghost use Rattle.clap.specs.Simple.{on_top};
ghost use Rattle.clap.specs.Words.{app_of, new_app, rule_of, with_rule};
ghost use Rattle.answers.specs.Asked as asked;

use crate::options::{
    bids, explained_for, file, files, group, json, last_wins, output, with_forms, workers,
};
use clap::{Arg, Command};
use std::alloc::{AllocError, Global};

/// The program's version.
pub const VERSION: &str = "2.0.0";

// What the help says of a command: its name, what it does, and what comes below its options.
#[derive(Clone, Copy)]
struct Page {
    name: &'static str,
    about: &'static str,
    below: &'static str,
}

const PROGRAM: Page = Page {
    name: "wdp",
    about: "Compiles and checks the winner determination of a combinatorial clock auction",
    below: "Example: wdp verify examples/prices.txt\n\nThe manual: man wdp; the formats and each refusal: docs/REFERENCE.md",
};

const TEXT: Page = Page {
    name: "text",
    about: "Prints the program of the empty group; so does wdp without a command",
    below: "Input: %rules, and a %form for each form, without %groups\nOutput: the program of the empty group, in free MPS\nAn input of files: (echo %rules; cat rules.csv; echo %form; cat form.csv) > input.txt\nExample: wdp text examples/one_form.txt -o one_form.mps",
};

const CHECK: Page = Page {
    name: "check",
    about: "Prints the sizes of an MPS text",
    below: "Input: the text of one program, in free MPS, without parts\nOutput: a line rows R columns C entries E\nExample: wdp text examples/one_form.txt | wdp check",
};

const COMPILE: Page = Page {
    name: "compile",
    about: "Prints the programs of all groups",
    below: "Input: %rules, a %form for each form, and %groups\nOutput: for each group a line * program K NAMES, and its program in free MPS\nExample: wdp compile --workers 4 examples/worked.txt -o programs.mps",
};

const MAP: Page = Page {
    name: "map",
    about: "Prints the winners of a solution",
    below: "Input: %rules, a %form for each form, %groups, and one %solution\nOutput: a line NAME BID AMOUNT for each winner, and a line total N\nExample: (cat examples/worked.txt; echo %solution; echo X1_2 1) | wdp map --group 1",
};

const REPORT: Page = Page {
    name: "report",
    about: "Prints the winners of all groups' solutions, and the groups' opportunity costs",
    below: "Input: %rules, a %form for each form, %groups, and a %solution for each group\nOutput: for each group its winners, their total, and its opportunity cost; with --json objects, those of forms first\nWrong number of parts: wdp explain --for report prints how many were found and wanted\nExample: sed '/^%certificate/,$d' examples/verified.txt | wdp report",
};

const VERIFY: Page = Page {
    name: "verify",
    about: "Checks an audit, and prints its report and prices",
    below: "Input: that of report, and a %certificate for each group; optionally %prices with %cover and %rule, up to 64 %tie, and %unique\nOutput: with --forms first that of forms; that of report, then the prices if given, then each other award after tie, and last unique, no other, or and more; with --json objects, those of forms first\nWrong number of parts: wdp explain --for verify prints how many were found and wanted\nExample: wdp verify examples/prices.txt",
};

const EXPLAIN: Page = Page {
    name: "explain",
    about: "Prints all faults of an input",
    below: "Input: %rules, a %form for each form, optionally %groups; other parts are ignored, or counted with --for COMMAND\nOutput: a line for each fault, with --json an object; the status is 1 if there is a fault\nExample: (echo %rules; echo rules,1) | wdp explain",
};

const FORMS: Page = Page {
    name: "forms",
    about: "Prints the digests of the rules and of each bidder's last form",
    below: "Input: %rules, and a %form for each form; other parts are ignored\nOutput: a line %rules DIGEST, and for each bidder %form NAME BIDS DIGEST, or %form NAME - without a form; a digest is the SHA-256 of a part; with --json objects\nExample: wdp forms examples/worked.txt",
};

// The command of a page, without options.
fn described<'a>(alloc: Global, page: Page) -> Command<'a>
    ensures { app_of result ≡ new_app page.name.now }
{
    Command::new(alloc, page.name)
        .about(page.about)
        .after_help(page.below)
}

// The words of `help` are spelled otherwise before they are parsed: it is here to be listed among the commands.
fn help_command<'a>(alloc: Global) -> Command<'a>
    ensures { app_of result ≡ new_app (codes "help") }
{
    Command::new(alloc, "help")
        .about("Print this message or the help of the given subcommand(s)")
        .override_usage("wdp help [COMMAND]")
}

fn plain_command<'a>(alloc: Global) -> Command<'a>
    ensures { app_of result
        ≡ on_top (λ s. record s { has_version = true; disable_help_subcommand = true })
        (new_app (codes "wdp")) }
{
    described(alloc, PROGRAM)
        .version(VERSION)
        .disable_help_subcommand(true)
}

// Adds a command to those before it.
fn add<'a>(list: &mut Vec<Command<'a>>, command: Command<'a>) -> Result<(), AllocError>
    ensures { OnOk result (list.new.items ≡ list.old.items ++ command.entry ∷ []) }
{
    list.push(command)?;
    Ok(())
}

// One that reads forms.
fn for_forms<'a>(alloc: Global, command: Command<'a>) -> Result<Command<'a>, AllocError>
    ensures { IfOk result (λ c. app_of c ≡ asked.for_forms (app_of command.entry)) }
{
    command
        .arg(last_wins(alloc))?
        .arg(output(alloc))?
        .arg(files(alloc))
}

// One that reads one text.
fn for_text<'a>(alloc: Global, command: Command<'a>) -> Result<Command<'a>, AllocError>
    ensures { IfOk result (λ c. app_of c ≡ asked.for_text (app_of command.entry)) }
{
    command.arg(output(alloc))?.arg(file(alloc))
}

// Adds the command of a page that reads forms, with an option of its own.
fn add_with<'a>(
    list: &mut Vec<Command<'a>>,
    alloc: Global,
    page: Page,
    option: Arg<'a>,
) -> Result<(), AllocError>
    requires local { option.global ≡ false }
    ensures { OnOk result (map app_of list.new.items
        ≡ map app_of list.old.items
        ++ asked.for_forms (with_rule (new_app page.name.now) (rule_of option.entry)) ∷ []) }
{
    let command = described(alloc, page).arg(option)?;
    add(list, for_forms(alloc, command)?)
}

// Adds `report`.
fn add_report<'a>(list: &mut Vec<Command<'a>>, alloc: Global) -> Result<(), AllocError>
    ensures { OnOk result (map app_of list.new.items
        ≡ map app_of list.old.items ++ asked.for_forms (with_rule (with_rule
        (new_app (codes "report")) asked.workers) asked.json) ∷ []) }
{
    let command = described(alloc, REPORT)
        .arg(workers(alloc))?
        .arg(json(alloc))?;
    add(list, for_forms(alloc, command)?)
}

// Adds `verify`.
fn add_verify<'a>(list: &mut Vec<Command<'a>>, alloc: Global) -> Result<(), AllocError>
    ensures { OnOk result (map app_of list.new.items
        ≡ map app_of list.old.items ++ asked.for_forms (with_rule (with_rule (with_rule
        (new_app (codes "verify")) asked.workers) asked.with_forms) asked.json) ∷ []) }
{
    let command = described(alloc, VERIFY)
        .arg(workers(alloc))?
        .arg(with_forms(alloc))?
        .arg(json(alloc))?;
    add(list, for_forms(alloc, command)?)
}

// Adds `explain`.
fn add_explain<'a>(list: &mut Vec<Command<'a>>, alloc: Global) -> Result<(), AllocError>
    ensures { OnOk result (map app_of list.new.items
        ≡ map app_of list.old.items ++ asked.for_forms (with_rule (with_rule (with_rule
        (new_app (codes "explain")) asked.bids) asked.explained_for) asked.json) ∷ []) }
{
    let command = described(alloc, EXPLAIN)
        .arg(bids(alloc))?
        .arg(explained_for(alloc))?
        .arg(json(alloc))?;
    add(list, for_forms(alloc, command)?)
}

// Adds all commands, in the order in which the help lists them.
fn add_all<'a>(list: &mut Vec<Command<'a>>, alloc: Global) -> Result<(), AllocError>
    requires { list.old.items ≡ [] }
    ensures { OnOk result (map app_of list.new.items ≡ asked.commands) }
{
    add(list, for_forms(alloc, described(alloc, TEXT))?)?;
    add_with(list, alloc, COMPILE, workers(alloc))?;
    add(list, for_text(alloc, described(alloc, CHECK))?)?;
    add_with(list, alloc, MAP, group(alloc))?;
    add_report(list, alloc)?;
    add_verify(list, alloc)?;
    add_explain(list, alloc)?;
    add_with(list, alloc, FORMS, json(alloc))?;
    add(list, help_command(alloc))?;
    Ok(())
}

/// The program's command, with all commands below it.
pub(crate) fn parser<'a>(alloc: Global) -> Result<Command<'a>, AllocError>
    ensures { IfOk result (λ command. app_of command ≡ asked.wdp) }
{
    let mut list = Vec::new(alloc);
    add_all(&mut list, alloc)?;
    plain_command(alloc).subcommands(list)
}
