//! From the sealed bids of an auction to winners that are proved.
#![tactic(auto)]

mod unsolved;
mod words;

use crate::unsolved::print_unsolved;
use crate::words::{Asked, is_memory, is_version, words_of};
use answers::{
    VERSION, print_file_line, print_file_refusal, print_refusal, print_unread, write_pieces,
};
use auction_input::{
    FilePlace, FileRefusal, Input, NamedText, Output, Refusal, Source, Unread, look_at_files,
    read_inputs,
};
use byte_sinks::{Sink, StdSink};
use clap::Error;
use solving::solve;
use std::alloc::{AllocError, Global};
use std::process::ExitCode;
use std::sync::Wait;
use std::thread::Threads;
use std::{env, io};
use system_files::{Disk, Ending, Out, StandardInput, print_lack, touch};

const HINT: &[u8] =
    b"wdp-solve: reads standard input; a line with Ctrl-D alone ends it, and wdp-solve FILE reads a file\n";

/// What the words name, read.
#[derive(Drop)]
struct Given {
    input: Input,
    solutions: Option<NamedText>,
}

/// Looks at the files that the words name, and opens the one that is to be written.
fn prepare(
    alloc: Global,
    disk: &mut Disk<'_>,
    asked: &Asked,
    out: &mut Out<'_>,
) -> Result<(), FileRefusal> {
    let names = asked.named.files.as_slice();
    let Some(output) = &asked.named.output else {
        return look_at_files(alloc, disk, names, None);
    };
    look_at_files(alloc, disk, names, Some(output.as_str()))?;
    match out.open(output.as_str()) {
        Ok(()) => Ok(()),
        Err(fault) => Err(FileRefusal {
            file: FilePlace::Written,
            fault,
        }),
    }
}

/// The names of the file of solutions.
fn names_of(alloc: Global, name: &str) -> Result<Vec<String>, AllocError> {
    let mut names = Vec::new(alloc);
    names.push(String::from_str(alloc, name)?)?;
    Ok(names)
}

/// Reads the solutions to begin with.
fn read_solutions(
    alloc: Global,
    disk: &mut Disk<'_>,
    name: &str,
    standard: &mut Source<StandardInput<'_>>,
) -> Result<NamedText, Unread> {
    let names = names_of(alloc, name)?;
    let read = read_inputs(alloc, disk, names.as_slice(), standard)?;
    let bytes = Vec::from_slice(alloc, read.first_text())?;
    Ok(NamedText::new(Vec::from_slice(alloc, name.as_bytes())?, bytes))
}

/// Reads what the words name. The line on a file that isn't read is printed.
fn read_given<F: Sink>(
    alloc: Global,
    disk: &mut Disk<'_>,
    asked: &Asked,
    standard: &mut Source<StandardInput<'_>>,
    faults: &mut F,
) -> Option<Given> {
    let input = match read_inputs(alloc, disk, asked.named.files.as_slice(), standard) {
        Ok(input) => input.with_last_wins(asked.named.last_wins),
        Err(unread) => {
            print_unread(&asked.named, unread, faults);
            return None;
        }
    };
    let Some(name) = &asked.solutions else {
        return Some(Given {
            input,
            solutions: None,
        });
    };
    match read_solutions(alloc, disk, name.as_str(), standard) {
        Ok(solutions) => Some(Given {
            input,
            solutions: Some(solutions),
        }),
        Err(Unread::File(refusal)) => {
            print_file_line(name.as_bytes(), refusal.fault, b"", faults);
            None
        }
        Err(unread) => {
            print_unread(&asked.named, unread, faults);
            None
        }
    }
}

/// Solves what the words name, and gives the exit status.
fn solve_asked<R: Threads + Wait + Sync + AllocGlobal, F: Sink>(
    rt: &R,
    system: &HostRuntime,
    asked: &Asked,
    out: &mut Out<'_>,
    faults: &mut F,
) -> u8 {
    let mut disk = Disk::new(system);
    if let Err(refusal) = prepare(rt.alloc(), &mut disk, asked, out) {
        print_file_refusal(&asked.named, refusal, faults);
        return 1;
    }
    let mut standard = Source::new(StandardInput::new(system, HINT));
    let Some(given) = read_given(rt.alloc(), &mut disk, asked, &mut standard, faults) else {
        return 1;
    };
    let options = asked.options;
    match solve(rt, &given.input, given.solutions.as_ref(), options, out) {
        Ok(()) => 0,
        Err(why) => print_unsolved(given.input.texts(), &why, options.most_steps, faults),
    }
}

/// Prints help, the version, or why the words ask for nothing, and gives the exit status.
fn print_words<F: Sink>(alloc: Global, error: &Error, out: &mut Out<'_>, faults: &mut F) -> u8 {
    if is_version(error) {
        return show(b"wdp-solve ", VERSION.as_bytes(), out, faults);
    }
    if is_memory(error) {
        print_refusal(&[], &Refusal::OutOfMemory, faults);
        return 1;
    }
    let Ok(text) = format!(in alloc; "{error}") else {
        print_refusal(&[], &Refusal::OutOfMemory, faults);
        return 1;
    };
    if error.use_stderr() {
        let _ = write_pieces(&[text.as_bytes()], faults);
        return 2;
    }
    show(text.as_bytes(), b"", out, faults)
}

/// Writes two pieces and the end of a line.
fn show<F: Sink>(first: &[u8], second: &[u8], out: &mut Out<'_>, faults: &mut F) -> u8 {
    let end: &[u8] = if second.is_empty() { b"" } else { b"\n" };
    match write_pieces(&[first, second, end], out) {
        Ok(()) => 0,
        Err(fault) => {
            print_refusal(&[], &Refusal::Write(fault), faults);
            1
        }
    }
}

/// Ends the output: a whole file takes its place.
fn ended<F: Sink>(out: &mut Out<'_>, is_whole: bool, status: u8, faults: &mut F) -> u8 {
    match out.end(is_whole) {
        Ok(()) => status,
        Err(unkept) => {
            print_file_line(unkept.name.as_bytes(), unkept.fault, b"", faults);
            1
        }
    }
}

/// Tells why there are no words, and gives the exit status.
fn print_wordless<F: Sink>(error: &io::Error, faults: &mut F) -> u8 {
    if error.kind() == io::ErrorKind::OutOfMemory {
        print_refusal(&[], &Refusal::OutOfMemory, faults);
        return 1;
    }
    let _ = write_pieces(&[b"wdp: a word is no text\n"], faults);
    2
}

// Does what the words ask for, and gives the exit status. A call of its own, so that `main` has next to no stack before that
// is looked at.
#[inline(never)]
fn work<R: Threads + Wait + Sync + AllocGlobal>(rt: &R, system: &HostRuntime) -> ExitCode {
    let mut out = Out::new(system);
    let mut faults = StdSink::new(system.stderr());
    let words = match env::args(system) {
        Ok(words) => words,
        Err(error) => return ExitCode::from(print_wordless(&error, &mut faults)),
    };
    let status = match words_of(rt.alloc(), words) {
        Ok(asked) => {
            let status = solve_asked(rt, system, &asked, &mut out, &mut faults);
            // Solutions that aren't proved are a whole output, too.
            let is_whole = status == 0 || (status == 3 && asked.options.unproved);
            return ExitCode::from(ended(&mut out, is_whole, status, &mut faults));
        }
        Err(error) => print_words(rt.alloc(), &error, &mut out, &mut faults),
    };
    ExitCode::from(ended(&mut out, status == 0, status, &mut faults))
}

fn main(rt: HostRuntime) -> ExitCode {
    if let Err(lack) = touch(&rt) {
        print_lack(&rt, lack);
        return ExitCode::from(1);
    }
    work(&rt, &rt)
}
