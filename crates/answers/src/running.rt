//! The program on its words, its input and two sinks.

ghost use Rattle.std.specs.Prelude.{◌≡◌, ◌≢◌, ◌⊎◌, ◌<◌, ◌≤◌, Bool, IfErr, IfOk, IfSome, IsSome, List, OnErr, OnOk, Ok, codes, flat_map, length, ℕ};
ghost use Rattle.byte_sinks.specs.Sinks.{GoesWhole};
ghost use Rattle.std.specs.IoError.{error_kind};
ghost use Rattle.std.specs.declared.io.ErrorKind.TheVariants as io_kind;
ghost use Rattle.clap.specs.Words.{kind_of};
ghost use Rattle.auction_input.specs.Line.{Puts, line};
ghost use Rattle.auction_input.specs.declared.refusal.Refusal.TheVariants as refusal;
ghost use Rattle.answers.specs.Asked.{asked_of, by_fault, command_line_of, for_answer, for_nothing};
ghost use Rattle.answers.specs.Answer.{answer};
ghost use Rattle.answers.specs.Exact.{Ends, Writes};
ghost use Rattle.answers.specs.Outside.{outside_of};
ghost use Rattle.auction_input.specs.Requests.{IsRequestWithinLimits};
ghost use Rattle.answers.specs.Runs.{HasLooked, IsRun, Reads, begun};
ghost use Rattle.auction_input.specs.FileCalls.{AreBegun, AreAsked, calls_to_open};
ghost use Rattle.auction_input.specs.FileTexts.{IsUnread};
ghost use Rattle.answers.specs.RunCalls.{AreCalled, looks_named};
ghost use Rattle.answers.specs.inside.Runs.{HasExplainedInput, HasShown, IsReportedSo, IsReported, IsLeftUnanswered, IsUnprepared, IsUnreported};

use crate::command_line::{Command, command_of};
use crate::commands::{answer, explain_input};
use crate::file_lines::{print_file_refusal, print_unread};
use crate::messages::print_refusal;
use crate::parser::VERSION;
use crate::pieces::write_pieces;
use auction_input::{
    ExplainOptions, FilePlace, FileRefusal, Files, Input, Output, Refusal, Request, Source, Unread,
    look_at_files, read_inputs,
};
use byte_sinks::Sink;
use clap::Error;
use clap::error::ErrorKind;
use std::alloc::Global;
use std::env::Args;
use std::io;
use std::io::Read;
use std::sync::Wait;
use std::thread::Threads;

/// The whole program on its words as std gives them, its own name first: the result is its exit status. It is 0 where the
/// output is complete, 1 where the run is refused, or `explain` prints faults, and 2 where the words are.
pub fn run<R: Threads + Wait + Sync + AllocGlobal, D: Files, I: Read, S: Output, F: Sink>(
    rt: &R,
    words: io::Result<Args>,
    files: &mut D,
    input: &mut Source<I>,
    out: &mut S,
    faults: &mut F,
) -> u8
    ensures status { result ≤ 2 }
    ensures outside { IsRun (D.shelf files.old) (asked_of words) result
        (outside_of (I.remaining input.old.reader) input.old.failures (S.sendable out.old) (S.state out.old)
        (F.state faults.old))
        (outside_of (I.remaining input.new.reader) input.new.failures (S.sendable out.new) (S.state out.new)
        (F.state faults.new)) }
    ensures shelf_kept { D.shelf files.new ≡ D.shelf files.old }
    ensures called { AreCalled (asked_of words) result (D.calls files.old) (D.calls files.new) }
    // Where std gives no words, memory was short, or one of them isn't UTF-8.
    ensures wordless { IfErr words (λ e. (error_kind e ≡ io_kind.OutOfMemory → result ≡ 1)
        × (error_kind e ≢ io_kind.OutOfMemory → (result ≡ 2)
        × Puts (codes "wdp: a word is no text\n") (F.state faults.old) (F.state faults.new))) }
{
    let words = match words {
        Ok(words) => words,
        Err(error) => return without_words(&error, faults),
    };
    match command_of(rt.alloc(), words) {
        Ok(command) => answer_command(rt, &command, files, input, out, faults),
        Err(error) => print_help_or_fault(rt.alloc(), &error, out, faults),
    }
}

// Tells why there are no words.
fn without_words<F: Sink>(error: &io::Error, faults: &mut F) -> u8
    ensures memory { error_kind error.now ≡ io_kind.OutOfMemory → result ≡ 1 }
    ensures other { error_kind error.now ≢ io_kind.OutOfMemory → result ≡ 2 }
    ensures some { 1 ≤ result }
    ensures status { result ≤ 2 }
    ensures refused { result ≡ 1 → Puts (line refusal.OutOfMemory) (F.state faults.old) (F.state faults.new) }
    ensures reported { result ≡ 2 → Puts (codes "wdp: a word is no text\n") (F.state faults.old) (F.state faults.new) }
{
    if error.kind() == io::ErrorKind::OutOfMemory {
        print_refusal(&[], &Refusal::OutOfMemory, faults);
        return 1;
    }
    put_fault(b"wdp: a word is no text\n", faults)
}

// Puts what is reported of words that ask for nothing.
fn put_fault<F: Sink>(text: &[u8], faults: &mut F) -> u8
    ensures status { result ≡ 2 }
    ensures reported { Puts text.now (F.state faults.old) (F.state faults.new) }
{
    let pieces: [&[u8]; 1] = [text];
    let _ = write_pieces(&pieces, faults);
    2
}

// Looks at the files that a command line names, and opens the one that is to be written.
fn prepare<D: Files, S: Output>(
    alloc: Global,
    files: &mut D,
    command: &Command,
    out: &mut S,
) -> Result<(), FileRefusal>
    ensures looked { OnOk result (HasLooked (D.shelf files.old) (command_line_of command.now)) }
    ensures begun { OnOk result (S.state out.new
        ≡ begun (command_line_of command.now).output (S.state out.old)) }
    ensures refused { IfErr result (IsUnprepared (D.shelf files.old) (S.sendable out.old)
        (command_line_of command.now)) }
    ensures kept { OnErr result (S.state out.new ≡ S.state out.old) }
    ensures shelf_kept { D.shelf files.new ≡ D.shelf files.old }
    ensures called { OnOk result ((with_rights : Bool) × AreAsked (looks_named (command_line_of command.now).files
        (command_line_of command.now).output with_rights) (D.calls files.old) (D.calls files.new)) }
    ensures looks_begun { OnErr result ((with_rights : Bool) × AreBegun (looks_named (command_line_of command.now).files
        (command_line_of command.now).output with_rights) (D.calls files.old) (D.calls files.new)) }
{
    let names = command.files.as_slice();
    let Some(output) = &command.output else {
        if names.is_empty() {
            return Ok(());
        }
        return look_at_files(alloc, files, names, None);
    };
    look_at_files(alloc, files, names, Some(output.as_str()))?;
    match out.open(output.as_str()) {
        Ok(()) => Ok(()),
        Err(fault) => Err(FileRefusal {
            file: FilePlace::Written,
            fault,
        }),
    }
}

// Reads the input of a command line.
fn read_input<D: Files, I: Read>(
    alloc: Global,
    command: &Command,
    files: &mut D,
    input: &mut Source<I>,
) -> Result<Input, Unread>
    ensures read { IfOk result (Reads (D.shelf files.old) (command_line_of command.now)
        (I.remaining input.old.reader) (I.remaining input.new.reader)) }
    ensures unfailed { OnOk result (input.new.failures ≡ input.old.failures) }
    ensures unread { IfErr result (λ f. IsUnread (D.shelf files.old) (command_line_of command.now).files f
        (I.remaining input.old.reader) (I.remaining input.new.reader) input.old.failures
        input.new.failures) }
    ensures shelf_kept { D.shelf files.new ≡ D.shelf files.old }
    ensures called { OnOk result (AreAsked (calls_to_open (command_line_of command.now).files)
        (D.calls files.old) (D.calls files.new)) }
    ensures begun { OnErr result (AreBegun (calls_to_open (command_line_of command.now).files)
        (D.calls files.old) (D.calls files.new)) }
{
    match read_inputs(alloc, files, command.files.as_slice(), input) {
        Ok(given) => Ok(given.with_last_wins(command.last_wins)),
        Err(unread) => Err(unread),
    }
}

// Prepares the files of a command line, reads its input and answers it, or reports why not.
fn answer_command<R: Threads + Wait + Sync + AllocGlobal, D: Files, I: Read, S: Output, F: Sink>(
    rt: &R,
    command: &Command,
    files: &mut D,
    input: &mut Source<I>,
    out: &mut S,
    faults: &mut F,
) -> u8
    requires { IsRequestWithinLimits command.now.request }
    ensures status { result ≤ 1 }
    ensures outside { IsRun (D.shelf files.old)
        (for_answer (command_line_of command.now)) result
        (outside_of (I.remaining input.old.reader) input.old.failures (S.sendable out.old) (S.state out.old)
        (F.state faults.old))
        (outside_of (I.remaining input.new.reader) input.new.failures (S.sendable out.new) (S.state out.new)
        (F.state faults.new)) }
    ensures shelf_kept { D.shelf files.new ≡ D.shelf files.old }
    ensures called { AreCalled (for_answer (command_line_of command.now)) result (D.calls files.old) (D.calls files.new) }
{
    if let Err(refusal) = prepare(rt.alloc(), files, command, out) {
        print_file_refusal(command, refusal, faults);
        return 1;
    }
    match read_input(rt.alloc(), command, files, input) {
        Ok(given) => answer_input(rt, command.request, &given, out, faults),
        Err(unread) => {
            print_unread(command, unread, faults);
            1
        }
    }
}

// Answers a request of an input, or reports why not. All but `explain` end with 1 only after a refusal, which is reported here.
fn answer_input<R: Threads + Wait + Sync + AllocGlobal, S: Sink, F: Sink>(
    rt: &R,
    request: Request,
    input: &Input,
    out: &mut S,
    faults: &mut F,
) -> u8
    requires { IsRequestWithinLimits request }
    ensures status { result ≤ 1 }
    ensures written { result ≡ 0 → Writes (answer request input.now) (S.state out.old) (S.state out.new) }
    ensures quiet { result ≡ 0 → F.state faults.new ≡ F.state faults.old }
    ensures refused { result ≡ 1 → IsReportedSo (IsLeftUnanswered request input.now
        (S.state out.old) (S.state out.new)) (F.state faults.old) (F.state faults.new)
        ⊎ (HasExplainedInput request input.now
        (S.state out.old) (S.state out.new)
        × (F.state faults.new ≡ F.state faults.old)) }
{
    match request {
        Request::Explain(options) => explain_request(rt, options, input, out, faults),
        request => match answer(rt, request, input, out) {
            Ok(()) => 0,
            Err(refusal) => {
                print_refusal(input.texts(), &refusal, faults);
                1
            }
        },
    }
}

// Explains an input, or reports why not. It is apart from `answer_input`, since it also ends with 1 after the faults that it printed,
// with nothing to report.
fn explain_request<R: Threads + Wait + Sync + AllocGlobal, S: Sink, F: Sink>(
    rt: &R,
    options: ExplainOptions,
    input: &Input,
    out: &mut S,
    faults: &mut F,
) -> u8
    ensures status { result ≤ 1 }
    ensures written { result ≡ 0 → Writes (answer (Request.Explain options) input.now)
        (S.state out.old) (S.state out.new) }
    ensures quiet { result ≡ 0 → F.state faults.new ≡ F.state faults.old }
    ensures refused { result ≡ 1 → IsReportedSo (IsLeftUnanswered (Request.Explain options) input.now
        (S.state out.old) (S.state out.new)) (F.state faults.old) (F.state faults.new)
        ⊎ (HasExplainedInput (Request.Explain options) input.now
        (S.state out.old) (S.state out.new)
        × (F.state faults.new ≡ F.state faults.old)) }
{
    match explain_input(rt, options, input, out) {
        Ok(false) => 0,
        Ok(true) => 1,
        Err(refusal) => {
            print_refusal(input.texts(), &refusal, faults);
            1
        }
    }
}

// The message of an error of the words, unless memory is short: then its text may be an empty one.
fn text_of(alloc: Global, error: &Error) -> Option<String>
    ensures some { IfSome result (λ text. 0 < length text.bytes.items) }
    ensures other { IsSome result → kind_of error.now ≢ ErrorKind.OutOfMemory }
{
    if error.kind() == ErrorKind::OutOfMemory {
        return None;
    }
    let text = format!(in alloc; "{error}").ok()?;
    if text.is_empty() { None } else { Some(text) }
}

// Help and the version go to the output; a fault of the words to the faults.
fn print_help_or_fault<S: Sink, F: Sink>(
    alloc: Global,
    error: &Error,
    out: &mut S,
    faults: &mut F,
) -> u8
    ensures status { result ≤ 2 }
    ensures shown { result ≡ 0 → HasShown (by_fault (kind_of error.now)) (S.state out.old) (S.state out.new) }
    ensures quiet { result ≡ 0 → F.state faults.new ≡ F.state faults.old }
    ensures refused { result ≡ 1 → IsReported (IsUnreported (by_fault (kind_of error.now))
        (S.state out.old) (S.state out.new))
        (F.state faults.old) (F.state faults.new) }
    ensures unasked { result ≡ 2 → (by_fault (kind_of error.now) ≡ for_nothing)
        × (kind_of error.now ≢ ErrorKind.OutOfMemory) × (S.state out.new ≡ S.state out.old) }
    ensures reported { result ≡ 2 → ((text : List ℕ) × (0 < length text) × Puts text
        (F.state faults.old) (F.state faults.new)) }
{
    if error.kind() == ErrorKind::DisplayVersion {
        return show(&[b"wdp ", VERSION.as_bytes(), b"\n"], out, faults);
    }
    match text_of(alloc, error) {
        Some(text) if error.use_stderr() => put_fault(text.as_bytes(), faults),
        Some(text) => show(&[text.as_bytes()], out, faults),
        None => {
            print_refusal(&[], &Refusal::OutOfMemory, faults);
            1
        }
    }
}

// Writes help, or the version.
fn show<S: Sink, F: Sink>(pieces: &[&[u8]], out: &mut S, faults: &mut F) -> u8
    ensures status { result ≤ 1 }
    ensures shown { result ≡ 0 → GoesWhole (S.state out.old) (S.state out.new)
        (flat_map (λ p. p.now) pieces.now) }
    ensures quiet { result ≡ 0 → F.state faults.new ≡ F.state faults.old }
    ensures refused { result ≡ 1 → IsReported (Ends (Ok (flat_map (λ p. p.now) pieces.now))
        (S.state out.old) (S.state out.new))
        (F.state faults.old) (F.state faults.new) }
{
    match write_pieces(pieces, out) {
        Ok(()) => 0,
        Err(fault) => {
            print_refusal(&[], &Refusal::Write(fault), faults);
            1
        }
    }
}
