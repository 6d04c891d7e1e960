//! The line that says why a file isn't read, or not written.

ghost use Rattle.std.specs.Prelude.{◌≡◌};
ghost use Rattle.auction_input.specs.FileWords.{fault_words};
ghost use Rattle.auction_input.specs.Line.{Puts};
ghost use Rattle.answers.specs.FileLines.{file_line, file_text, name_at, other_file, refusal_line, unread_line, words_with};
ghost use Rattle.byte_sinks.specs.Adds.{Adds};
ghost use Rattle.answers.specs.Asked.{command_line_of};

use crate::command_line::Command;
use crate::messages::print_refusal;
use auction_input::{FileFault, FilePlace, FileRefusal, Refusal, Unread};
use byte_sinks::{Sink, Writer};
use input_faults::add_file_name;

// Adds the words on a file, without another one.
fn add_words<S: Sink>(writer: &mut Writer<'_, S>, fault: FileFault)
    ensures { Adds S.state writer.old writer.new (fault_words fault) }
{
    let [first, second, third] = fault.words();
    let pieces: [&[u8]; 3] = [first.as_bytes(), second.as_bytes(), third.as_bytes()];
    writer.add_pieces(&pieces);
}

// Adds the words on a file, and after them the other one, where it is read already.
fn add_words_with<S: Sink>(writer: &mut Writer<'_, S>, fault: FileFault, other: &[u8])
    ensures { Adds S.state writer.old writer.new (words_with fault other.now) }
{
    add_words(writer, fault);
    match fault {
        FileFault::ReadAlready(_) => add_file_name(writer, other),
        _ => writer.add(b""),
    }
}

// Adds what is reported of a file.
fn add_file<S: Sink>(writer: &mut Writer<'_, S>, name: &[u8], fault: FileFault, other: &[u8])
    ensures { Adds S.state writer.old writer.new (file_text name.now fault other.now) }
{
    match fault {
        FileFault::OutOfMemory => writer.add(b"out of memory"),
        fault => {
            add_file_name(writer, name);
            writer.add(b": ");
            add_words_with(writer, fault, other);
        }
    }
}

/// Puts the line on a file, which may name another one. It takes no memory.
pub fn print_file_line<F: Sink>(name: &[u8], fault: FileFault, other: &[u8], faults: &mut F)
    ensures { Puts (file_line name.now fault other.now) (F.state faults.old) (F.state faults.new) }
{
    let mut writer = Writer::new(faults);
    writer.add(b"wdp: ");
    add_file(&mut writer, name, fault, other);
    writer.add(b"\n");
    let _ = writer.flush();
}

// The name of the file at a place among those that are read.
fn read_name(command: &Command, place: usize) -> &[u8]
    ensures { result.now ≡ name_at (command_line_of command.now) (FilePlace.Read place) }
{
    match command.files.get(place) {
        Some(name) => name.as_bytes(),
        None => b"".as_slice(),
    }
}

fn name_of(command: &Command, file: FilePlace) -> &[u8]
    ensures { result.now ≡ name_at (command_line_of command.now) file }
{
    match (file, &command.output) {
        (FilePlace::Read(place), _) => read_name(command, place),
        (FilePlace::Written, Some(name)) => name.as_bytes(),
        (FilePlace::Written, None) => b"".as_slice(),
    }
}

fn other_file(command: &Command, fault: FileFault) -> &[u8]
    ensures { result.now ≡ other_file (command_line_of command.now) fault }
{
    match fault {
        FileFault::ReadAlready(place) => read_name(command, place),
        _ => b"".as_slice(),
    }
}

/// Puts the line on a file of a command line. It takes no memory.
pub fn print_file_refusal<F: Sink>(command: &Command, refusal: FileRefusal, faults: &mut F)
    ensures { Puts (refusal_line (command_line_of command.now) refusal) (F.state faults.old) (F.state faults.new) }
{
    let name = name_of(command, refusal.file);
    let other = other_file(command, refusal.fault);
    print_file_line(name, refusal.fault, other, faults);
}

/// Puts the line on what a command line reads. It takes no memory.
pub fn print_unread<F: Sink>(command: &Command, unread: Unread, faults: &mut F)
    ensures { Puts (unread_line (command_line_of command.now) unread) (F.state faults.old) (F.state faults.new) }
{
    match unread {
        Unread::Input(fault) => print_refusal(&[], &Refusal::Input(fault), faults),
        Unread::File(refusal) => print_file_refusal(command, refusal, faults),
    }
}
