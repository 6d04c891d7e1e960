//! Reading the input.

ghost use Rattle.std.specs.Prelude.{◌≡◌, ◌≢◌, ◌≤◌, ◌<◌, ◌∷◌, [], ℕ, IfErr, IfOk, List, None, OnErr, OnOk, Option, false, length};
ghost use Rattle.auction_input.specs.FileCalls.{AreBegun, AreAsked, opened, call_to_open, calls_to_open};
ghost use Rattle.auction_input.specs.FileTexts.{AreRead, AreSound, IsContent, IsInputRead, IsTextOf, IsTextUnread, IsUnread, IsUnreadOf, bytes_in, fault_among, is_standard_input, named_files, refused_at};
ghost use Rattle.auction_input.specs.inside.FileTexts.{file_unread};
ghost use Rattle.auction_input.specs.ReadInput.{IsUntaken, IsWhole};

use crate::files::{FileFault, FilePlace, FileRefusal, Files};
use crate::input_texts::{Input, NamedText};
use crate::source::Source;
use std::alloc::{AllocError, Global};
use std::io::Read;

/// The most bytes of an input.
pub const INPUT_LIMIT: usize = 128 * 1024 * 1024;

const BLOCK_LEN: usize = 65_536;

/// Why an input isn't taken.
#[derive(Clone, Copy, Debug, PartialEq, Eq)]
pub enum InputFault {
    /// A read failed, for any cause.
    ReadFailed,
    /// There are more bytes than the limit.
    TooLarge,
    OutOfMemory,
}

/// Why what a command reads isn't read.
#[derive(Clone, Copy, Debug, PartialEq, Eq)]
pub enum Unread {
    /// Standard input isn't, or all texts together are too large, or memory was short.
    Input(InputFault),
    File(FileRefusal),
}

impl From<AllocError> for InputFault {
    ghost use Rattle.std.specs.Prelude.{◌≡◌};
    ghost use Rattle.auction_input.specs.declared.input.InputFault.TheVariants.{OutOfMemory};

    ghost from_gives = { λ _ e. e ≡ OutOfMemory };

    fn from(_: AllocError) -> InputFault {
        InputFault::OutOfMemory
    }
}

impl From<InputFault> for Unread {
    ghost use Rattle.std.specs.Prelude.{◌≡◌};
    ghost use Rattle.auction_input.specs.declared.input.Unread.TheVariants.{Input};

    ghost from_gives = { λ fault e. e ≡ Input fault };

    fn from(fault: InputFault) -> Unread {
        Unread::Input(fault)
    }
}

impl From<AllocError> for Unread {
    ghost use Rattle.std.specs.Prelude.{◌≡◌};
    ghost use Rattle.auction_input.specs.declared.input.InputFault.TheVariants.{OutOfMemory};
    ghost use Rattle.auction_input.specs.declared.input.Unread.TheVariants.{Input};

    ghost from_gives = { λ _ e. e ≡ Input OutOfMemory };

    fn from(_: AllocError) -> Unread {
        Unread::Input(InputFault::OutOfMemory)
    }
}

// Reads all bytes of a source, and at most one byte more than so many.
fn read_bytes<I: Read>(
    alloc: Global,
    input: &mut Source<I>,
    limit: usize,
) -> Result<Vec<u8>, InputFault>
    requires { limit ≤ INPUT_LIMIT }
    ensures whole { IfOk result (λ text. IsWhole limit (I.remaining input.old.reader)
        (I.remaining input.new.reader) text.items) }
    ensures unfailed { OnOk result (input.new.failures ≡ input.old.failures) }
    ensures untaken { IfErr result (λ f. IsUntaken limit f (I.remaining input.old.reader)
        (I.remaining input.new.reader) input.old.failures input.new.failures) }
{
    let mut text: Vec<u8> = Vec::new(alloc);
    let mut block = [0u8; BLOCK_LEN];
    while text.len() <= limit {
        let room = limit + 1 - text.len();
        let most = room.min(BLOCK_LEN);
        let Ok(count) = input.read(&mut block[..most]) else {
            return Err(InputFault::ReadFailed);
        };
        if count == 0 {
            return Ok(text);
        }
        text.extend_from_slice(&block[..count])?;
    }
    Err(InputFault::TooLarge)
}

// A file at that place isn't read.
fn refused(place: usize, fault: FileFault) -> Unread
    ensures { result ≡ refused_at place fault }
{
    Unread::File(FileRefusal {
        file: FilePlace::Read(place),
        fault,
    })
}

// Why a file at that place isn't read, whose bytes aren't taken.
fn file_unread(place: usize, fault: InputFault) -> Unread
    ensures { result ≡ file_unread place fault }
{
    match fault {
        InputFault::ReadFailed => refused(place, FileFault::ReadFailed),
        InputFault::TooLarge | InputFault::OutOfMemory => Unread::Input(fault),
    }
}

// Reads the file of a name, which is at that place, with at most so many bytes, and counts a read that fails.
fn read_file<D: Files>(
    alloc: Global,
    files: &mut D,
    name: &str,
    place: usize,
    failures: &mut u64,
    limit: usize,
) -> Result<Vec<u8>, Unread>
    requires limit { limit ≤ INPUT_LIMIT }
    requires file { is_standard_input name.now ≡ false }
    ensures within { IfOk result (λ text. length text.items ≤ limit) }
    ensures content { IfOk result (λ text. IsContent ((D.shelf files.old).content name.now) text.items) }
    ensures unfailed { OnOk result (failures.new ≡ failures.old) }
    ensures unread { IfErr result (λ f. (count : ℕ) (left : Option (List ℕ)) → IsTextUnread
        (D.shelf files.old) name.now place count limit left left failures.old failures.new f) }
    ensures shelf_kept { D.shelf files.new ≡ D.shelf files.old }
    ensures called { AreAsked (opened name.now ∷ []) (D.calls files.old) (D.calls files.new) }
{
    let file = match files.open(name) {
        Ok(file) => file,
        Err(fault) => return Err(refused(place, fault)),
    };
    let mut source = Source {
        reader: file,
        failures: *failures,
    };
    let read = read_bytes(alloc, &mut source, limit);
    *failures = source.failures;
    match read {
        Ok(bytes) => Ok(bytes),
        Err(fault) => Err(file_unread(place, fault)),
    }
}

/// Whether a name means standard input.
pub fn is_standard_input(name: &str) -> bool
    ensures { result ≡ is_standard_input name.now }
{
    name == "-" || name == "/dev/stdin"
}

// Reads what a name, which is at that place, stands for, with at most so many bytes.
fn read_named<D: Files, I: Read>(
    alloc: Global,
    files: &mut D,
    name: &str,
    place: usize,
    input: &mut Source<I>,
    limit: usize,
) -> Result<Vec<u8>, Unread>
    requires { limit ≤ INPUT_LIMIT }
    ensures within { IfOk result (λ text. length text.items ≤ limit) }
    ensures text { IfOk result (λ text. IsTextOf (D.shelf files.old).content name.now
        (I.remaining input.old.reader) (I.remaining input.new.reader) text.items) }
    ensures unfailed { OnOk result (input.new.failures ≡ input.old.failures) }
    ensures unread { IfErr result (λ f. (count : ℕ) → IsTextUnread (D.shelf files.old) name.now place
        count limit (I.remaining input.old.reader) (I.remaining input.new.reader) input.old.failures
        input.new.failures f) }
    ensures shelf_kept { D.shelf files.new ≡ D.shelf files.old }
    ensures called { AreAsked (call_to_open name.now) (D.calls files.old) (D.calls files.new) }
{
    if !is_standard_input(name) {
        return read_file(alloc, files, name, place, &mut input.failures, limit);
    }
    Ok(read_bytes(alloc, input, limit)?)
}

// The fault of the text at a place among so many: with others it may not be empty, and where one follows its last line has an end.
fn fault_among(text: &[u8], place: usize, count: usize) -> Option<FileFault>
    requires { place < count }
    ensures { result ≡ fault_among text.now place count }
{
    if count == 1 {
        return None;
    }
    if text.is_empty() {
        return Some(FileFault::Empty);
    }
    if place + 1 < count && text[text.len() - 1] != b'\n' {
        return Some(FileFault::NoLineEnd);
    }
    None
}

// Reads the text of a name, which is at that place among so many, with at most so many bytes.
fn read_text<D: Files, I: Read>(
    alloc: Global,
    files: &mut D,
    name: &str,
    place: usize,
    count: usize,
    input: &mut Source<I>,
    limit: usize,
) -> Result<NamedText, Unread>
    requires place { place < count }
    requires limit { limit ≤ INPUT_LIMIT }
    ensures within { IfOk result (λ text. length text.bytes ≤ limit) }
    ensures name { IfOk result (λ text. text.name ≡ name.now) }
    ensures text { IfOk result (λ text. IsTextOf (D.shelf files.old).content text.name
        (I.remaining input.old.reader) (I.remaining input.new.reader) text.bytes) }
    ensures sound { IfOk result (λ text. fault_among text.bytes place count ≡ None) }
    ensures unfailed { OnOk result (input.new.failures ≡ input.old.failures) }
    ensures unread { IfErr result (λ f. IsTextUnread (D.shelf files.old) name.now place count limit
        (I.remaining input.old.reader) (I.remaining input.new.reader) input.old.failures
        input.new.failures f) }
    ensures shelf_kept { D.shelf files.new ≡ D.shelf files.old }
    ensures called { AreAsked (call_to_open name.now) (D.calls files.old) (D.calls files.new) }
{
    let bytes = read_named(alloc, files, name, place, input, limit)?;
    if let Some(fault) = fault_among(bytes.as_slice(), place, count) {
        return Err(refused(place, fault));
    }
    let name = Vec::from_slice(alloc, name.as_bytes())?;
    Ok(NamedText::new(name, bytes))
}

// Reads the texts of names, in order.
fn read_each<D: Files, I: Read>(
    alloc: Global,
    files: &mut D,
    names: &[String],
    input: &mut Source<I>,
) -> Result<Vec<NamedText>, Unread>
    ensures read { IfOk result (λ texts. AreRead (D.shelf files.old).content (named_files names.now)
        (I.remaining input.old.reader) (I.remaining input.new.reader) texts.items) }
    ensures sound { IfOk result (λ texts. AreSound 0 (length names.now) texts.items) }
    ensures within { IfOk result (λ texts. bytes_in texts.items ≤ INPUT_LIMIT) }
    ensures unfailed { OnOk result (input.new.failures ≡ input.old.failures) }
    ensures unread { IfErr result (λ f. IsUnreadOf (D.shelf files.old) (named_files names.now) f
        (I.remaining input.old.reader) (I.remaining input.new.reader) input.old.failures
        input.new.failures) }
    ensures shelf_kept { D.shelf files.new ≡ D.shelf files.old }
    ensures called { OnOk result (AreAsked (calls_to_open (named_files names.now))
        (D.calls files.old) (D.calls files.new)) }
    ensures begun { OnErr result (AreBegun (calls_to_open (named_files names.now))
        (D.calls files.old) (D.calls files.new)) }
{
    let mut texts = Vec::new(alloc);
    let mut room = INPUT_LIMIT;
    let mut place = 0;
    for name in names {
        let text = read_text(alloc, files, name.as_str(), place, names.len(), input, room)?;
        place += 1;
        room -= text.bytes().len();
        if texts.push(text).is_err() {
            return Err(Unread::Input(InputFault::OutOfMemory));
        }
    }
    Ok(texts)
}

/// Reads the texts of names, in order; without names standard input, as one text by itself. A read of a file that fails is
/// counted with those of standard input.
pub fn read_inputs<D: Files, I: Read>(
    alloc: Global,
    files: &mut D,
    names: &[String],
    input: &mut Source<I>,
) -> Result<Input, Unread>
    ensures read { IfOk result (λ read. IsInputRead (D.shelf files.old).content (named_files names.now)
        (I.remaining input.old.reader) (I.remaining input.new.reader) read.texts) }
    ensures unfailed { OnOk result (input.new.failures ≡ input.old.failures) }
    ensures unread { IfErr result (λ f. IsUnread (D.shelf files.old) (named_files names.now) f
        (I.remaining input.old.reader) (I.remaining input.new.reader) input.old.failures
        input.new.failures) }
    ensures shelf_kept { D.shelf files.new ≡ D.shelf files.old }
    ensures called { OnOk result (AreAsked (calls_to_open (named_files names.now))
        (D.calls files.old) (D.calls files.new)) }
    ensures begun { OnErr result (AreBegun (calls_to_open (named_files names.now))
        (D.calls files.old) (D.calls files.new)) }
{
    if names.is_empty() {
        let bytes = read_bytes(alloc, input, INPUT_LIMIT)?;
        return Ok(Input::of_text(alloc, bytes)?);
    }
    Ok(Input::new(read_each(alloc, files, names, input)?))
}
