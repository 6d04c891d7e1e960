//! Files, as a run sees them.

ghost use Rattle.std.specs.Prelude.{◌≡◌, ◌∷◌, [], ℕ, IfErr, IfOk, List, OnErr, OnOk, Option, Result, Some, Err, flat_map};
ghost use Rattle.auction_input.specs.declared.files.FileFault.{FileFault as Fault};
ghost use Rattle.auction_input.specs.declared.files.FileFault.TheVariants.{Unopened};
ghost use Rattle.auction_input.specs.FileCalls.{AreAsked, FileCall, opened, readable, replaced, rights, standard_input};
ghost use Rattle.auction_input.specs.FileTexts.{IsFound, Shelf, is_standard_output, sent_to};
ghost use Rattle.auction_input.specs.FileWords.{fault_words, kind_words};

use byte_sinks::{LimitSink, MemorySink, Sink, StdSink};
use std::alloc::AllocError;
use std::io::{Read, Write};

/// What a name has that isn't a file.
#[derive(Clone, Copy, Debug, PartialEq, Eq)]
pub enum FileKind {
    Folder,
    Pipe,
    Device,
    Socket,
}

/// Why a file isn't read, or not written.
#[derive(Clone, Copy, Debug, PartialEq, Eq)]
pub enum FileFault {
    /// There is no such file, or no folder for a new one.
    NotFound,
    /// The system denies access to the file, or to the folder of a new one.
    Denied,
    /// The file can't be opened for another reason.
    Unopened,
    /// A read failed.
    ReadFailed,
    /// What is to be read isn't a file.
    NotRead(FileKind),
    /// What is to be written isn't a file.
    NotReplaced(FileKind),
    /// The file that is to be written may not be changed.
    ReadOnly,
    /// What is to be written is a link that leads nowhere.
    DeadLink,
    /// The file can't be written for another reason.
    Unwritten,
    /// One of several files has no byte.
    Empty,
    /// One of several files has a last line without an end, and isn't the last file.
    NoLineEnd,
    /// The file is one of those that are read already, at this place from 0. The name that it has there follows.
    ReadAlready(usize),
    /// The file that is to be written is one of those that are read.
    ReadToo,
    OutOfMemory,
}

/// Which file of a command line: one of those that are read, by its place from 0, or the one that is written.
#[derive(Clone, Copy, Debug, PartialEq, Eq)]
pub enum FilePlace {
    Read(usize),
    Written,
}

/// A file that isn't read, or not written, and why.
#[derive(Clone, Copy, Debug, PartialEq, Eq)]
pub struct FileRefusal {
    pub file: FilePlace,
    pub fault: FileFault,
}

impl From<AllocError> for FileFault {
    ghost use Rattle.std.specs.Prelude.{◌≡◌};
    ghost use Rattle.auction_input.specs.declared.files.FileFault.TheVariants.{OutOfMemory};

    ghost from_gives = { λ _ e. e ≡ OutOfMemory };

    fn from(_: AllocError) -> FileFault {
        FileFault::OutOfMemory
    }
}

impl FileKind {
    /// Its name.
    pub fn words(self) -> &'static str
        ensures { result.now ≡ kind_words self }
    {
        match self {
            FileKind::Folder => "a folder",
            FileKind::Pipe => "a named pipe",
            FileKind::Device => "a device",
            FileKind::Socket => "a socket",
        }
    }
}

impl FileFault {
    /// What is reported of it; after the last words of a file that is read already stands the name of the other one.
    pub fn words(self) -> [&'static str; 3]
        ensures { flat_map (λ w. w.now) result ≡ fault_words self }
    {
        match self {
            FileFault::NotFound => ["no such file or directory", "", ""],
            FileFault::Denied => ["permission denied", "", ""],
            FileFault::Unopened => ["it can't be opened", "", ""],
            FileFault::ReadFailed => ["read failed", "", ""],
            FileFault::NotRead(kind) => [
                "it is ",
                kind.words(),
                ", not a file; to read it as standard input: wdp COMMAND < FILE",
            ],
            FileFault::NotReplaced(kind) => [
                "it is ",
                kind.words(),
                ", and -o would put a file in its place; wdp COMMAND > FILE writes to it",
            ],
            FileFault::ReadOnly => ["it may not be written", "", ""],
            FileFault::DeadLink => ["it is a link that leads nowhere", "", ""],
            FileFault::Unwritten => ["it can't be written", "", ""],
            FileFault::Empty => ["it is empty", "", ""],
            FileFault::NoLineEnd => [
                "its last line has no line end, and another file follows",
                "",
                "",
            ],
            FileFault::ReadAlready(_) => ["it is read already, as ", "", ""],
            FileFault::ReadToo => ["it is also an input", "", ""],
            FileFault::OutOfMemory => ["out of memory", "", ""],
        }
    }
}

/// Whether a name given to -o means standard output.
pub fn is_standard_output(name: &str) -> bool
    ensures { result ≡ is_standard_output name.now }
{
    name == "-" || name == "/dev/stdout"
}

/// What distinguishes a file from any other one: its device, and its number there.
#[derive(Clone, Copy, Debug, PartialEq, Eq, Hash)]
pub struct Identity {
    pub device: u64,
    pub number: u64,
}

/// Files by their names. What they are asked is kept, in order.
pub trait Files {
    /// What contracts see of them: their bytes, and what the system finds of them, where that is known. No call changes it.
    ghost shelf: { Self → Shelf };

    /// The calls so far, in order, if they are known.
    ghost calls: { Self → Option (List FileCall) };

    type File: Read + Drop;

    /// What distinguishes standard input from files, if the system knows.
    fn standard_input(&mut self) -> Option<Identity>
        ensures found { IsFound ((shelf self.old).standard_input) result }
        ensures shelf_kept { shelf self.new ≡ shelf self.old }
        ensures called { AreAsked (standard_input ∷ []) (calls self.old) (calls self.new) };

    /// What distinguishes a file that isn't standard input from others, or why it isn't read.
    fn readable(&mut self, name: &str) -> Result<Identity, FileFault>
        ensures found { IsFound ((shelf self.old).readable name.now) result }
        ensures shelf_kept { shelf self.new ≡ shelf self.old }
        ensures called { AreAsked (readable name.now ∷ []) (calls self.old) (calls self.new) };

    /// What distinguishes a file that isn't standard output from others, if there is one yet, or why another isn't put in its place.
    fn replaced(&mut self, name: &str) -> Result<Option<Identity>, FileFault>
        ensures found { IsFound ((shelf self.old).replaced name.now) result }
        ensures shelf_kept { shelf self.new ≡ shelf self.old }
        ensures called { AreAsked (replaced name.now ∷ []) (calls self.old) (calls self.new) };

    /// Whether a file that there is may be written.
    fn rights(&mut self, name: &str) -> Result<(), FileFault>
        ensures found { IsFound ((shelf self.old).rights name.now) result }
        ensures shelf_kept { shelf self.new ≡ shelf self.old }
        ensures called { AreAsked (rights name.now ∷ []) (calls self.old) (calls self.new) };

    /// Opens a file that isn't standard input.
    fn open(&mut self, name: &str) -> Result<Self::File, FileFault>
        ensures content { IfOk result (λ file. Self.File.remaining file ≡ (shelf self.old).content name.now) }
        ensures opened { OnOk result (IsFound ((shelf self.old).opened name.now) (Ok tt)) }
        ensures unopened { IfErr result (λ f. IsFound ((shelf self.old).opened name.now) (Err f)) }
        ensures shelf_kept { shelf self.new ≡ shelf self.old }
        ensures called { AreAsked (opened name.now ∷ []) (calls self.old) (calls self.new) };
}

/// A sink that may be sent to a file.
pub trait Output: Sink {
    /// What sending it to the file of a name finds, where that is known: nothing against it, or why it isn't sent.
    ghost sendable: { Self → List ℕ → Option (Result (Unit {0}) Fault) };

    /// From here on the bytes go to the file of that name. A sink that knows no files refuses.
    fn open(&mut self, name: &str) -> Result<(), FileFault>
        ensures found { IsFound (sendable self.old name.now) result }
        ensures sent { OnOk result (Self.state self.new ≡ sent_to name.now (Self.state self.old)) }
        ensures kept { OnErr result (Self.state self.new ≡ Self.state self.old) };
}

impl Output for MemorySink {
    ghost sendable = { λ _ _. Some (Err Unopened) };

    fn open(&mut self, name: &str) -> Result<(), FileFault> {
        let _ = name;
        Err(FileFault::Unopened)
    }
}

impl Output for LimitSink {
    ghost sendable = { λ _ _. Some (Err Unopened) };

    fn open(&mut self, _: &str) -> Result<(), FileFault> {
        Err(FileFault::Unopened)
    }
}

impl<W: Write + Drop> Output for StdSink<W> {
    ghost sendable = { λ _ _. Some (Err Unopened) };

    fn open(&mut self, _: &str) -> Result<(), FileFault> {
        Err(FileFault::Unopened)
    }
}
