//! Where the output goes: to standard output, or to a file that takes its place when it is whole.

ghost use Rattle.std.specs.Prelude.{◌≡◌, Bool, IfOk, None, OnOk, true};
ghost use Rattle.std.specs.Option.{option_map};

use crate::disk::fault_of;
use auction_input::{FileFault, Output, is_standard_output};
use byte_sinks::{Sink, SinkFailed};
use std::fs::{File, Metadata, OpenOptions};
use std::io::{ErrorKind, Write};
use std::os::fd::AsRawFd;
use std::os::unix::fs::{MetadataExt, OpenOptionsExt, fchown};
use std::random::RandomSource;
use std::{fs, io};

/// How many characters of a file's name the name of the new file beside it has: with what follows them no longer than names
/// may be.
const KEPT_CHARS: usize = 58;

// A file that isn't whole yet, beside the one whose place it is to take.
#[derive(Drop)]
struct NewFile {
    file: File,
    // Where it is until then.
    path: String,
    place: String,
    // Its name on the command line.
    name: String,
}

/// A file that couldn't take its place, by its name on the command line.
#[derive(Drop)]
pub struct Unkept {
    pub name: String,
    pub fault: FileFault,
}

// The path of a new file beside this one, which no other has.
fn path_beside(rt: &HostRuntime, place: &str) -> Result<String, FileFault> {
    let (folder, name) = match place.rfind('/') {
        Some(at) => place.split_at(at + 1),
        None => ("", place),
    };
    let mut number = [0u8; 8];
    if rt.fill_bytes(&mut number).is_err() {
        return Err(FileFault::Unwritten);
    }
    let mut kept = String::new(rt.alloc());
    for c in name.chars().take(KEPT_CHARS) {
        kept.push(c)?;
    }
    let number = u64::from_ne_bytes(number);
    Ok(format!(in rt.alloc(); "{folder}.{kept}.{number:016x}")?)
}

// Where a file is, or is to be, once all links are followed.
fn place_of(rt: &HostRuntime, name: &str, is_there: bool) -> io::Result<String> {
    if is_there {
        return Ok(fs::canonicalize(rt, name)?.into_string());
    }
    // No file has such a name: one that ends so is a folder's.
    if name.is_empty() || name.ends_with('/') {
        return Err(ErrorKind::NotFound.into());
    }
    Ok(String::from_str(rt.alloc(), name)?)
}

// Makes a file that nobody else has, one that only its owner may read where another's rights are to be given to it.
fn make(rt: &HostRuntime, path: &str, is_private: bool) -> io::Result<File> {
    let mode = if is_private { 0o600 } else { 0o666 };
    let file = OpenOptions::new()
        .write(true)
        .create_new(true)
        .mode(mode)
        .open(rt, path)?;
    // What is said on a standard stream that is closed must not come to stand in it.
    if file.as_raw_fd() > 2 {
        return Ok(file);
    }
    let moved = file.try_clone();
    if moved.is_err() {
        let _ = fs::remove_file(rt, path);
    }
    moved
}

// Gives a file the rights of another, and its group and owner where this process may.
fn give_rights(file: &File, old: &Metadata) -> io::Result<()> {
    let _ = fchown(file, None, Some(old.gid()));
    let _ = fchown(file, Some(old.uid()), None);
    file.set_permissions(old.permissions())
}

// Why a file can't be written.
fn unwritten(error: io::Error) -> FileFault {
    fault_of(&error, FileFault::Unwritten)
}

impl NewFile {
    fn make(rt: &HostRuntime, name: &str) -> Result<NewFile, FileFault>
        ensures { IfOk result (λ new. new.name.bytes.items ≡ name.now) }
    {
        let old = fs::metadata(rt, name).ok();
        let place = place_of(rt, name, old.is_some()).map_err(unwritten)?;
        let path = path_beside(rt, place.as_str())?;
        // Copied before the file is made: were there no memory for it after that, the file would stay.
        let name = String::from_str(rt.alloc(), name)?;
        let file = make(rt, path.as_str(), old.is_some()).map_err(unwritten)?;
        let new = NewFile {
            file,
            path,
            place,
            name,
        };
        match old {
            Some(old) if give_rights(&new.file, &old).is_err() => {
                new.leave(rt);
                Err(FileFault::Unwritten)
            }
            _ => Ok(new),
        }
    }

    // Puts the file in its place.
    fn keep(self, rt: &HostRuntime) -> Result<(), Unkept> {
        let is_written = self.file.sync_all().is_ok();
        if is_written && fs::rename(rt, &self.path, &self.place).is_ok() {
            return Ok(());
        }
        let _ = fs::remove_file(rt, &self.path);
        Err(Unkept {
            name: self.name,
            fault: FileFault::Unwritten,
        })
    }

    // Takes the file away.
    fn leave(self, rt: &HostRuntime) {
        let _ = fs::remove_file(rt, &self.path);
    }
}

/// An output that comes to an end.
pub trait Ending: Output {
    /// Whether it came to its end as a whole, and not by a file that was left.
    ghost is_kept: { Self → Bool };

    /// Ends the output: a file that is whole takes its place, another goes.
    fn end(&mut self, is_whole: bool) -> Result<(), Unkept>
        ensures { OnOk result (is_kept self.new ≡ is_whole) };
}

/// Standard output, or the file that it was sent to. Nothing is known of the bytes that it has taken.
#[derive(Drop)]
pub struct Out<'r> {
    rt: &'r HostRuntime,
    file: Option<NewFile>,
    failures: u64,
    is_kept: bool,
}

impl<'r> Out<'r> {
    pub fn new(rt: &'r HostRuntime) -> Out<'r> {
        Out {
            rt,
            file: None,
            failures: 0,
            is_kept: false,
        }
    }
}

impl Ending for Out<'_> {
    ghost is_kept = { λ s. s.is_kept };

    fn end(&mut self, is_whole: bool) -> Result<(), Unkept> {
        self.is_kept = false;
        match self.file.take() {
            Some(file) if is_whole => file.keep(self.rt)?,
            Some(file) => file.leave(self.rt),
            None => {}
        }
        self.is_kept = is_whole;
        Ok(())
    }
}

impl Sink for Out<'_> {
    ghost state = { λ s. record {
      place = option_map (λ new. new.name.bytes.items) s.file;
      taken = None;
      failures = s.failures;
    } };

    fn put(&mut self, bytes: &[u8]) -> Result<usize, SinkFailed> {
        let answer = match &mut self.file {
            Some(new) => new.file.write(bytes),
            None => self.rt.stdout().write(bytes),
        };
        match answer {
            Ok(count) if count > 0 || bytes.is_empty() => Ok(count),
            _ => {
                self.failures = self.failures.saturating_add(1);
                Err(SinkFailed)
            }
        }
    }
}

impl Output for Out<'_> {
    ghost sendable = { λ _ _. None };

    fn open(&mut self, name: &str) -> Result<(), FileFault> {
        if !is_standard_output(name) {
            self.file = Some(NewFile::make(self.rt, name)?);
        }
        Ok(())
    }
}
