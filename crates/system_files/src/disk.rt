//! The files of the system, by their names.

ghost use Rattle.std.specs.Prelude.{None};

use auction_input::{FileFault, FileKind, Files, Identity};
use std::fs::{File, Metadata, OpenOptions};
use std::io::ErrorKind;
use std::os::unix::fs::{FileTypeExt, MetadataExt};
use std::{fs, io};

/// The files of this system. Nothing is known of their bytes, nor of what the system finds of them.
#[derive(Drop)]
pub struct Disk<'r> {
    rt: &'r HostRuntime,
}

// What distinguishes a file from any other one.
fn identity_of(found: &Metadata) -> Identity {
    Identity {
        device: found.dev(),
        number: found.ino(),
    }
}

// What kind of thing has a name, where it isn't a file.
fn kind_of(found: &Metadata) -> Option<FileKind> {
    let kind = found.file_type();
    if kind.is_dir() {
        Some(FileKind::Folder)
    } else if kind.is_fifo() {
        Some(FileKind::Pipe)
    } else if kind.is_socket() {
        Some(FileKind::Socket)
    } else if kind.is_char_device() || kind.is_block_device() {
        Some(FileKind::Device)
    } else {
        None
    }
}

// What an error of the system says of a file; `other` where that has no words here.
pub(crate) fn fault_of(error: &io::Error, other: FileFault) -> FileFault {
    match error.kind() {
        ErrorKind::NotFound => FileFault::NotFound,
        ErrorKind::PermissionDenied => FileFault::Denied,
        ErrorKind::OutOfMemory => FileFault::OutOfMemory,
        _ => other,
    }
}

// Whether a name is that of a file that is open already, as the shell's <(..) names a pipe.
fn is_of_shell(name: &str) -> bool {
    name.starts_with("/dev/fd/") || name.starts_with("/proc/self/fd/")
}

impl<'r> Disk<'r> {
    pub fn new(rt: &'r HostRuntime) -> Disk<'r> {
        Disk { rt }
    }
}

impl Files for Disk<'_> {
    ghost shelf = { λ _. record {
      content = λ _. None;
      opened = λ _. None;
      standard_input = None;
      readable = λ _. None;
      replaced = λ _. None;
      rights = λ _. None;
    } };

    ghost calls = { λ _. None };

    type File = File;

    fn standard_input(&mut self) -> Option<Identity> {
        match fs::metadata(self.rt, "/dev/stdin") {
            Ok(found) => Some(identity_of(&found)),
            Err(_) => None,
        }
    }

    // A file, or a pipe of the shell's.
    fn readable(&mut self, name: &str) -> Result<Identity, FileFault> {
        let found = match fs::metadata(self.rt, name) {
            Ok(found) => found,
            Err(error) => return Err(fault_of(&error, FileFault::Unopened)),
        };
        match kind_of(&found) {
            None => Ok(identity_of(&found)),
            Some(FileKind::Pipe) if is_of_shell(name) => Ok(identity_of(&found)),
            Some(kind) => Err(FileFault::NotRead(kind)),
        }
    }

    // Where there is no file yet, its folder is seen when it is made; a link to nothing isn't followed.
    fn replaced(&mut self, name: &str) -> Result<Option<Identity>, FileFault> {
        match fs::metadata(self.rt, name) {
            Ok(found) => match kind_of(&found) {
                None => Ok(Some(identity_of(&found))),
                Some(kind) => Err(FileFault::NotReplaced(kind)),
            },
            Err(error) if error.kind() != ErrorKind::NotFound => {
                Err(fault_of(&error, FileFault::Unwritten))
            }
            Err(_) if fs::symlink_metadata(self.rt, name).is_ok() => Err(FileFault::DeadLink),
            Err(_) => Ok(None),
        }
    }

    fn rights(&mut self, name: &str) -> Result<(), FileFault> {
        match OpenOptions::new().write(true).open(self.rt, name) {
            Ok(_file) => Ok(()),
            Err(error) if error.kind() == ErrorKind::PermissionDenied => Err(FileFault::ReadOnly),
            Err(_) => Err(FileFault::Unwritten),
        }
    }

    fn open(&mut self, name: &str) -> Result<File, FileFault> {
        match File::open(self.rt, name) {
            Ok(file) => Ok(file),
            Err(error) => Err(fault_of(&error, FileFault::Unopened)),
        }
    }
}
