//! The file of the journal, and standard output.

ghost use Rattle.std.specs.Prelude.{◌≡◌, None};

use desk_line::{Machine, Outside, Unkept, Untold};
use std::fs::File;
use std::io::Write;
use std::os::unix::fs::FileExt;

/// The file of the journal, of which so many bytes were synced, and standard output. Nothing is known of the bytes that they have taken.
#[derive(Drop)]
pub struct Disk<'r> {
    rt: &'r HostRuntime,
    file: File,
    extent: u64,
    failures: u64,
}

impl<'r> Disk<'r> {
    pub fn new(rt: &'r HostRuntime, file: File, extent: u64) -> Disk<'r>
        ensures { result.extent ≡ extent }
    {
        Disk {
            rt,
            file,
            extent,
            failures: 0,
        }
    }
}

impl Outside for Disk<'_> {
    ghost durable = { λ _. None };

    ghost told = { λ _. None };

    ghost extent = { λ d. d.extent };

    ghost failures = { λ d. d.failures };

    fn keep(&mut self, bytes: &[u8]) -> Result<(), Unkept> {
        if bytes.is_empty() {
            return Ok(());
        }
        let (Some(end), Some(failures)) = (
            self.extent.checked_add(bytes.len() as u64),
            self.failures.checked_add(1),
        ) else {
            return Err(Unkept::Unknown);
        };
        if self.file.write_all_at(bytes, self.extent).is_err() {
            if self.file.set_len(self.extent).is_err() {
                return Err(Unkept::Unknown);
            }
            self.failures = failures;
            return Err(Unkept::Full);
        }
        if self.file.sync_data().is_err() {
            return Err(Unkept::Unknown);
        }
        self.extent = end;
        Ok(())
    }

    fn tell<M: Machine>(&mut self, _machine: &M, replies: &[u8]) -> Result<(), Untold> {
        if self.rt.stdout().write_all(replies).is_err() {
            return Err(Untold);
        }
        Ok(())
    }
}
