//! Where the input comes from.

ghost use Rattle.std.specs.Prelude.{◌≡◌, OnErr, OnOk};
ghost use Rattle.std.specs.Io.KnownBytes.{ReadConsumes};
ghost use Rattle.std.specs.Io.{ReadsAtMost};
ghost use Rattle.byte_sinks.specs.Sinks.{one_more};

use std::io::Read;

/// A read failed, for any cause.
#[derive(Clone, Copy, Debug, PartialEq, Eq)]
pub struct ReadFailed;

/// A reader, and how many of its reads have failed, up to `u64::MAX`.
#[derive(Drop)]
pub struct Source<I> {
    pub reader: I,
    pub failures: u64,
}

impl<I: Read> Source<I> {
    /// A reader of which no read has failed yet.
    pub fn new(reader: I) -> Source<I>
        ensures reader { result.reader ≡ reader }
        ensures failures { result.failures ≡ 0 }
    {
        Source {
            reader,
            failures: 0,
        }
    }

    /// Reads bytes into the front of a block, none only at the end.
    pub fn read(&mut self, block: &mut [u8]) -> Result<usize, ReadFailed>
        ensures bound { ReadsAtMost result block.new }
        ensures bytes { ReadConsumes (I.remaining self.old.reader) (I.remaining self.new.reader)
            result block.new }
        ensures succeeded { OnOk result (self.new.failures ≡ self.old.failures) }
        ensures failed { OnErr result (self.new.failures ≡ one_more self.old.failures) }
    {
        match self.reader.read(block) {
            Ok(count) => Ok(count),
            Err(_) => {
                self.failures = self.failures.saturating_add(1);
                Err(ReadFailed)
            }
        }
    }
}
