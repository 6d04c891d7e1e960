ghost use Rattle.std.specs.Prelude.{◌≡◌, ◌+◌, ◌<◌, ◌≤◌, [], None, Some, length, take, IfOk, OnOk, OnErr};
ghost use Rattle.std.specs.Io.KnownBytes.{Appends, Keeps};
ghost use Rattle.byte_sinks.specs.Sinks.{one_more, unused};

use crate::sink::{Sink, SinkFailed};
use std::alloc::Global;
use std::marker::Model;

/// A sink that keeps its bytes in memory. A refused growth is a failed put. Contracts see what it has taken, and up to how many bytes it need not grow.
#[derive(Drop)]
pub struct MemorySink {
    bytes: Vec<u8>,
    failures: u64,
}

impl Model for MemorySink {
    ghost use Rattle.std.specs.Prelude.{vec_capacity};
    ghost use Rattle.byte_sinks.specs.MemorySinks.{Grown};
    ghost use Rattle.byte_sinks.specs.inside.MemorySinks.{grown};

    ghost Value = { Grown };

    ghost view = { λ s. grown s.bytes.items (vec_capacity s.bytes) s.failures };
}

impl MemorySink {
    /// A sink without bytes, which grows by this allocator.
    pub fn new(alloc: Global) -> Self
        ensures { ⟦<MemorySink as Sink>⟧.state result ≡ unused (Some []) }
    {
        MemorySink {
            bytes: Vec::new(alloc),
            failures: 0,
        }
    }

    /// The bytes that it has taken.
    pub fn bytes(&self) -> &[u8]
        ensures { (⟦<MemorySink as Sink>⟧.state self.now).taken ≡ Some result.now }
    {
        self.bytes.as_slice()
    }

    /// Those bytes, once no more are to come.
    pub fn into_bytes(self) -> Vec<u8>
        ensures { (⟦<MemorySink as Sink>⟧.state self).taken ≡ Some result.items }
    {
        let MemorySink { bytes, .. } = self;
        bytes
    }
}

impl Sink for MemorySink {
    ghost state = { λ s. record { place = None; taken = Some s.taken; failures = s.failures } };

    fn put(&mut self, bytes: &[u8]) -> Result<usize, SinkFailed>
        ensures within { IfOk result (λ n. n ≤ length bytes.now) }
        ensures some { IfOk result (λ n. 0 < length bytes.now → 0 < n) }
        ensures took { IfOk result (λ n. Appends (⟦<MemorySink as Sink>⟧.state self.old).taken
            (⟦<MemorySink as Sink>⟧.state self.new).taken (take n bytes.now)) }
        ensures kept { OnErr result (Keeps (⟦<MemorySink as Sink>⟧.state self.old).taken
            (⟦<MemorySink as Sink>⟧.state self.new).taken) }
        ensures placed { (⟦<MemorySink as Sink>⟧.state self.new).place
            ≡ (⟦<MemorySink as Sink>⟧.state self.old).place }
        ensures succeeded { OnOk result ((⟦<MemorySink as Sink>⟧.state self.new).failures
            ≡ (⟦<MemorySink as Sink>⟧.state self.old).failures) }
        ensures failed { OnErr result ((⟦<MemorySink as Sink>⟧.state self.new).failures
            ≡ one_more (⟦<MemorySink as Sink>⟧.state self.old).failures) }
        ensures whole { IfOk result (λ n. n ≡ length bytes.now) }
        ensures full { OnErr result (self.old.room < length self.old.taken + length bytes.now) }
    {
        match self.bytes.extend_from_slice(bytes) {
            Ok(()) => Ok(bytes.len()),
            Err(_) => {
                self.failures = self.failures.saturating_add(1);
                Err(SinkFailed)
            }
        }
    }
}
