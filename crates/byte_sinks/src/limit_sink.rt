ghost use Rattle.std.specs.Prelude.{◌≡◌, ◌+◌, ◌<◌, ◌≤◌, [], None, Some, min, length, take, IfOk, OnOk, OnErr};
ghost use Rattle.std.specs.Io.KnownBytes.{Appends, Keeps};
ghost use Rattle.byte_sinks.specs.Sinks.{one_more, unused};

use crate::sink::{Sink, SinkFailed};
use std::alloc::{AllocError, Global};
use std::marker::Model;

/// A sink for tests: it takes at most `most` bytes a put, and fails once it has taken `room` altogether. Contracts see what it
/// has taken and what is left of its limits.
#[derive(Drop)]
pub struct LimitSink {
    // It has room for all that the sink is to take, so that a put takes no memory.
    bytes: Vec<u8>,
    room: usize,
    most: usize,
    failures: u64,
}

impl Model for LimitSink {
    ghost use Rattle.std.specs.Prelude.{◌+◌, ◌≤◌, vec_capacity, vec_len};
    ghost use Rattle.byte_sinks.specs.MemorySinks.{Limited};
    ghost use Rattle.byte_sinks.specs.inside.MemorySinks.{limited};

    ghost Value = { Limited };

    ghost view = { λ s. limited s.bytes.items s.room s.most s.failures };

    ghost invariant = { λ s. vec_len s.bytes + s.room ≤ vec_capacity s.bytes };
}

impl LimitSink {
    /// A sink without bytes, with room for so many, of which a put takes at most `most`.
    pub fn new(alloc: Global, room: usize, most: usize) -> Result<Self, AllocError>
        ensures unused { IfOk result (λ sink. ⟦<LimitSink as Sink>⟧.state sink ≡ unused (Some [])) }
        ensures room { IfOk result (λ sink. sink.room ≡ room) }
        ensures most { IfOk result (λ sink. sink.most ≡ most) }
    {
        Ok(LimitSink {
            bytes: Vec::with_capacity(alloc, room)?,
            room,
            most,
            failures: 0,
        })
    }

    /// The bytes that it has taken.
    pub fn bytes(&self) -> &[u8]
        ensures { (⟦<LimitSink as Sink>⟧.state self.now).taken ≡ Some result.now }
    {
        self.bytes.as_slice()
    }
}

/// How many bytes of a piece are taken.
fn share(piece: usize, most: usize, room: usize) -> usize
    ensures { result ≡ min piece (min most room) }
{
    piece.min(most.min(room))
}

impl Sink for LimitSink {
    ghost state = { λ s. record { place = None; taken = Some s.taken; failures = s.failures } };

    fn put(&mut self, bytes: &[u8]) -> Result<usize, SinkFailed>
        ensures within { IfOk result (λ n. n ≤ length bytes.now) }
        ensures some { IfOk result (λ n. 0 < length bytes.now → 0 < n) }
        ensures took { IfOk result (λ n. Appends (⟦<LimitSink as Sink>⟧.state self.old).taken
            (⟦<LimitSink as Sink>⟧.state self.new).taken (take n bytes.now)) }
        ensures kept { OnErr result (Keeps (⟦<LimitSink as Sink>⟧.state self.old).taken
            (⟦<LimitSink as Sink>⟧.state self.new).taken) }
        ensures placed { (⟦<LimitSink as Sink>⟧.state self.new).place
            ≡ (⟦<LimitSink as Sink>⟧.state self.old).place }
        ensures succeeded { OnOk result ((⟦<LimitSink as Sink>⟧.state self.new).failures
            ≡ (⟦<LimitSink as Sink>⟧.state self.old).failures) }
        ensures failed { OnErr result ((⟦<LimitSink as Sink>⟧.state self.new).failures
            ≡ one_more (⟦<LimitSink as Sink>⟧.state self.old).failures) }
        ensures share { IfOk result (λ n. n ≡ min (length bytes.now)
            (min self.old.most self.old.room)) }
        ensures room { IfOk result (λ n. self.new.room + n ≡ self.old.room) }
        ensures room_kept { OnErr result (self.new.room ≡ self.old.room) }
        ensures most { self.new.most ≡ self.old.most }
        ensures limit { OnErr result ((0 < length bytes.now) × (min self.old.most self.old.room ≡ 0)) }
    {
        let count = share(bytes.len(), self.most, self.room);
        if count > 0 || bytes.is_empty() {
            if let Ok(()) = self.bytes.extend_from_slice(&bytes[..count]) {
                self.room -= count;
                return Ok(count);
            }
        }
        self.failures = self.failures.saturating_add(1);
        Err(SinkFailed)
    }
}
