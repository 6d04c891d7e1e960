//! Bytes on their way to a sink, by blocks.

ghost use Rattle.std.specs.Prelude.{◌≡◌, [], false, flat_map, IfErr, OnOk, length, min, take, OnErr};
ghost use Rattle.std.specs.Io.KnownBytes.{Appends, append_known};
ghost use Rattle.byte_sinks.specs.Sinks.{HasFailed, IsFront, Counts};

use crate::sink::{Sink, SinkFailed};
use arrayvec::ArrayVec;

/// Why a text was not written whole.
#[derive(Clone, Copy, Debug, PartialEq, Eq)]
pub enum WriteFault {
    /// A put failed after so many bytes of the text; the count stops at its greatest value.
    Sink { written: u64 },
}

/// How many bytes a writer has room for. Each writer clears them first, so there are no more than small writes need.
pub const BLOCK_LEN: usize = 16_384;

/// How long a piece is at most that a writer puts.
pub const PIECE_LEN: usize = 65_536;

/// A sink, and the bytes that wait for it. It remembers a failed put: nothing is put after it, and `flush` reports it.
#[derive(Drop)]
pub struct Writer<'s, S> {
    sink: &'s mut S,
    waiting: ArrayVec<u8, BLOCK_LEN>,
    // How many bytes have gone out. It stops at its greatest value.
    sent: u64,
    has_failed: bool,
}

impl<'s, S: Sink> Writer<'s, S> {
    ghost use Rattle.byte_sinks.specs.Adds.{Adds, IsBroken, IsNew, IsSent};
    ghost use Rattle.byte_sinks.specs.Sinks.{written_of};

    /// A writer to a sink. It takes no memory.
    pub fn new(sink: &'s mut S) -> Writer<'s, S>
        ensures { IsNew sink.entry result }
    {
        let mut waiting = ArrayVec::from_array_in((), [0u8; BLOCK_LEN]);
        waiting.clear();
        Writer {
            sink,
            waiting,
            sent: 0,
            has_failed: false,
        }
    }

    /// Puts what waits.
    #[inline(never)]
    fn send(&mut self)
        ensures adds { Adds S.state self.old self.new [] }
        ensures empty { self.new.has_failed ≡ false → self.new.waiting.items ≡ [] }
    {
        if self.has_failed {
            return;
        }
        match put_all(self.sink, self.waiting.as_slice(), &mut self.sent) {
            Ok(()) => self.waiting.clear(),
            Err(SinkFailed) => self.has_failed = true,
        }
    }

    /// Puts bytes if nothing waits.
    fn put(&mut self, bytes: &[u8])
        requires { self.old.has_failed ≡ false → self.old.waiting.items ≡ [] }
        ensures { Adds S.state self.old self.new bytes.now }
    {
        if !self.has_failed && put_all(self.sink, bytes, &mut self.sent).is_err() {
            self.has_failed = true;
        }
    }

    /// Adds bytes that find no room: after what waits, which is sent, or to the sink itself if they are longer than a block.
    #[inline(never)]
    fn add_after(&mut self, bytes: &[u8])
        ensures { Adds S.state self.old self.new bytes.now }
    {
        self.send();
        if self.waiting.try_extend_from_slice(bytes).is_ok() {
            return;
        }
        self.put(bytes)
    }

    /// Adds bytes at the end, and first sends what waits if there is no room for them.
    #[inline(always)]
    pub fn add(&mut self, bytes: &[u8])
        ensures { Adds S.state self.old self.new bytes.now }
    {
        if self.waiting.try_extend_from_slice(bytes).is_ok() {
            return;
        }
        self.add_after(bytes)
    }

    /// Adds the pieces in order.
    pub fn add_pieces(&mut self, pieces: &[&[u8]])
        ensures { Adds S.state self.old self.new (flat_map (λ p. p.now) pieces.now) }
    {
        for piece in pieces {
            self.add(piece);
        }
    }

    /// Sends what waits, and reports whether a put has failed, and how many bytes had gone out by then.
    pub fn flush(&mut self) -> Result<(), WriteFault>
        ensures adds { Adds S.state self.old self.new [] }
        ensures ok { OnOk result (IsSent self.new) }
        ensures err { IfErr result (λ e. IsBroken self.new (written_of e)) }
    {
        self.send();
        if self.has_failed {
            return Err(WriteFault::Sink { written: self.sent });
        }
        Ok(())
    }
}

// The first bytes, as many as a piece has at most.
fn front_piece(bytes: &[u8]) -> &[u8]
    ensures { result.now ≡ take (min (length bytes.now) PIECE_LEN) bytes.now }
{
    let end = bytes.len().min(PIECE_LEN);
    &bytes[..end]
}

// Puts all the bytes, and counts those that go out.
#[inline(never)]
fn put_all<S: Sink>(sink: &mut S, bytes: &[u8], sent: &mut u64) -> Result<(), SinkFailed>
    ensures ok { OnOk result (Appends (S.state sink.old).taken (S.state sink.new).taken bytes.now) }
    ensures err { OnErr result (IsFront (S.state sink.new).taken
        (append_known (S.state sink.old).taken bytes.now)) }
    ensures counted { Counts (S.state sink.old).taken (S.state sink.new).taken sent.old sent.new }
    ensures placed { (S.state sink.new).place ≡ (S.state sink.old).place }
    ensures failed { OnErr result (HasFailed (S.state sink.old).failures
        (S.state sink.new).failures) }
    ensures succeeded { OnOk result ((S.state sink.new).failures ≡ (S.state sink.old).failures) }
{
    let before = *sent;
    let mut from = 0;
    while from < bytes.len() {
        let n = sink.put(front_piece(&bytes[from..]))?;
        from += n;
        *sent = before.saturating_add(from as u64);
    }
    Ok(())
}
