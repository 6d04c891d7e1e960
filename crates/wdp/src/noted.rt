//! A sink, and whether it was used.

ghost use Rattle.std.specs.Prelude.{◌≡◌, false, true};

use byte_sinks::{Sink, SinkFailed};

/// A sink, and whether anything was to go there.
#[derive(Drop)]
pub struct Noted<S> {
    sink: S,
    is_used: bool,
}

impl<S: Sink + Drop> Noted<S> {
    pub fn new(sink: S) -> Noted<S> {
        Noted {
            sink,
            is_used: false,
        }
    }

    /// Whether there was a put.
    pub fn is_used(&self) -> bool {
        self.is_used
    }
}

impl<S: Sink + Drop> Sink for Noted<S> {
    ghost state = { λ s. S.state s.sink };

    fn put(&mut self, bytes: &[u8]) -> Result<usize, SinkFailed> {
        self.is_used = true;
        self.sink.put(bytes)
    }
}
