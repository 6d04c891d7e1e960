//! A sink that keeps nothing.

ghost use Rattle.std.specs.Prelude.{◌≡◌, None};
ghost use Rattle.byte_sinks.specs.Sinks.{unused};

use byte_sinks::{Sink, SinkFailed};

/// Where what nobody reads goes.
#[derive(Drop)]
pub struct Nowhere;

impl Sink for Nowhere {
    ghost state = { λ _. unused None };

    fn put(&mut self, bytes: &[u8]) -> Result<usize, SinkFailed> {
        Ok(bytes.len())
    }
}
