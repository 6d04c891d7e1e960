ghost use Rattle.std.specs.Prelude.{◌≡◌, ◌⊎◌, ◌<◌, IfOk, IsErr, None, Ok, OnErr};
ghost use Rattle.byte_sinks.specs.Sinks.{unused};

use crate::sink::{Sink, SinkFailed};
use std::io;
use std::io::Write;

/// A sink over a writer. Every error of the writer, and a write of nothing, is a failed put.
#[derive(Drop)]
pub struct StdSink<W> {
    writer: W,
    failures: u64,
}

impl<W: Write + Drop> StdSink<W> {
    /// The sink that hands its bytes to this writer, and shows them if the writer does.
    pub fn new(writer: W) -> Self
        ensures { ⟦<StdSink<W> as Sink>⟧.state result ≡ unused (W.contents writer) }
    {
        StdSink {
            writer,
            failures: 0,
        }
    }
}

// What a writer's answer makes of a put of so many bytes: no error is tried again, an interrupted write neither.
fn judged(answer: io::Result<usize>, offered: usize) -> Result<usize, SinkFailed>
    ensures taken { IfOk result (λ n. (answer ≡ Ok n) × (0 < offered → 0 < n)) }
    ensures failed { OnErr result (IsErr answer ⊎ ((answer ≡ Ok 0) × (0 < offered))) }
{
    match answer {
        Ok(n) if n > 0 || offered == 0 => Ok(n),
        _ => Err(SinkFailed),
    }
}

impl<W: Write + Drop> Sink for StdSink<W> {
    ghost state = { λ s. record { place = None; taken = W.contents s.writer; failures = s.failures } };

    fn put(&mut self, bytes: &[u8]) -> Result<usize, SinkFailed> {
        let put = judged(self.writer.write(bytes), bytes.len());
        if put.is_err() {
            self.failures = self.failures.saturating_add(1);
        }
        put
    }
}
