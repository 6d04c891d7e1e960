//! Writing pieces of text, as `check` does, and `run` for help and for faults of the words.

ghost use Rattle.std.specs.Prelude.{flat_map};
ghost use Rattle.byte_sinks.specs.Sinks.{Sends};

use byte_sinks::{Sink, WriteFault, Writer};

/// Writes the pieces, one after the other. It takes no memory.
pub fn write_pieces<S: Sink>(pieces: &[&[u8]], sink: &mut S) -> Result<(), WriteFault>
    ensures { Sends (S.state sink.old) (S.state sink.new) result (flat_map (λ p. p.now) pieces.now) }
{
    let mut writer = Writer::new(sink);
    writer.add_pieces(pieces);
    writer.flush()
}
