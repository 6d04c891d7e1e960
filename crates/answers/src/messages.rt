//! The line that says why a run ended. Those on files are in `file_lines`, which takes this one where an input isn't read.

ghost use Rattle.auction_input.specs.Line.{Puts};
ghost use Rattle.input_faults.specs.PlacedText.{placed_line};

use auction_input::{NamedText, Refusal, spot_of};
use byte_sinks::{Sink, Writer};
use input_faults::{add_hint, add_message};

/// Puts the line of a refusal of these texts, with the name of its file where there are several. It takes no memory. What
/// a sink of such lines doesn't take changes nothing.
pub fn print_refusal<F: Sink>(texts: &[NamedText], refusal: &Refusal, faults: &mut F)
    ensures { Puts (placed_line texts.now refusal.now) (F.state faults.old) (F.state faults.new) }
{
    let mut writer = Writer::new(faults);
    writer.add(b"wdp: ");
    add_message(&mut writer, texts, spot_of(texts, refusal), refusal);
    add_hint(&mut writer, texts, refusal);
    writer.add(b"\n");
    let _ = writer.flush();
}
