//! Bytes of an input, as they are shown.

ghost use Rattle.std.specs.Prelude.{◌≡◌, ◌<◌, codes, flat_map, if◌then◌else◌, length, nat_lt, take};
ghost use Rattle.input_faults.specs.Shown.{hex_digit, shown_byte, shown_text};
ghost use Rattle.byte_sinks.specs.Adds.{Adds};

use byte_sinks::{Sink, Writer};

// How many bytes of a text are shown.
const SHOWN_LEN: usize = 40;

// A hexadecimal digit.
fn hex_digit(number: u8) -> u8
    requires { number < 16 }
    ensures { result ≡ hex_digit number }
{
    if number < 10 {
        number + b'0'
    } else {
        number + 87
    }
}

// Adds a byte as it is shown.
fn add_shown_byte<S: Sink>(writer: &mut Writer<'_, S>, byte: u8)
    ensures { Adds S.state writer.old writer.new (shown_byte byte) }
{
    if byte == b'\'' || byte == b'\\' {
        writer.add(&[b'\\', byte]);
    } else if 0x20 <= byte && byte <= 0x7E {
        writer.add(&[byte]);
    } else {
        writer.add(&[b'\\', b'x', hex_digit(byte / 16), hex_digit(byte % 16)]);
    }
}

/// Adds bytes as they are shown.
pub(crate) fn add_shown_bytes<S: Sink>(writer: &mut Writer<'_, S>, bytes: &[u8])
    ensures { Adds S.state writer.old writer.new (flat_map shown_byte bytes.now) }
{
    for byte in bytes {
        add_shown_byte(writer, *byte);
    }
}

/// The bytes of a text that are shown.
pub(crate) fn front(text: &[u8]) -> &[u8]
    ensures { result.now ≡ take 40 text.now }
{
    if text.len() > SHOWN_LEN {
        text.split_at(SHOWN_LEN).0
    } else {
        text
    }
}

// What comes after them.
fn closing(text: &[u8]) -> &'static [u8]
    ensures { result.now ≡ (if nat_lt 40 (length text.now) then codes "'..." else codes "'") }
{
    if text.len() > SHOWN_LEN {
        b"'..."
    } else {
        b"'"
    }
}

/// Adds a text between quotation marks; of one of more than 40 bytes the first 40.
pub fn add_shown<S: Sink>(writer: &mut Writer<'_, S>, text: &[u8])
    ensures { Adds S.state writer.old writer.new (shown_text text.now) }
{
    writer.add(b"'");
    add_shown_bytes(writer, front(text));
    writer.add(closing(text));
}
