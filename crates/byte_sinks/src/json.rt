//! Members of JSON objects.

ghost use Rattle.std.specs.Prelude.{◌≡◌, ◌<◌, flat_map};
ghost use Rattle.std.specs.Char.{digit_char};
ghost use Rattle.byte_sinks.specs.Adds.{Adds};
ghost use Rattle.byte_sinks.specs.Json.{json_byte, member_name, number_member, text_member};

use crate::sink::Sink;
use crate::writer::Writer;
use itoa::Buffer;

/// How what is found in an input is printed: as lines in words, or as lines of JSON.
#[derive(Clone, Copy)]
pub enum Format {
    Words,
    Json,
}

// A hexadecimal digit.
fn hex_digit(number: u8) -> u8
    requires { number < 16 }
    ensures { result ≡ digit_char number }
{
    if number < 10 {
        b'0' + number
    } else {
        87 + number
    }
}

// Adds a byte as it stands in a string.
fn add_json_byte<S: Sink>(writer: &mut Writer<'_, S>, byte: u8)
    ensures { Adds S.state writer.old writer.new (json_byte byte) }
{
    if byte == b'"' || byte == b'\\' {
        writer.add(&[b'\\', byte]);
    } else if 0x20 <= byte && byte <= 0x7E {
        writer.add(&[byte]);
    } else {
        let high = hex_digit(byte / 16);
        let low = hex_digit(byte % 16);
        writer.add(&[b'\\', b'u', b'0', b'0', high, low]);
    }
}

/// Adds bytes as they stand in a string: a quotation mark and a backslash come after a backslash, and a byte that isn't printable
/// ASCII is the character with its number, in hexadecimal digits.
pub fn add_json_text<S: Sink>(writer: &mut Writer<'_, S>, bytes: &[u8])
    ensures { Adds S.state writer.old writer.new (flat_map json_byte bytes.now) }
{
    for byte in bytes {
        add_json_byte(writer, *byte);
    }
}

// Adds the name of a member, after these bytes.
fn add_member_name<S: Sink>(writer: &mut Writer<'_, S>, before: &[u8], name: &[u8])
    ensures { Adds S.state writer.old writer.new (member_name before.now name.now) }
{
    writer.add(before);
    writer.add(b"\"");
    writer.add(name);
    writer.add(b"\": ");
}

/// Adds a member whose value is a string. Before it come these bytes: what opens the object, or what parts two members. The name
/// is written as it is.
pub fn add_text_member<S: Sink>(writer: &mut Writer<'_, S>, before: &[u8], name: &[u8], text: &[u8])
    ensures { Adds S.state writer.old writer.new (text_member before.now name.now text.now) }
{
    add_member_name(writer, before, name);
    writer.add(b"\"");
    add_json_text(writer, text);
    writer.add(b"\"");
}

/// Adds a member whose value is a number, after these bytes.
pub fn add_number_member<S: Sink>(
    writer: &mut Writer<'_, S>,
    before: &[u8],
    name: &[u8],
    number: u64,
)
    ensures { Adds S.state writer.old writer.new (number_member before.now name.now number) }
{
    let mut digits = Buffer::new();
    add_member_name(writer, before, name);
    writer.add(digits.format(number).as_bytes());
}
