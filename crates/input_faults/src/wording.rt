//! Words on faults and refusals, as they are written.

ghost use Rattle.std.specs.Prelude.{◌++◌, decimal};
ghost use Rattle.auction_terms.specs.Wording.{code_seen, code_text, wording_text};
ghost use Rattle.byte_sinks.specs.Adds.{Adds};

use auction_terms::{Code, Wording};
use byte_sinks::{Sink, Writer};
use itoa::Buffer;

// Adds the number and the name of a fault.
fn add_code<S: Sink>(writer: &mut Writer<'_, S>, code: Code)
    ensures { Adds S.state writer.old writer.new (code_text (code_seen code)) }
{
    let mut digits = Buffer::new();
    let pieces: [&[u8]; 3] = [
        digits.format(code.number).as_bytes(),
        b" ",
        code.name.as_bytes(),
    ];
    writer.add_pieces(&pieces);
}

// Adds words and a number.
fn add_number<S: Sink>(writer: &mut Writer<'_, S>, words: &'static str, number: u64)
    ensures { Adds S.state writer.old writer.new (words.now ++ decimal number) }
{
    let mut digits = Buffer::new();
    let pieces: [&[u8]; 2] = [words.as_bytes(), digits.format(number).as_bytes()];
    writer.add_pieces(&pieces);
}

/// Adds words, with the numbers among them.
pub fn add_wording<S: Sink>(writer: &mut Writer<'_, S>, wording: Wording)
    ensures { Adds S.state writer.old writer.new (wording_text wording) }
{
    let mut digits = Buffer::new();
    let mut more_digits = Buffer::new();
    match wording {
        Wording::Named(code) => add_code(writer, code),
        Wording::NamedAt(code, words, number) => {
            add_code(writer, code);
            add_number(writer, words, number);
        }
        Wording::NamedWith(code, words, number, more, other) => {
            add_code(writer, code);
            add_number(writer, words, number);
            add_number(writer, more, other);
        }
        Wording::Words(words) => writer.add(words.as_bytes()),
        Wording::Number(words, number) => add_number(writer, words, number),
        Wording::Between(words, number, more) => {
            let pieces: [&[u8]; 3] = [
                words.as_bytes(),
                digits.format(number).as_bytes(),
                more.as_bytes(),
            ];
            writer.add_pieces(&pieces);
        }
        Wording::Numbers(words, number, more, other) => {
            let pieces: [&[u8]; 4] = [
                words.as_bytes(),
                digits.format(number).as_bytes(),
                more.as_bytes(),
                more_digits.format(other).as_bytes(),
            ];
            writer.add_pieces(&pieces);
        }
    }
}
