//! Laws of the limits of a writer, and of what stands in a string of JSON.

ghost use Rattle.std.specs.Prelude.{◌≡◌, ◌<◌, ℕ, List};
ghost use Rattle.std.specs.List.{All, AllPass};
ghost use Rattle.byte_sinks.specs.Json.{is_printable, json_text};
ghost use Rattle.byte_sinks.specs.declared.writer.TheConstants.{BLOCK_LEN, PIECE_LEN};

/// A block has room for this number of bytes, and a piece has at most this number.
pub fn the_limits_are_these()
    ensures block { BLOCK_LEN ≡ 16384 }
    ensures piece { PIECE_LEN ≡ 65536 }
{}

/// What stands in a string is printable ASCII, whatever the bytes of the text.
pub fn a_string_is_printable()
    ensures { (text : List ℕ) → All (λ byte. byte < 256) text → AllPass is_printable (json_text text) }
{}

/// Two different texts never stand in a string as the same bytes.
pub fn a_string_is_of_one_text()
    ensures { (text other : List ℕ) → json_text text ≡ json_text other → text ≡ other }
{}
