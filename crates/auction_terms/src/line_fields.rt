//! The fields of a line, one after the other.

ghost use Rattle.std.specs.Prelude.{◌≡◌, ◌∷◌, ◌++◌, ◌≤◌, [], not, length, IfSome, MatchOption};
ghost use Rattle.std.specs.List.{before_first, position_or_len};
ghost use Rattle.auction_terms.specs.LineFields.{fields, is_space};

/// A field, and what follows it in its line.
#[derive(Clone, Copy)]
pub struct Field<'a> {
    /// The bytes of the field: one or more, none of them a space or a tab.
    pub text: &'a [u8],
    /// What follows it in the line, white space included.
    pub rest: &'a [u8],
}

fn is_white(byte: u8) -> bool
    ensures { result ≡ is_space byte }
{
    byte == b' ' || byte == b'\t'
}

/// Where white space begins, or the length.
fn space_in(line: &[u8]) -> usize
    ensures value { result ≡ position_or_len is_space line.now }
    ensures within { result ≤ length line.now }
{
    let mut i = 0;
    while i < line.len() {
        if is_white(line[i]) {
            return i;
        }
        i += 1;
    }
    i
}

/// Where white space ends, or the length.
fn text_in(line: &[u8]) -> usize
    ensures value { result ≡ position_or_len (λ b. not (is_space b)) line.now }
    ensures within { result ≤ length line.now }
{
    let mut i = 0;
    while i < line.len() {
        if !is_white(line[i]) {
            return i;
        }
        i += 1;
    }
    i
}

/// The first field of a line, if there is one. Fields are runs of bytes other than spaces and tabs.
pub fn next_field(line: &[u8]) -> Option<Field<'_>>
    ensures first { MatchOption result (fields line.now ≡ [])
        (λ field. fields line.now ≡ field.text.now ∷ fields field.rest.now) }
    ensures rest { IfSome result (λ field. line.now ≡ before_first (λ b. not (is_space b)) line.now
        ++ (field.text.now ++ field.rest.now)) }
{
    let start = text_in(line);
    if start == line.len() {
        return None;
    }
    let text = &line[start..];
    let end = space_in(text);
    Some(Field {
        text: &text[..end],
        rest: &text[end..],
    })
}
