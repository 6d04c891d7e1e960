//! Head lines.

ghost use Rattle.std.specs.Prelude.{◌≡◌, ◌<◌, ◌≤◌, ◌==◌, IfSome, length, take};
ghost use Rattle.std.specs.List.{position};
ghost use Rattle.desk_book.specs.declared.limits.TheConstants.{HEAD_LIMIT};
ghost use Rattle.desk_book.specs.inside.Lines.{IfWhole, IsLineOf};

use crate::limits::HEAD_LIMIT;

/// What stands at the front of bytes: a head line of so many bytes without its end, the beginning of one, or none.
#[derive(Clone, Copy)]
pub(crate) enum Line {
    Whole(usize),
    Short,
    None,
}

// Where the first line ends.
fn end_in(bytes: &[u8]) -> Option<usize>
    ensures end { result ≡ position (λ b. b == 10) bytes.now }
    ensures within { IfSome result (λ n. n < length bytes.now) }
{
    bytes.iter().position(|byte| *byte == b'\n')
}

// Those of these bytes that a head line may have.
fn head_room(bytes: &[u8]) -> &[u8]
    ensures room { result.now ≡ take HEAD_LIMIT bytes.now }
    ensures within { (length result.now ≤ length bytes.now) × (length result.now ≤ 1024) }
{
    if bytes.len() <= HEAD_LIMIT {
        bytes
    } else {
        &bytes[..HEAD_LIMIT]
    }
}

/// The head line at the front of these bytes.
pub(crate) fn find_line(bytes: &[u8]) -> Line
    ensures line { IsLineOf bytes.now result }
    ensures within { IfWhole result (λ n. (n < length bytes.now) × (n < 1024)) }
{
    match end_in(head_room(bytes)) {
        Some(end) => Line::Whole(end),
        None if bytes.len() < HEAD_LIMIT => Line::Short,
        None => Line::None,
    }
}
