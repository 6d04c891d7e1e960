//! Short lines, put together one after the other before they are added.

ghost use Rattle.std.specs.Prelude.{◌≡◌, ◌≤◌, ◌<◌, ◌+◌, ◌∷◌, [], ◌++◌, decimal, length, take};

/// The most bytes of lines that are put together.
pub const LINES_LEN: usize = 1024;

/// How long the front of a line is at most: a blank, a name and a blank.
pub const FRONT_LEN: usize = 16;

/// How long the name in a front is at most.
pub const FRONT_NAME_LEN: usize = FRONT_LEN - 2;

/// The room that a line is written in: its front, four bytes of a name, and four with the number.
pub const LINE_ROOM: usize = FRONT_LEN + 8;

/// Writes a name of two to four bytes from a place on: its first two bytes and its last two, with no branch on how many it has.
fn write_name(line: &mut [u8], at: usize, name: &[u8])
    requires some { 2 ≤ length name.now }
    requires few { length name.now ≤ 4 }
    requires room { at + 4 ≤ length line.old }
    ensures written { take (at + length name.now) line.new ≡ take at line.old ++ name.now }
    ensures length { length line.new ≡ length line.old }
{
    let back = name.len() - 2;
    line[at] = name[0];
    line[at + 1] = name[1];
    line[at + back] = name[back];
    line[at + back + 1] = name[back + 1];
}

/// Writes a blank, a number below 100 and a line feed from a place on, and returns where they end.
fn write_end(line: &mut [u8], at: usize, number: u8) -> usize
    requires small { number < 100 }
    requires room { at + 4 ≤ length line.old }
    ensures written { take result line.new ≡ take at line.old
        ++ (32 ∷ (decimal number ++ 10 ∷ [])) }
    ensures after { at ≤ result }
    ensures within { result ≤ at + 4 }
    ensures length { length line.new ≡ length line.old }
{
    line[at] = b' ';
    if number < 10 {
        line[at + 1] = b'0' + number;
        line[at + 2] = b'\n';
        return at + 3;
    }
    line[at + 1] = b'0' + number / 10;
    line[at + 2] = b'0' + number % 10;
    line[at + 3] = b'\n';
    at + 4
}

/// Writes the front of a line, the name of a row and a number from a place on, and returns where the line ends. The front is
/// copied with all of its room, which takes no loop; what follows its end is written over.
#[inline(always)]
pub fn write_line(
    lines: &mut [u8],
    at: usize,
    front: &[u8; FRONT_LEN],
    front_len: usize,
    name: &[u8],
    number: u8,
) -> usize
    requires front { front_len ≤ FRONT_LEN }
    requires some { 2 ≤ length name.now }
    requires few { length name.now ≤ 4 }
    requires small { number < 100 }
    requires room { at + LINE_ROOM ≤ length lines.old }
    ensures written { take result lines.new ≡ take at lines.old
        ++ (take front_len front.now ++ (name.now ++ (32 ∷ (decimal number ++ 10 ∷ [])))) }
    ensures within { result ≤ at + LINE_ROOM }
    ensures length { length lines.new ≡ length lines.old }
{
    lines[at..at + FRONT_LEN].copy_from_slice(front);
    let end = at + front_len;
    write_name(lines, end, name);
    write_end(lines, end + name.len(), number)
}

/// Writes a blank, a name and a blank, and returns where they end.
pub fn write_front(front: &mut [u8; FRONT_LEN], name: &[u8]) -> usize
    requires short { length name.now ≤ FRONT_NAME_LEN }
    ensures written { take result front.new ≡ 32 ∷ (name.now ++ 32 ∷ []) }
    ensures within { result ≤ FRONT_LEN }
{
    let end = 1 + name.len();
    front[0] = b' ';
    front[1..end].copy_from_slice(name);
    front[end] = b' ';
    end + 1
}
