// The names of rows and columns.
ghost use Rattle.std.specs.Prelude.{◌≡◌, ◌≤◌, ◌+◌, ◌∷◌, ◌++◌, IfOk, codes, decimal, drop, length};
ghost use Rattle.program_rows.specs.Spelling.{bid_name};

use itoa::write_digits;
use std::alloc::{AllocError, Global};

/// The longest name of a bid's column: two letters and two numbers of up to five digits.
pub(crate) const NAME_LEN: usize = 12;

/// The name of the objective.
pub(crate) fn objective_name(alloc: Global) -> Result<Vec<u8>, AllocError>
    ensures { IfOk result (λ name. name.items ≡ codes "OBJ") }
{
    let name = format!(in alloc; "OBJ")?;
    Ok(name.into_bytes())
}

/// Writes a letter and a number so that they end at `end`, and returns where they begin.
fn write_numbered(name: &mut [u8], letter: u8, number: u16, end: usize) -> usize
    requires room { 6 ≤ end }
    requires within { end ≤ length name.old }
    ensures written { drop result name.new ≡ letter ∷ (decimal number ++ drop end name.old) }
    ensures start { end ≤ result + 6 }
    ensures before { result ≤ end }
    ensures length { length name.new ≡ length name.old }
{
    let at = write_digits(u64::from(number), name, end);
    name[at - 1] = letter;
    at - 1
}

/// A letter and a number.
pub(crate) fn numbered(alloc: Global, letter: u8, number: u16) -> Result<Vec<u8>, AllocError>
    ensures { IfOk result (λ name. name.items ≡ letter ∷ decimal number) }
{
    let mut name = [0; 6];
    let start = write_numbered(&mut name, letter, number, 6);
    Vec::from_slice(alloc, &name[start..])
}

/// Writes the name of the column of a bid at the end of a block, and returns where it begins.
pub(crate) fn write_bid_name(name: &mut [u8; NAME_LEN], bidder: u16, bid: u16) -> usize
    ensures name { drop result name.new ≡ bid_name bidder bid }
    ensures within { result ≤ 12 }
{
    let bid_at = write_numbered(name, b'_', bid, NAME_LEN);
    write_numbered(name, b'X', bidder, bid_at)
}
