//! The entries of a column of a selection.

ghost use Rattle.std.specs.Prelude.{◌≡◌, ◌<◌, Some, length, option_map, slice_get, slice_index};
ghost use Rattle.program_rows.specs.inside.Seen.{seen_entries};

use std::marker::Model;

/// Places of rows, rising, and the coefficients there.
#[derive(Drop)]
pub struct Entries<'e> {
    entries: &'e [(usize, i64)],
    /// The number of each row in the selection, if that isn't its place.
    numbers: Option<&'e [usize]>,
}

impl<'e> Model for Entries<'e> {
    ghost use Rattle.std.specs.Prelude.{List, ℕ, ℤ, option_map};
    ghost use Rattle.program_rows.specs.inside.Seen.{seen_entries};

    ghost Value = { List (ℕ × ℤ) };

    ghost view = { λ e. seen_entries (option_map (λ numbers. numbers.now) e.numbers) e.entries.now };
}

fn number_at(numbers: &[usize], row: usize) -> usize
    ensures { result ≡ slice_index numbers.now row }
{
    if row < numbers.len() { numbers[row] } else { 0 }
}

impl<'e> Entries<'e> {
    ghost use Rattle.std.specs.Prelude.{◌<◌, Some, length, option_map, slice_get};
    ghost use Rattle.program_rows.specs.inside.Seen.{seen_entries};

    pub(crate) fn new(entries: &'e [(usize, i64)], numbers: Option<&'e [usize]>) -> Entries<'e>
        ensures { result ≡ seen_entries (option_map (λ numbers. numbers.now) numbers.entry) entries.now }
    {
        Entries { entries, numbers }
    }

    /// The number of entries.
    pub fn len(&self) -> usize
        ensures { result ≡ length self.now }
    {
        self.entries.len()
    }

    /// An entry, by the number of its row in the selection.
    pub fn entry(&self, place: usize) -> (usize, i64)
        requires { place < length self.now }
        ensures { slice_get self.now place ≡ Some result }
    {
        let entries = self.entries;
        let (row, number) = entries[place];
        match self.numbers {
            None => (row, number),
            Some(numbers) => (number_at(numbers, row), number),
        }
    }
}
