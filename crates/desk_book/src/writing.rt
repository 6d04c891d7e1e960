//! Words and numbers of replies and entries.

ghost use Rattle.std.specs.Prelude.{◌≡◌, ◌++◌, ◌∷◌, OnOk, decimal};
ghost use Rattle.desk_book.specs.Words.{number_or};

use itoa::Buffer;
use std::alloc::AllocError;

/// Adds a number.
pub(crate) fn add_number(text: &mut Vec<u8>, number: u64) -> Result<(), AllocError>
    ensures { OnOk result (text.new.items ≡ text.old.items ++ decimal number) }
{
    let mut digits = Buffer::new();
    text.extend_from_slice(digits.format(number).as_bytes())
}

/// Adds a blank and a number.
pub(crate) fn add_next_number(text: &mut Vec<u8>, number: u64) -> Result<(), AllocError>
    ensures { OnOk result (text.new.items ≡ text.old.items ++ 32 ∷ decimal number) }
{
    text.push(b' ')?;
    add_number(text, number)
}

/// Adds a blank and a word.
pub(crate) fn add_next(text: &mut Vec<u8>, word: &[u8]) -> Result<(), AllocError>
    ensures { OnOk result (text.new.items ≡ text.old.items ++ 32 ∷ word.now) }
{
    text.push(b' ')?;
    text.extend_from_slice(word)
}

/// Adds a blank and a number, or a word where there is none.
pub(crate) fn add_next_or(
    text: &mut Vec<u8>,
    number: Option<u32>,
    none: &[u8],
) -> Result<(), AllocError>
    ensures { OnOk result (text.new.items ≡ text.old.items ++ 32 ∷ number_or none.now number) }
{
    match number {
        Some(number) => add_next_number(text, u64::from(number)),
        None => add_next(text, none),
    }
}
