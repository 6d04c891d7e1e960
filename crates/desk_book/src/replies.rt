//! The lines of replies.

ghost use Rattle.std.specs.Prelude.{◌≡◌, ◌∷◌, ◌++◌, [], IfOk, OnOk};
ghost use Rattle.desk_book.specs.Replies.{change_words, form_words, taken_line};
ghost use Rattle.desk_book.specs.Words.{spaced};

use crate::answer::Answer;
use crate::calls::Call;
use crate::digests::digest_of;
use crate::writing::{add_next, add_next_number, add_next_or, add_number};
use std::alloc::{AllocError, Global};

// Adds the number of a change, unless it is a close.
fn add_change(line: &mut Vec<u8>, answer: &Answer) -> Result<(), AllocError>
    ensures { OnOk result (line.new.items ≡ line.old.items ++ spaced (change_words answer.now)) }
{
    match answer {
        Answer::Accepted { number } | Answer::Withdrawn { number } => {
            add_next_number(line, u64::from(*number))
        }
        Answer::Stands { number } | Answer::Stale { number } => {
            add_next_or(line, *number, b"none")
        }
        Answer::Closed | Answer::Over => Ok(()),
    }
}

// Adds how many bids a form has, and its digest, if it was accepted.
fn add_form(
    line: &mut Vec<u8>,
    call: &Call<'_>,
    bids: u32,
    answer: &Answer,
) -> Result<(), AllocError>
    ensures { OnOk result (line.new.items ≡ line.old.items ++ spaced (form_words call.now bids answer.now)) }
{
    match (call, answer) {
        (Call::Submit(submission), Answer::Accepted { .. }) => {
            add_next_number(line, u64::from(bids))?;
            add_next(line, &digest_of(submission.text))
        }
        _ => Ok(()),
    }
}

/// The line that tells what the book answered a call, whose entry has this number.
pub(crate) fn taken_line(
    alloc: Global,
    number: u64,
    call: &Call<'_>,
    bids: u32,
    answer: &Answer,
    chain: &[u8; 64],
) -> Result<Vec<u8>, AllocError>
    ensures { IfOk result (λ line. line.items ≡ taken_line number call.now bids answer.now chain.now) }
{
    let mut line = Vec::new(alloc);
    add_number(&mut line, number)?;
    add_next(&mut line, answer.word())?;
    add_change(&mut line, answer)?;
    add_form(&mut line, call, bids, answer)?;
    add_next(&mut line, chain)?;
    line.push(b'\n')?;
    Ok(line)
}
