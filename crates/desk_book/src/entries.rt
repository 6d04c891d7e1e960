//! The entries of a journal, as text.

ghost use Rattle.std.specs.Prelude.{◌≡◌, ◌<◌, ◌^◌, ◌++◌, IfOk, IfSome, OnOk, true};
ghost use Rattle.desk_book.specs.Entries.{answer_number, name_word, call_words, chain_after, entry_front, entry_head, entry_tail, maker_words, who_words, with_chain};
ghost use Rattle.desk_book.specs.Recording.{IsMakerNamed, is_maker_word};
ghost use Rattle.desk_book.specs.Words.{spaced};

use crate::answer::Answer;
use crate::asked::Asked;
use crate::calls::Who;
use crate::digests::digest_of_both;
use crate::writing::{add_next, add_next_number, add_next_or};
use auction_terms::Rules;
use std::alloc::{AllocError, Global};

/// The name of a bidder.
pub(crate) fn name_of(rules: &Rules, bidder: u16) -> &[u8]
    ensures name { result.now ≡ name_word rules.now bidder }
    ensures word { is_maker_word result.now ≡ true }
{
    let Some(place) = usize::from(bidder).checked_sub(1) else {
        return b"-".as_slice();
    };
    match rules.bidders().get(place) {
        Some(bidder) => bidder.name.as_bytes(),
        None => b"-".as_slice(),
    }
}

// Adds who makes a call, and when.
fn add_who(text: &mut Vec<u8>, rules: &Rules, who: &Who) -> Result<(), AllocError>
    ensures named { OnOk result (is_maker_word (name_word rules.now who.now.bidder) ≡ true) }
    ensures text { OnOk result (text.new.items ≡ text.old.items ++ spaced (who_words rules.now who.now)) }
{
    add_next_number(text, who.time)?;
    add_next(text, name_of(rules, who.bidder))?;
    add_next_number(text, u64::from(who.session))
}

// Adds who makes a call that may be recorded, and when; a close is nobody's.
fn add_maker(text: &mut Vec<u8>, rules: &Rules, asked: &Asked<'_>) -> Result<(), AllocError>
    ensures named { OnOk result (IsMakerNamed rules.now asked.now) }
    ensures text { OnOk result (text.new.items ≡ text.old.items ++ spaced (maker_words rules.now asked.now)) }
{
    match asked {
        Asked::Submit { who, .. } => add_who(text, rules, who),
        Asked::Withdraw { who, .. } => add_who(text, rules, who),
        Asked::Show { who } => add_who(text, rules, who),
        Asked::Close { time } => {
            add_next_number(text, *time)?;
            text.extend_from_slice(b" - 0")
        }
    }
}

// Adds what is asked.
fn add_call(text: &mut Vec<u8>, asked: &Asked<'_>) -> Result<(), AllocError>
    ensures { OnOk result (text.new.items ≡ text.old.items ++ spaced (call_words asked.now)) }
{
    add_next(text, asked.kind())?;
    add_next_or(text, asked.over(), b"-")?;
    add_next(text, asked.commit_word())?;
    add_next_number(text, u64::from(asked.bids()))
}

// Adds an entry's head line, if so many bytes of the journal were on the disk when it was written.
fn add_head(
    text: &mut Vec<u8>,
    rules: &Rules,
    number: u64,
    asked: &Asked<'_>,
    durable: u64,
) -> Result<(), AllocError>
    ensures named { OnOk result (IsMakerNamed rules.now asked.now) }
    ensures text { OnOk result (text.new.items ≡ text.old.items ++ entry_head rules.now number asked.now durable) }
{
    text.extend_from_slice(b"%call")?;
    add_next_number(text, number)?;
    add_maker(text, rules, asked)?;
    add_call(text, asked)?;
    add_next_number(text, asked.sealed().len() as u64)?;
    add_next_number(text, durable)?;
    text.push(b'\n')?;
    Ok(())
}

// Adds what an entry has behind the sealed form, up to its chain.
fn add_tail(text: &mut Vec<u8>, answer: &Answer) -> Result<(), AllocError>
    ensures number { OnOk result (IfSome (answer_number answer.now) (λ n. n < 2 ^ 32)) }
    ensures text { OnOk result (text.new.items ≡ text.old.items ++ entry_tail answer.now) }
{
    text.extend_from_slice(b"\n%reply")?;
    add_next(text, answer.word())?;
    add_next_or(text, answer.number(), b"-")?;
    text.push(b' ')?;
    Ok(())
}

/// What an entry has of a journal of which so many bytes were on the disk, up to its chain.
pub(crate) fn front_text(
    alloc: Global,
    rules: &Rules,
    number: u64,
    asked: &Asked<'_>,
    answer: &Answer,
    durable: u64,
) -> Result<Vec<u8>, AllocError>
    ensures named { OnOk result (IsMakerNamed rules.now asked.now) }
    ensures number { OnOk result (IfSome (answer_number answer.now) (λ n. n < 2 ^ 32)) }
    ensures text { IfOk result (λ text. text.items ≡ entry_front rules.now number asked.now answer.now durable) }
{
    let mut text = Vec::new(alloc);
    add_head(&mut text, rules, number, asked, durable)?;
    text.extend_from_slice(asked.sealed())?;
    add_tail(&mut text, answer)?;
    Ok(text)
}

/// Adds the chain's end with an entry, and gives it.
pub(crate) fn end_entry(text: &mut Vec<u8>, chain: &[u8; 64]) -> Result<[u8; 64], AllocError>
    ensures chain { IfOk result (λ linked. linked ≡ chain_after chain.now text.old.items) }
    ensures text { OnOk result (text.new.items ≡ with_chain chain.now text.old.items) }
{
    let linked = digest_of_both(chain, text.as_slice());
    text.extend_from_slice(&linked)?;
    text.push(b'\n')?;
    Ok(linked)
}
