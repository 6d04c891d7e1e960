//! Recording calls.

ghost use Rattle.std.specs.Prelude.{◌≡◌, ◌++◌, ◌∷◌, [], IfOk, None, MatchOption};
ghost use Rattle.bid_book.specs.History.{reply_due};
ghost use Rattle.desk_book.specs.Asking.{MayBeAsked};
ghost use Rattle.desk_book.specs.Recording.{IsRecordedAs, answer_due, answer_in, book_call, has_room, made_by, most_with};

use crate::answer::{Answer, answer_of};
use crate::asked::Asked;
use crate::commitment::Commitment;
use crate::desk::Desk;
use crate::entries::{end_entry, front_text};
use crate::judge::Judge;
use crate::limits::{ENTRY_LEN, JOURNAL_LIMIT, LAST_ROOM};
use bid_book::Book;
use std::alloc::{AllocError, Global};

/// What the book answered a call, and the entry of that.
#[derive(Drop)]
pub(crate) struct Recorded {
    pub(crate) answer: Answer,
    pub(crate) entry: Vec<u8>,
}

// The most bytes that a journal may have with the entry of a call.
fn most_with(asked: &Asked<'_>) -> u64
    ensures { result ≡ most_with asked.now }
{
    match asked {
        Asked::Submit { .. } | Asked::Show { .. } => JOURNAL_LIMIT - LAST_ROOM,
        Asked::Withdraw { .. } | Asked::Close { .. } => JOURNAL_LIMIT,
    }
}

// Has a book answer a call, as the entry of this number. Nothing is recorded where the caller has no call left.
fn ask(
    alloc: Global,
    book: &mut Book<Commitment>,
    asked: &Asked<'_>,
    number: u64,
) -> Result<Option<Answer>, AllocError>
    ensures answer { IfOk result (λ answer. answer ≡ answer_in (reply_due book.old (made_by asked.now) (book_call number asked.now))) }
    ensures recorded { IfOk result (λ answer. MatchOption answer (book.new ≡ book.old)
        (λ _. book.new ≡ book.old ++ record {
          caller = made_by asked.now;
          call = book_call number asked.now;
          reply = reply_due book.old (made_by asked.now) (book_call number asked.now);
        } ∷ [])) }
{
    let call = asked.book_call(alloc, number)?;
    match book.step(asked.caller(), call) {
        Ok(reply) => Ok(answer_of(&reply)),
        Err(_) => Err(AllocError),
    }
}

impl<J: Judge + Drop> Desk<J> {
    /// Whether the journal has room for the entry of a call.
    pub(crate) fn has_room(&self, asked: &Asked<'_>) -> bool
        ensures { result ≡ has_room self.now.extent asked.now }
    {
        let len = asked.sealed().len() as u64;
        self.extent.saturating_add(len).saturating_add(ENTRY_LEN) <= most_with(asked)
    }

    /// Has the book answer a call, and makes its entry. Where the bidder has no call left, nothing is recorded.
    pub(crate) fn record(
        &mut self,
        alloc: Global,
        asked: &Asked<'_>,
    ) -> Result<Option<Recorded>, AllocError>
        requires { MayBeAsked self.old.rules asked.now }
        ensures { IfOk result (λ r. MatchOption r ((self.new ≡ self.old) × (answer_due self.old asked.now ≡ None))
            (λ r. IsRecordedAs self.old asked.now r.answer r.entry.items self.new)) }
    {
        let number = self.next_number();
        let Some(answer) = ask(alloc, &mut self.book, asked, number)? else {
            return Ok(None);
        };
        let mut entry = front_text(alloc, &self.rules, number, asked, &answer, self.durable)?;
        let chain = end_entry(&mut entry, &self.chain)?;
        let Some(extent) = self.extent.checked_add(entry.len() as u64) else {
            return Err(AllocError);
        };
        self.extent = extent;
        self.chain = chain;
        Ok(Some(Recorded { answer, entry }))
    }
}
