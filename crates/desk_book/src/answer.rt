//! What the book answers a call that is recorded.

ghost use Rattle.std.specs.Prelude.{◌≡◌, ◌≢◌, MatchOption};
ghost use Rattle.bid_book.specs.History.{reply_value};
ghost use Rattle.bid_book.specs.declared.reply.Reply.TheVariants.{CallLimit};
ghost use Rattle.desk_book.specs.Entries.{answer_number, answer_word};
ghost use Rattle.desk_book.specs.Recording.{answer_in};

use crate::commitment::Commitment;
use bid_book::Reply;
use std::alloc::Global;
use std::sync::Arc;

/// What the book answers a call that is recorded: what was done, and the number of the change that was made or that stands.
#[derive(Clone, Copy, Debug, PartialEq, Eq)]
pub enum Answer {
    Accepted { number: u32 },
    Withdrawn { number: u32 },
    Stands { number: Option<u32> },
    Stale { number: Option<u32> },
    Closed,
    Over,
}

/// The answer of a reply, unless the bidder has no call left.
pub(crate) fn answer_of(reply: &Reply<Arc<Commitment, Global>>) -> Option<Answer>
    ensures value { result ≡ answer_in (reply_value reply.now) }
    ensures limit { MatchOption result (reply_value reply.now ≡ CallLimit) (λ _. reply_value reply.now ≢ CallLimit) }
{
    match reply {
        Reply::Accepted { number } => Some(Answer::Accepted { number: *number }),
        Reply::Withdrawn { number } => Some(Answer::Withdrawn { number: *number }),
        Reply::Shown { standing: None } => Some(Answer::Stands { number: None }),
        Reply::Shown {
            standing: Some(standing),
        } => Some(Answer::Stands {
            number: Some(standing.number),
        }),
        Reply::Stale { standing } => Some(Answer::Stale { number: *standing }),
        Reply::Closed { .. } => Some(Answer::Closed),
        Reply::RoundOver => Some(Answer::Over),
        Reply::CallLimit => None,
    }
}

impl Answer {
    /// What was done, in a word.
    pub(crate) fn word(&self) -> &'static [u8]
        ensures { result.now ≡ answer_word self.now }
    {
        match self {
            Answer::Accepted { .. } => b"accepted",
            Answer::Withdrawn { .. } => b"withdrawn",
            Answer::Stands { .. } => b"stands",
            Answer::Stale { .. } => b"stale",
            Answer::Closed => b"closed",
            Answer::Over => b"over",
        }
    }

    /// The number of the change that was made, or that stands.
    pub(crate) fn number(&self) -> Option<u32>
        ensures { result ≡ answer_number self.now }
    {
        match self {
            Answer::Accepted { number } | Answer::Withdrawn { number } => Some(*number),
            Answer::Stands { number } | Answer::Stale { number } => *number,
            Answer::Closed | Answer::Over => None,
        }
    }
}
