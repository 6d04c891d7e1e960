//! Calls that may be recorded.

ghost use Rattle.std.specs.Prelude.{◌≡◌, IfOk};
ghost use Rattle.bid_book.specs.declared.call.Caller.TheVariants as caller;
ghost use Rattle.bid_book.specs.History.{call_value};
ghost use Rattle.desk_book.specs.Entries.{bids_with, change_over, commit_word, kind_word, sealed_of};
ghost use Rattle.desk_book.specs.Recording.{book_call, made_by};

use crate::calls::Who;
use crate::commitment::Commitment;
use bid_book::{Call as BookCall, Caller};
use std::alloc::{AllocError, Global};
use std::sync::Arc;

/// A call that may be recorded. Of a form that is handed in it has the commitment, the number of bids, and the form as it is sealed.
#[derive(Clone, Copy)]
pub enum Asked<'c> {
    Submit {
        who: Who,
        over: Option<u32>,
        commit: [u8; 64],
        bids: u32,
        sealed: &'c [u8],
    },
    Withdraw {
        who: Who,
        over: u32,
    },
    Show {
        who: Who,
    },
    Close {
        time: u64,
    },
}

// Who makes a call, as the book has it.
fn session_of(who: &Who) -> Caller
    ensures { result ≡ caller.Session who.now.bidder who.now.session }
{
    Caller::Session {
        bidder: who.bidder,
        session: who.session,
    }
}

impl<'c> Asked<'c> {
    /// Who makes it, as the book has it.
    pub(crate) fn caller(&self) -> Caller
        ensures { result ≡ made_by self.now }
    {
        match self {
            Asked::Submit { who, .. } | Asked::Withdraw { who, .. } | Asked::Show { who } => {
                session_of(who)
            }
            Asked::Close { .. } => Caller::Chair,
        }
    }

    /// What it asks for, in a word.
    pub(crate) fn kind(&self) -> &'static [u8]
        ensures { result.now ≡ kind_word self.now }
    {
        match self {
            Asked::Submit { .. } => b"submit",
            Asked::Withdraw { .. } => b"withdraw",
            Asked::Show { .. } => b"show",
            Asked::Close { .. } => b"close",
        }
    }

    /// The change that it is made over.
    pub(crate) fn over(&self) -> Option<u32>
        ensures { result ≡ change_over self.now }
    {
        match self {
            Asked::Submit { over, .. } => *over,
            Asked::Withdraw { over, .. } => Some(*over),
            Asked::Show { .. } | Asked::Close { .. } => None,
        }
    }

    /// How many bids its form has.
    pub(crate) fn bids(&self) -> u32
        ensures { result ≡ bids_with self.now }
    {
        match self {
            Asked::Submit { bids, .. } => *bids,
            Asked::Withdraw { .. } | Asked::Show { .. } | Asked::Close { .. } => 0,
        }
    }

    /// The commitment that it brings; a hyphen for none.
    pub(crate) fn commit_word(&self) -> &[u8]
        ensures { result.now ≡ commit_word self.now }
    {
        match self {
            Asked::Submit { commit, .. } => commit,
            Asked::Withdraw { .. } | Asked::Show { .. } | Asked::Close { .. } => b"-",
        }
    }

    /// The sealed form, where one is handed in.
    pub(crate) fn sealed(&self) -> &'c [u8]
        ensures { result.now ≡ sealed_of self.now }
    {
        match self {
            Asked::Submit { sealed, .. } => sealed,
            Asked::Withdraw { .. } | Asked::Show { .. } | Asked::Close { .. } => b"",
        }
    }

    /// The call that the book gets, if this is to be the entry of that number.
    pub(crate) fn book_call(
        &self,
        alloc: Global,
        entry: u64,
    ) -> Result<BookCall<Arc<Commitment, Global>>, AllocError>
        ensures { IfOk result (λ call. call_value call ≡ book_call entry self.now) }
    {
        match self {
            Asked::Submit {
                who,
                over,
                commit,
                bids,
                ..
            } => {
                let form = Commitment {
                    bidder: who.bidder,
                    bids: *bids,
                    entry,
                    commit: *commit,
                };
                Ok(BookCall::Submit {
                    form: Arc::new(alloc, form)?,
                    over: *over,
                })
            }
            Asked::Withdraw { over, .. } => Ok(BookCall::Withdraw { over: *over }),
            Asked::Show { .. } => Ok(BookCall::Show),
            Asked::Close { .. } => Ok(BookCall::Close),
        }
    }
}
