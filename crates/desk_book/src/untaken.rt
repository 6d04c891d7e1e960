//! Why nothing is recorded of a call.

ghost use Rattle.std.specs.Prelude.{◌≡◌, ◌≤◌, IfOk, length};
ghost use Rattle.auction_terms.specs.declared.limits.TheConstants.{MOST_BIDS};
ghost use Rattle.desk_book.specs.Judging.{ends_line, judged, judged_form, judged_open, judged_submission, over_for, standing_with};

use crate::calls::{Call, Submission};
use crate::desk::Desk;
use crate::digests::commit_of;
use crate::judge::Judge;
use bid_forms::{Form, FormFault, read_form};
use std::alloc::{AllocError, Global};

/// Why nothing is recorded of a call.
#[derive(Clone, Copy, Debug, PartialEq, Eq)]
pub enum Untaken {
    /// The round is closed.
    RoundOver,
    /// It was closed before.
    ClosedBefore,
    /// The commitment isn't that of the salt and the text.
    BadCommit,
    /// The form has faults.
    Refused,
    /// The last line of the text has no end.
    NoLineEnd,
    /// The form is another bidder's.
    OtherBidder { bidder: u16 },
    /// The form of this change stands already, by this entry.
    Again { number: u32, entry: u64 },
    /// The journal has no room for it.
    DiskFull,
    /// The bidder has no call left.
    CallLimit,
}

// Why nothing is recorded of a call after the close.
fn over_for(call: &Call<'_>) -> Untaken
    ensures { result ≡ over_for call.now }
{
    match call {
        Call::Submit(_) | Call::Withdraw { .. } | Call::Show { .. } => Untaken::RoundOver,
        Call::Close { .. } => Untaken::ClosedBefore,
    }
}

/// Whether the last line of a text has its end.
pub(crate) fn ends_line(text: &[u8]) -> bool
    ensures { result ≡ ends_line text.now }
{
    match text.last() {
        Some(byte) => *byte == b'\n',
        None => false,
    }
}

impl<J: Judge + Drop> Desk<J> {
    // The number and the entry of the form that stands, if it is the one with this commitment.
    fn standing_with(&self, bidder: u16, commit: &[u8; 64]) -> Option<(u32, u64)>
        ensures { result ≡ standing_with self.now.book bidder commit.now }
    {
        let standing = self.book.standing(bidder)?;
        if standing.form.commit == *commit {
            Some((standing.number, standing.form.entry))
        } else {
            None
        }
    }

    // Judges a text that is a form: how many bids it has, or why nothing is recorded.
    fn judge_form(&self, submission: &Submission<'_>, form: &Form) -> Result<u32, Untaken>
        requires { length form.now.bids ≤ MOST_BIDS }
        ensures judged { result ≡ judged_form self.now submission.now form.now }
        ensures few { IfOk result (λ bids. bids ≤ MOST_BIDS) }
    {
        if !ends_line(submission.text) {
            return Err(Untaken::NoLineEnd);
        }
        let bidder = form.bidder();
        if bidder != submission.who.bidder {
            return Err(Untaken::OtherBidder { bidder });
        }
        match self.standing_with(bidder, &submission.commit) {
            Some((number, entry)) => Err(Untaken::Again { number, entry }),
            None => Ok(form.bids().len() as u32),
        }
    }

    // Judges a form that is handed in.
    fn judge_submission(
        &self,
        alloc: Global,
        submission: &Submission<'_>,
    ) -> Result<Result<u32, Untaken>, AllocError>
        ensures judged { IfOk result (λ judgement. judgement ≡ judged_submission self.now submission.now) }
        ensures few { IfOk result (λ judgement. IfOk judgement (λ bids. bids ≤ MOST_BIDS)) }
    {
        if commit_of(&submission.salt, submission.text) != submission.commit {
            return Ok(Err(Untaken::BadCommit));
        }
        match read_form(alloc, submission.text, &self.rules) {
            Ok(form) => Ok(self.judge_form(submission, &form)),
            Err(FormFault::OutOfMemory) => Err(AllocError),
            Err(_) => Ok(Err(Untaken::Refused)),
        }
    }

    /// Judges a call: how many bids the form has, if one is handed in, or why nothing is recorded.
    pub(crate) fn judge_call(
        &self,
        alloc: Global,
        call: &Call<'_>,
    ) -> Result<Result<u32, Untaken>, AllocError>
        ensures judged { IfOk result (λ judgement. judgement ≡ judged self.now call.now) }
        ensures few { IfOk result (λ judgement. IfOk judgement (λ bids. bids ≤ MOST_BIDS)) }
    {
        if !self.book.is_open() {
            return Ok(Err(over_for(call)));
        }
        match call {
            Call::Submit(submission) => self.judge_submission(alloc, submission),
            Call::Withdraw { .. } | Call::Show { .. } | Call::Close { .. } => Ok(Ok(0)),
        }
    }
}
