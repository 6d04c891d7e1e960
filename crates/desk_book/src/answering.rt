//! Answering calls.

ghost use Rattle.auction_terms.specs.declared.limits.TheConstants.{MOST_BIDS};
ghost use Rattle.std.specs.Prelude.{◌≡◌, ◌≤◌, IfOk, Ok, Some, length};
ghost use Rattle.desk_book.specs.Answers.{IsTold, untaken_of};
ghost use Rattle.desk_book.specs.Judging.{judged};
ghost use Rattle.desk_book.specs.Recording.{MayBeCalled, asked_by};
ghost use Rattle.desk_book.specs.Replies.{again_line, line_count, other_line, refused_line, taken_line, text_in, untaken_line};

use crate::asked::Asked;
use crate::calls::Call;
use crate::desk::Desk;
use crate::entries::name_of;
use crate::judge::Judge;
use crate::recording::Recorded;
use crate::replies::taken_line;
use crate::untaken::Untaken;
use crate::writing::{add_next, add_next_number};
use std::alloc::{AllocError, Global};

/// What a call is told, and its entry; the entry has no bytes where nothing is recorded.
#[derive(Drop)]
pub(crate) struct Told {
    pub(crate) line: Vec<u8>,
    pub(crate) entry: Vec<u8>,
}

// What is recorded of a call, if its form has so many bids.
fn asked_by<'c>(call: &Call<'c>, bids: u32) -> Asked<'c>
    ensures { result ≡ asked_by call.now bids }
{
    match call {
        Call::Submit(submission) => Asked::Submit {
            who: submission.who,
            over: submission.over,
            commit: submission.commit,
            bids,
            sealed: submission.sealed,
        },
        Call::Withdraw { who, over } => Asked::Withdraw {
            who: *who,
            over: *over,
        },
        Call::Show { who } => Asked::Show { who: *who },
        Call::Close { time } => Asked::Close { time: *time },
    }
}

// How many lines these bytes are.
fn line_count(bytes: &[u8]) -> usize
    ensures { result ≡ line_count bytes.now }
{
    bytes.iter().filter(|byte| **byte == b'\n').count()
}

// The text that a call hands in.
fn text_of<'c>(call: &Call<'c>) -> &'c [u8]
    ensures { result.now ≡ text_in call.now }
{
    match call {
        Call::Submit(submission) => submission.text,
        Call::Withdraw { .. } | Call::Show { .. } | Call::Close { .. } => b"",
    }
}

impl<J: Judge + Drop> Desk<J> {
    // The lines that tell the faults of a form, with their number before them.
    fn refused_line(&self, alloc: Global, text: &[u8]) -> Result<Vec<u8>, AllocError>
        ensures { IfOk result (λ line. line.items ≡ refused_line (J.faults self.now.judge self.now.rules_text.items text.now)) }
    {
        let rules = self.rules_text.as_slice();
        let lines = self.judge.fault_lines(alloc, rules, text)?;
        let mut line = Vec::from_slice(alloc, b"- refused")?;
        add_next_number(&mut line, line_count(lines.as_slice()) as u64)?;
        line.push(b'\n')?;
        line.extend_from_slice(lines.as_slice())?;
        Ok(line)
    }

    // The line of a form that another bidder's name is in.
    fn other_line(&self, alloc: Global, bidder: u16) -> Result<Vec<u8>, AllocError>
        ensures { IfOk result (λ line. line.items ≡ other_line self.now.rules bidder) }
    {
        let mut line = Vec::from_slice(alloc, b"- other-bidder")?;
        add_next(&mut line, name_of(&self.rules, bidder))?;
        line.push(b'\n')?;
        Ok(line)
    }

    // The lines that tell why nothing is recorded of a call.
    fn untaken_line(
        &self,
        alloc: Global,
        call: &Call<'_>,
        untaken: Untaken,
    ) -> Result<Vec<u8>, AllocError>
        ensures { IfOk result (λ line. line.items ≡ untaken_line J.faults self.now call.now untaken) }
    {
        match untaken {
            Untaken::RoundOver => Vec::from_slice(alloc, b"- round over\n"),
            Untaken::ClosedBefore => Vec::from_slice(alloc, b"- closed before\n"),
            Untaken::BadCommit => Vec::from_slice(alloc, b"- bad-commit\n"),
            Untaken::Refused => self.refused_line(alloc, text_of(call)),
            Untaken::NoLineEnd => Vec::from_slice(alloc, b"- no line end\n"),
            Untaken::OtherBidder { bidder } => self.other_line(alloc, bidder),
            Untaken::Again { number, entry } => again_line(alloc, number, entry),
            Untaken::DiskFull => Vec::from_slice(alloc, b"- disk full\n"),
            Untaken::CallLimit => Vec::from_slice(alloc, b"- call limit\n"),
        }
    }

    // Tells why nothing is recorded of a call.
    fn tell_untaken(
        &self,
        alloc: Global,
        call: &Call<'_>,
        untaken: Untaken,
    ) -> Result<Told, AllocError>
        requires { untaken_of self.now call.now ≡ Some untaken }
        ensures { IfOk result (λ told. IsTold J.faults self.now call.now told.line.items told.entry.items self.now) }
    {
        let line = self.untaken_line(alloc, call, untaken)?;
        Ok(Told {
            line,
            entry: Vec::new(alloc),
        })
    }

    // Tells what the book answered a call.
    fn tell_taken(
        &self,
        alloc: Global,
        call: &Call<'_>,
        bids: u32,
        recorded: Recorded,
    ) -> Result<Told, AllocError>
        ensures line { IfOk result (λ told. told.line.items
            ≡ taken_line (length self.now.book) call.now bids recorded.answer self.now.chain) }
        ensures entry { IfOk result (λ told. told.entry.items ≡ recorded.entry.items) }
    {
        let Recorded { answer, entry } = recorded;
        let line = taken_line(alloc, self.entries(), call, bids, &answer, &self.chain)?;
        Ok(Told { line, entry })
    }

    // Answers a call that was judged: its form, if it has one, has so many bids.
    fn take(&mut self, alloc: Global, call: &Call<'_>, bids: u32) -> Result<Told, AllocError>
        requires judged { judged self.old call.now ≡ Ok bids }
        requires few { bids ≤ MOST_BIDS }
        requires may { MayBeCalled self.old.rules call.now }
        ensures { IfOk result (λ told. IsTold J.faults self.old call.now told.line.items told.entry.items self.new) }
    {
        let asked = asked_by(call, bids);
        if !self.has_room(&asked) {
            return self.tell_untaken(alloc, call, Untaken::DiskFull);
        }
        match self.record(alloc, &asked)? {
            Some(recorded) => self.tell_taken(alloc, call, bids, recorded),
            None => self.tell_untaken(alloc, call, Untaken::CallLimit),
        }
    }

    /// Answers a call.
    pub(crate) fn answer(&mut self, alloc: Global, call: &Call<'_>) -> Result<Told, AllocError>
        requires { MayBeCalled self.old.rules call.now }
        ensures { IfOk result (λ told. IsTold J.faults self.old call.now told.line.items told.entry.items self.new) }
    {
        match self.judge_call(alloc, call)? {
            Ok(bids) => self.take(alloc, call, bids),
            Err(untaken) => self.tell_untaken(alloc, call, untaken),
        }
    }
}

// The line of the form that stands already.
fn again_line(alloc: Global, number: u32, entry: u64) -> Result<Vec<u8>, AllocError>
    ensures { IfOk result (λ line. line.items ≡ again_line number entry) }
{
    let mut line = Vec::from_slice(alloc, b"- again")?;
    add_next_number(&mut line, u64::from(number))?;
    add_next_number(&mut line, entry)?;
    line.push(b'\n')?;
    Ok(line)
}
