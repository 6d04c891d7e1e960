//! What is held under the lock.

ghost use Rattle.std.specs.Prelude.{◌≡◌, ◌≢◌, ◌<◌, ◌∷◌, ◌++◌, [], map, length, vec_len, vec_capacity, Option, IfOk, OnErr, All, not, true};
ghost use Rattle.std.specs.Option.{option_map};
ghost use Rattle.std.specs.Arc.{arc_value};
ghost use Rattle.auction_terms.specs.Terms.{AreTerms};
ghost use Rattle.bid_forms.specs.Offers.{Offers, Meets};
ghost use Rattle.bid_book.specs.declared.reply.Reply.TheVariants.{Shown};
ghost use Rattle.bid_book.specs.History.{entry_value, call_value, reply_value, standing_value, reply_due, standing_of, MayMake, IsLegalHistory, is_closed};
ghost use Rattle.bid_desk.specs.Closing.{closing};
ghost use Rattle.bid_desk.specs.Holding.{caller_of, CallMeets, IsEntryOf, IsRecordedBy, IsRecordedByChair};

use crate::chair::Chair;
use crate::closed::ClosedBook;
use crate::desk::Round;
use crate::session::Session;
use auction_terms::Rules;
use bid_book::{Book, Call, Caller, Entry, Reply, Standing, StepError};
use bid_forms::Form;
use std::alloc::{AllocError, Global};
use std::marker::Model;
use std::sync::{Arc, ledger};

/// Why a call was not made.
#[derive(Clone, Copy, PartialEq, Eq, Debug)]
pub enum DeskError {
    OutOfMemory,
}

/// The book, and the count of its entries.
#[derive(Drop)]
pub struct Held<L: Round> {
    pub(crate) book: Book,
    pub(crate) count: ledger::Book<L>,
}

impl<L: Round> Model for Held<L> {
    ghost use Rattle.std.specs.Prelude.{◌≡◌, length, All};
    ghost use Rattle.bid_desk.specs.Holding.{Holding, IsEntryOf};

    ghost Value = { Holding };

    ghost view = { λ h. record { history = h.book; count = h.count.total } };

    ghost invariant = { λ h. (h.count.total ≡ length h.book) × All (IsEntryOf L.rules) h.book };
}

impl<L: Round> Held<L> {
    /// The entries in order: a legal history under the rules, and as many as the count says.
    pub fn history(&self) -> &[Entry]
        ensures entries { map entry_value result.now ≡ self.now.history }
        ensures legal { IsLegalHistory self.now.history }
        ensures rules { All (IsEntryOf L.rules) self.now.history }
        ensures count { self.now.count ≡ length self.now.history }
    {
        self.book.history()
    }

    /// Whether the chair has not closed yet.
    pub(crate) fn is_open(&self) -> bool
        ensures { result ≡ not (is_closed self.now.history) }
    {
        self.book.is_open()
    }

    /// Closes the book, under its rules.
    pub(crate) fn close_book(self, rules: Rules) -> ClosedBook
        requires rules { rules ≡ L.rules }
        requires terms { AreTerms L.rules }
        requires closed { is_closed self.history ≡ true }
        ensures { result ≡ closing rules self.history }
    {
        let Held { book, count: _ } = self;
        ClosedBook::new(rules, book)
    }

    /// Submits a form over the standing number.
    pub fn submit(
        &mut self,
        session: &mut Session<L>,
        form: &Arc<Form, Global>,
        over: Option<u32>,
    ) -> Result<Reply, DeskError>
        requires bidder { (arc_value form.now).bidder ≡ session.old.bidder }
        requires meets { Meets L.rules (arc_value form.now) }
        ensures answered { IfOk result (λ r. reply_value r
            ≡ reply_due self.old.history (caller_of session.old)
            (Call.Submit (arc_value form.now) over)) }
        ensures recorded { IfOk result (λ r. reply_value r ≢ Reply.CallLimit
            → IsRecordedBy self.old self.new session.old session.new
            (Call.Submit (arc_value form.now) over) (reply_value r)) }
        ensures limit { IfOk result (λ r. reply_value r ≡ Reply.CallLimit
            → (self.new ≡ self.old) × (session.new ≡ session.old)) }
        ensures err { OnErr result ((self.new ≡ self.old) × (session.new ≡ session.old)) }
        ensures same { (session.new.bidder ≡ session.old.bidder)
            × (session.new.session ≡ session.old.session) }
    {
        let form = Arc::try_clone(form)?;
        self.make(session, Call::Submit { form, over })
    }

    /// Withdraws the form over the standing number.
    pub fn withdraw(&mut self, session: &mut Session<L>, over: u32) -> Result<Reply, DeskError>
        ensures answered { IfOk result (λ r. reply_value r
            ≡ reply_due self.old.history (caller_of session.old) (Call.Withdraw over)) }
        ensures recorded { IfOk result (λ r. reply_value r ≢ Reply.CallLimit
            → IsRecordedBy self.old self.new session.old session.new (Call.Withdraw over)
            (reply_value r)) }
        ensures limit { IfOk result (λ r. reply_value r ≡ Reply.CallLimit
            → (self.new ≡ self.old) × (session.new ≡ session.old)) }
        ensures err { OnErr result ((self.new ≡ self.old) × (session.new ≡ session.old)) }
        ensures same { (session.new.bidder ≡ session.old.bidder)
            × (session.new.session ≡ session.old.session) }
    {
        self.make(session, Call::Withdraw { over })
    }

    /// Shows the standing form.
    pub fn show(&mut self, session: &mut Session<L>) -> Result<Reply, DeskError>
        ensures answered { IfOk result (λ r. reply_value r
            ≡ reply_due self.old.history (caller_of session.old) Call.Show) }
        ensures recorded { IfOk result (λ r. reply_value r ≢ Reply.CallLimit
            → IsRecordedBy self.old self.new session.old session.new Call.Show (reply_value r)) }
        ensures limit { IfOk result (λ r. reply_value r ≡ Reply.CallLimit
            → (self.new ≡ self.old) × (session.new ≡ session.old)) }
        ensures err { OnErr result ((self.new ≡ self.old) × (session.new ≡ session.old)) }
        ensures same { (session.new.bidder ≡ session.old.bidder)
            × (session.new.session ≡ session.old.session) }
    {
        self.make(session, Call::Show)
    }

    /// Closes the round.
    pub fn close(&mut self, chair: &mut Chair<L>) -> Result<Reply, DeskError>
        ensures answered { IfOk result (λ r. reply_value r
            ≡ reply_due self.old.history Caller.Chair Call.Close) }
        ensures recorded { IfOk result (λ r. reply_value r ≢ Reply.CallLimit
            → IsRecordedByChair self.old self.new chair.old chair.new Call.Close (reply_value r)) }
        ensures limit { IfOk result (λ r. reply_value r ≡ Reply.CallLimit
            → (self.new ≡ self.old) × (chair.new ≡ chair.old)) }
        ensures err { OnErr result ((self.new ≡ self.old) × (chair.new ≡ chair.old)) }
    {
        chair.own.reserve(1)?;
        let reply = self.book.step(Caller::Chair, Call::Close)?;
        if reply.is_call_limit() {
            return Ok(reply);
        }
        self.count.add(&mut chair.share, 1);
        push_pair(&mut chair.own, Call::Close, same_reply(&reply, None));
        Ok(reply)
    }

    /// A call of a session.
    fn make(&mut self, session: &mut Session<L>, call: Call) -> Result<Reply, DeskError>
        requires allowed { MayMake (caller_of session.old) (call_value call) }
        requires meets { CallMeets L.rules (call_value call) }
        ensures answered { IfOk result (λ r. reply_value r
            ≡ reply_due self.old.history (caller_of session.old) (call_value call)) }
        ensures recorded { IfOk result (λ r. reply_value r ≢ Reply.CallLimit
            → IsRecordedBy self.old self.new session.old session.new (call_value call)
            (reply_value r)) }
        ensures limit { IfOk result (λ r. reply_value r ≡ Reply.CallLimit
            → (self.new ≡ self.old) × (session.new ≡ session.old)) }
        ensures err { OnErr result ((self.new ≡ self.old) × (session.new ≡ session.old)) }
        ensures same { (session.new.bidder ≡ session.old.bidder)
            × (session.new.session ≡ session.old.session) }
    {
        session.own.reserve(1)?;
        let (shared_call, standing) = shares(&self.book, session.bidder, &call)?;
        let caller = Caller::Session {
            bidder: session.bidder,
            session: session.session,
        };
        let reply = self.book.step(caller, call)?;
        if reply.is_call_limit() {
            return Ok(reply);
        }
        self.count.add(&mut session.share, 1);
        push_pair(&mut session.own, shared_call, same_reply(&reply, standing));
        Ok(reply)
    }
}

/// Another owner of the call's form, and of the standing form.
fn shares(book: &Book, bidder: u16, call: &Call) -> Result<(Call, Option<Standing>), AllocError>
    ensures { IfOk result (λ r. (call_value r.0 ≡ call_value call.now)
        × (option_map standing_value r.1 ≡ standing_of book.now bidder)) }
{
    let reported = call.share()?;
    match book.standing(bidder) {
        None => Ok((reported, None)),
        Some(standing) => {
            let standing = standing.share()?;
            Ok((reported, Some(standing)))
        }
    }
}

/// The same reply. If it shows a form, that is the form given.
fn same_reply(reply: &Reply, standing: Option<Standing>) -> Reply
    requires { (s : Option (Standing Offers)) → reply_value reply.now ≡ Shown s
        → option_map standing_value standing ≡ s }
    ensures { reply_value result ≡ reply_value reply.now }
{
    match reply {
        Reply::Accepted { number } => Reply::Accepted { number: *number },
        Reply::Withdrawn { number } => Reply::Withdrawn { number: *number },
        Reply::Shown { standing: _ } => Reply::Shown { standing },
        Reply::Stale { standing } => Reply::Stale {
            standing: *standing,
        },
        Reply::Closed { was_open } => Reply::Closed {
            was_open: *was_open,
        },
        Reply::RoundOver => Reply::RoundOver,
        Reply::CallLimit => Reply::CallLimit,
    }
}

/// Adds a pair, for which there is room.
fn push_pair(own: &mut Vec<(Call, Reply)>, call: Call, reply: Reply)
    requires { vec_len own.old < vec_capacity own.old }
    ensures { own.new.items ≡ own.old.items ++ (call, reply) ∷ [] }
{
    let _ = own.push((call, reply));
}

impl From<AllocError> for DeskError {
    fn from(_e: AllocError) -> DeskError {
        DeskError::OutOfMemory
    }
}

impl From<StepError> for DeskError {
    fn from(_e: StepError) -> DeskError {
        DeskError::OutOfMemory
    }
}
