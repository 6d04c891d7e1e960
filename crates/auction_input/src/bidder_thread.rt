//! What a bidder's thread does.

ghost use Rattle.std.specs.Prelude.{◌≡◌, ◌≢◌, ℕ, [], Err, IfNone, IfSome, OnOk, map};
ghost use Rattle.bid_book.specs.History.{reply_value};
ghost use Rattle.auction_input.specs.Submissions.{AreAccepted};
ghost use Rattle.auction_input.specs.inside.Submissions.{AreFormsOf, ComesTo, form_values};

use crate::round::RoundFault;
use bid_book::Reply;
use bid_desk::{Desk, DeskError, Round, Session};
use bid_forms::Form;
use std::alloc::Global;
use std::marker::Model;
use std::sync::{Arc, Wait};

/// A session that made no call yet, and the forms of its bidder that it is to submit.
#[derive(Drop)]
pub struct Job<'f, L: Round> {
    session: Session<L>,
    forms: &'f [Arc<Form, Global>],
}

impl<'f, L: Round> Model for Job<'f, L> {
    ghost use Rattle.std.specs.Prelude.{◌≡◌, []};
    ghost use Rattle.auction_input.specs.inside.Submissions.{AreFormsOf, JobOwn, form_values};

    ghost Value = { JobOwn };

    ghost view = { λ j. record { session = j.session; forms = form_values j.forms.now } };

    ghost invariant = { λ j. AreFormsOf L.rules j.session.bidder (form_values j.forms.now) × (j.session.pairs ≡ []) };
}

/// The session of a job that was done, and how its submissions ended.
#[derive(Drop)]
pub struct Done<L: Round> {
    pub session: Session<L>,
    pub ended: Result<(), RoundFault>,
}

impl<'f, L: Round> Job<'f, L> {
    /// A session that made no call, and forms of its bidder that meet the rules.
    pub fn new(session: Session<L>, forms: &'f [Arc<Form, Global>]) -> Job<'f, L>
        requires fresh { session.pairs ≡ [] }
        requires forms { AreFormsOf L.rules session.bidder (form_values forms.now) }
        ensures session { result.session ≡ session }
        ensures forms { result.forms ≡ form_values forms.now }
    {
        Job { session, forms }
    }

    /// Submits the forms in order, each over the number accepted last.
    pub fn run<R: Wait>(self, rt: &R, desk: &Desk<L>) -> Done<L>
        ensures { ComesTo self.entry result.session result.ended }
    {
        let Job { session, forms } = self;
        let mut session = session;
        let ended = submit_each(rt, desk, &mut session, forms);
        Done { session, ended }
    }
}

// The number that a reply accepts a form by.
fn number_of(reply: &Reply) -> Option<u32>
    ensures accepted { IfSome result (λ number. reply_value reply.now ≡ Reply.Accepted number) }
    ensures other { IfNone result ((number : ℕ) → reply_value reply.now ≢ Reply.Accepted number) }
{
    match reply {
        Reply::Accepted { number } => Some(*number),
        Reply::Withdrawn { .. }
        | Reply::Shown { .. }
        | Reply::Stale { .. }
        | Reply::Closed { .. }
        | Reply::RoundOver
        | Reply::CallLimit => None,
    }
}

fn submit_each<L: Round, R: Wait>(
    rt: &R,
    desk: &Desk<L>,
    session: &mut Session<L>,
    forms: &[Arc<Form, Global>],
) -> Result<(), RoundFault>
    requires own { AreFormsOf L.rules session.old.bidder (form_values forms.now) }
    requires fresh { session.old.pairs ≡ [] }
    ensures accepted { OnOk result (AreAccepted (form_values forms.now) session.new.pairs) }
    ensures wrong { result ≡ Err RoundFault.WrongAnswer
        → ¬ (AreAccepted (form_values forms.now) session.new.pairs) }
    ensures same { (session.new.bidder ≡ session.old.bidder)
        × (session.new.session ≡ session.old.session) }
{
    let mut over = None;
    for form in forms {
        match desk.enter(rt).submit(session, form, over) {
            Ok(reply) => match number_of(&reply) {
                Some(number) => over = Some(number),
                None => return Err(RoundFault::WrongAnswer),
            },
            Err(DeskError::OutOfMemory) => return Err(RoundFault::OutOfMemory),
        }
    }
    Ok(())
}
