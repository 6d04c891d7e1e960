//! The round: every bidder submits its forms, the chair closes, and the desk is settled.

ghost use Rattle.std.specs.Prelude.{◌≡◌, ◌≢◌, ◌+◌, ◌++◌, ◌⊎◌, ℕ, [], All, Any, Err, IfErr, IfOk, MatchBool, Ok, OnOk, map, true};
ghost use Rattle.bid_book.specs.History.{reply_value};
ghost use Rattle.std.specs.List.{AllZip};
ghost use Rattle.auction_terms.specs.Terms.{AreTerms, session_count};
ghost use Rattle.bid_desk.specs.Settlement.{IsSettled};
ghost use Rattle.bid_forms.specs.Offers.{Meets};
ghost use Rattle.auction_input.specs.inside.Submissions.{AreFormsOf, ComesTo, HasClosed, HaveSubmitted, HoldsLists, IsFirstJob, IsIdle, form_values, forms_in};
ghost use Rattle.auction_input.specs.Submissions.{AreSubmitted};

use crate::bidder_thread::{Done, Job};
use crate::by_bidder::{by_bidder, forms_in};
use auction_terms::Rules;
use bid_book::Reply;
use bid_desk::{Cause, Chair, ClosedBook, Desk, Round, Session, Stopped};
use bid_forms::Form;
use std::alloc::{AllocError, Global};
use std::marker::Brand;
use std::sync::ledger::Blank;
use std::sync::{Arc, Wait};
use std::thread;
use std::thread::Threads;

/// Why a round leaves no closed book.
#[derive(Clone, Copy, Debug, PartialEq, Eq)]
pub enum RoundFault {
    /// The desk answered what a round of these calls isn't answered.
    WrongAnswer,
    OutOfMemory,
}

impl From<AllocError> for RoundFault {
    ghost use Rattle.std.specs.Prelude.{◌≡◌};
    ghost use Rattle.auction_input.specs.declared.round.RoundFault.TheVariants.{OutOfMemory};

    ghost from_gives = { λ _ e. e ≡ OutOfMemory };

    fn from(_: AllocError) -> RoundFault {
        RoundFault::OutOfMemory
    }
}

/// Runs a round over these forms: each bidder submits its own in order, in a thread of its own where there are many forms.
pub fn close_round<R: Threads + Wait + Sync + AllocGlobal>(
    rt: &R,
    rules: Rules,
    forms: Vec<Form>,
) -> Result<ClosedBook, RoundFault>
    requires { All (Meets rules) forms.items }
    ensures rules { IfOk result (λ book. book.rules ≡ rules) }
    ensures submitted { IfOk result (AreSubmitted forms.items) }
{
    let blank = Blank::new(part_count(&rules));
    close_round_of::<Brand, _>(rt, blank, rules, forms)
}

// A part of the count of entries for each session, and one for the chair.
fn part_count(rules: &Rules) -> u64
    ensures { result ≡ session_count rules.now + 1 }
{
    rules.within_limits();
    rules.session_count() as u64 + 1
}

// The round whose ledger and rules are those of `L`.
fn close_round_of<L: Round + Send + Sync, R: Threads + Wait + Sync + AllocGlobal>(
    rt: &R,
    blank: Blank,
    rules: Rules,
    forms: Vec<Form>,
) -> Result<ClosedBook, RoundFault>
    requires name { blank.name ≡ L.name }
    requires parts { blank.parts ≡ L.parts }
    requires part_count { (blank.parts ≡ L.part_count) × (L.part_count ≡ session_count rules + 1) }
    requires rules { rules ≡ L.rules }
    requires meet { All (Meets L.rules) forms.items }
    ensures rules { IfOk result (λ book. book.rules ≡ rules) }
    ensures submitted { IfOk result (AreSubmitted forms.items) }
{
    let alloc: Global = rt.alloc();
    let form_count = forms.len();
    let lists = by_bidder(alloc, rules.bidders().len(), forms)?;
    run_round::<L, _>(rt, blank, rules, lists.as_slice(), form_count)
}

// The round over the forms in these lists.
fn run_round<L: Round + Send + Sync, R: Threads + Wait + Sync + AllocGlobal>(
    rt: &R,
    blank: Blank,
    rules: Rules,
    lists: &[Vec<Arc<Form, Global>>],
    form_count: usize,
) -> Result<ClosedBook, RoundFault>
    requires name { blank.name ≡ L.name }
    requires parts { blank.parts ≡ L.parts }
    requires part_count { (blank.parts ≡ L.part_count) × (L.part_count ≡ session_count rules + 1) }
    requires rules { rules ≡ L.rules }
    requires terms { AreTerms L.rules }
    requires own { (b : ℕ) → AreFormsOf L.rules b (forms_in lists.now b) }
    ensures rules { IfOk result (λ book. book.rules ≡ L.rules) }
    ensures submitted { IfOk result (HoldsLists lists.now) }
{
    let alloc: Global = rt.alloc();
    let Ok((desk, opened, sessions)) = Desk::<L>::open(alloc, blank, rules) else {
        return Err(RoundFault::OutOfMemory);
    };
    let mut chair = opened;
    let sessions = make_calls(rt, &desk, &mut chair, sessions, lists, form_count)?;
    settle(alloc, desk.stop(), chair, sessions)
}

// Every bidder submits its forms, and then the chair closes.
fn make_calls<L: Round + Send + Sync, R: Threads + Wait + Sync + AllocGlobal>(
    rt: &R,
    desk: &Desk<L>,
    chair: &mut Chair<L>,
    sessions: Vec<Session<L>>,
    lists: &[Vec<Arc<Form, Global>>],
    form_count: usize,
) -> Result<Vec<Session<L>>, RoundFault>
    requires fresh { All (λ session. session.pairs ≡ []) sessions.items }
    requires own { (b : ℕ) → AreFormsOf L.rules b (forms_in lists.now b) }
    ensures { IfOk result (λ sessions. HaveSubmitted lists.now sessions.items) }
{
    let sessions = submit_all(rt, desk, sessions, lists, form_count)?;
    close(rt, desk, chair)?;
    Ok(sessions)
}

// Every bidder submits its forms.
fn submit_all<L: Round + Send + Sync, R: Threads + Wait + Sync + AllocGlobal>(
    rt: &R,
    desk: &Desk<L>,
    sessions: Vec<Session<L>>,
    lists: &[Vec<Arc<Form, Global>>],
    form_count: usize,
) -> Result<Vec<Session<L>>, RoundFault>
    requires fresh { All (λ session. session.pairs ≡ []) sessions.items }
    requires own { (b : ℕ) → AreFormsOf L.rules b (forms_in lists.now b) }
    ensures { IfOk result (λ sessions. HaveSubmitted lists.now sessions.items) }
{
    let (jobs, others) = jobs_of(rt.alloc(), sessions, lists)?;
    let done = run_all(rt, desk, jobs, form_count)?;
    sessions_of(done, others)
}

// The first session of each bidder with forms, with these forms; and the other sessions.
fn jobs_of<'f, L: Round>(
    alloc: Global,
    sessions: Vec<Session<L>>,
    lists: &'f [Vec<Arc<Form, Global>>],
) -> Result<(Vec<Job<'f, L>>, Vec<Session<L>>), AllocError>
    requires fresh { All (λ session. session.pairs ≡ []) sessions.items }
    requires own { (b : ℕ) → AreFormsOf L.rules b (forms_in lists.now b) }
    ensures jobs { IfOk result (λ made. All (IsFirstJob lists.now) made.0.items) }
    ensures others { IfOk result (λ made. All (IsIdle lists.now) made.1.items) }
{
    let mut jobs = Vec::new(alloc);
    let mut others = Vec::new(alloc);
    for session in sessions {
        add_session(lists, session, &mut jobs, &mut others)?;
    }
    Ok((jobs, others))
}

// Adds a session to the jobs, if it has forms to submit, and else to the other sessions.
fn add_session<'f, L: Round>(
    lists: &'f [Vec<Arc<Form, Global>>],
    session: Session<L>,
    jobs: &mut Vec<Job<'f, L>>,
    others: &mut Vec<Session<L>>,
) -> Result<(), AllocError>
    requires fresh { session.pairs ≡ [] }
    requires own { AreFormsOf L.rules session.bidder (forms_in lists.now session.bidder) }
    ensures jobs { OnOk result (All (IsFirstJob lists.now) jobs.old.items
        → All (IsFirstJob lists.now) jobs.new.items) }
    ensures others { OnOk result (All (IsIdle lists.now) others.old.items
        → All (IsIdle lists.now) others.new.items) }
{
    let forms = forms_to_submit(lists, &session);
    if forms.is_empty() {
        others.push(session)?;
    } else {
        jobs.push(Job::new(session, forms))?;
    }
    Ok(())
}

// The forms of its bidder, if a session is its first one.
fn forms_to_submit<'f, L: Round>(
    lists: &'f [Vec<Arc<Form, Global>>],
    session: &Session<L>,
) -> &'f [Arc<Form, Global>]
    ensures first { session.now.session ≡ 1
        → form_values result.now ≡ forms_in lists.now session.now.bidder }
    ensures other { session.now.session ≢ 1 → form_values result.now ≡ [] }
{
    if session.session() == 1 {
        forms_in(lists, session.bidder())
    } else {
        &[]
    }
}

// With fewer forms than this the jobs are done in turn: threads would take longer to start than the forms to be submitted.
const FEW_FORMS: usize = 4_096;

// Does each job: in turn where there are few forms, and else each in a thread of its own.
fn run_all<L: Round + Send + Sync, R: Threads + Wait + Sync + AllocGlobal>(
    rt: &R,
    desk: &Desk<L>,
    jobs: Vec<Job<'_, L>>,
    form_count: usize,
) -> Result<Vec<Done<L>>, AllocError>
    ensures { IfOk result (λ done. AllZip (λ job end. ComesTo job end.session end.ended)
        jobs.entry.items done.items) }
{
    if form_count < FEW_FORMS {
        return run_in_turn(rt, desk, jobs);
    }
    run_each(rt, desk, jobs)
}

// Does one job after the other.
fn run_in_turn<L: Round, R: Wait + AllocGlobal>(
    rt: &R,
    desk: &Desk<L>,
    jobs: Vec<Job<'_, L>>,
) -> Result<Vec<Done<L>>, AllocError>
    ensures { IfOk result (λ done. AllZip (λ job end. ComesTo job end.session end.ended)
        jobs.entry.items done.items) }
{
    let mut done = Vec::new(rt.alloc());
    for job in jobs {
        done.push(job.run(rt, desk))?;
    }
    Ok(done)
}

// Does each job, in a thread of its own.
fn run_each<L: Round + Send + Sync, R: Threads + Wait + Sync + AllocGlobal>(
    rt: &R,
    desk: &Desk<L>,
    jobs: Vec<Job<'_, L>>,
) -> Result<Vec<Done<L>>, AllocError>
    ensures { IfOk result (λ done. AllZip (λ job end. ComesTo job end.session end.ended)
        jobs.entry.items done.items) }
{
    thread::map_vec(
        rt,
        jobs,
        &|job: Job<'_, L>| -> Done<L>
            ensures { ComesTo job.entry result.session result.ended }
        { job.run(rt, desk) },
    )
}

// All sessions, where every submission was accepted.
fn sessions_of<L: Round>(
    done: Vec<Done<L>>,
    others: Vec<Session<L>>,
) -> Result<Vec<Session<L>>, RoundFault>
    ensures ended { OnOk result (All (λ job. job.ended ≡ Ok tt) done.items) }
    ensures sessions { IfOk result (λ sessions. sessions.items
        ≡ others.items ++ map (λ job. job.session) done.items) }
    ensures wrong { IfErr result (λ fault. fault ≡ RoundFault.WrongAnswer
        → Any (λ job. job.ended ≡ Err RoundFault.WrongAnswer) done.items) }
{
    let mut sessions = others;
    let mut ended = Ok(());
    for job in done {
        let Done {
            session,
            ended: own,
        } = job;
        if sessions.push(session).is_err() {
            return Err(RoundFault::OutOfMemory);
        }
        ended = first_of(ended, own);
    }
    ended?;
    Ok(sessions)
}

// Of two ends the one to report: out of memory, else a wrong answer.
fn first_of(one: Result<(), RoundFault>, other: Result<(), RoundFault>) -> Result<(), RoundFault>
    ensures ok { OnOk result ((one ≡ Ok tt) × (other ≡ Ok tt)) }
    ensures wrong { result ≡ Err RoundFault.WrongAnswer
        → (one ≡ Err RoundFault.WrongAnswer) ⊎ (other ≡ Err RoundFault.WrongAnswer) }
{
    match (one, other) {
        (Ok(()), end) => end,
        (end, Ok(())) => end,
        (Err(RoundFault::OutOfMemory), _) => Err(RoundFault::OutOfMemory),
        (_, Err(RoundFault::OutOfMemory)) => Err(RoundFault::OutOfMemory),
        _ => Err(RoundFault::WrongAnswer),
    }
}

// The desk, which is stopped, is settled.
fn settle<L: Round>(
    alloc: Global,
    stopped: Stopped<L>,
    chair: Chair<L>,
    sessions: Vec<Session<L>>,
) -> Result<ClosedBook, RoundFault>
    ensures rules { IfOk result (λ book. book.rules ≡ L.rules) }
    ensures settled { IfOk result (λ book. IsSettled L.rules book.history chair sessions.items) }
{
    match stopped.settle(alloc, chair, sessions) {
        Ok(book) => Ok(book),
        Err(unsettled) => Err(fault_of(&unsettled.cause)),
    }
}

// What a settlement that is refused is reported by.
fn fault_of(cause: &Cause) -> RoundFault
    ensures memory { cause.now ≡ Cause.OutOfMemory → result ≡ RoundFault.OutOfMemory }
    ensures wrong { cause.now ≢ Cause.OutOfMemory → result ≡ RoundFault.WrongAnswer }
{
    match cause {
        Cause::OutOfMemory => RoundFault::OutOfMemory,
        Cause::StillOpen | Cause::Sessions { .. } | Cause::Differs { .. } => {
            RoundFault::WrongAnswer
        }
    }
}

// Whether a reply says that the chair has closed a round that was open.
fn was_open(reply: &Reply) -> bool
    ensures { MatchBool result (reply_value reply.now ≡ Reply.Closed true)
        (reply_value reply.now ≢ Reply.Closed true) }
{
    match reply {
        Reply::Closed { was_open } => *was_open,
        Reply::Accepted { .. }
        | Reply::Withdrawn { .. }
        | Reply::Shown { .. }
        | Reply::Stale { .. }
        | Reply::RoundOver
        | Reply::CallLimit => false,
    }
}

// The chair closes the round, which is open.
fn close<L: Round, R: Wait>(rt: &R, desk: &Desk<L>, chair: &mut Chair<L>) -> Result<(), RoundFault>
    ensures ok { OnOk result (HasClosed chair.old.pairs chair.new.pairs) }
    ensures wrong { result ≡ Err RoundFault.WrongAnswer
        → ¬ (HasClosed chair.old.pairs chair.new.pairs) }
{
    match desk.enter(rt).close(chair) {
        Ok(reply) if !was_open(&reply) => Err(RoundFault::WrongAnswer),
        Ok(_) => Ok(()),
        Err(_) => Err(RoundFault::OutOfMemory),
    }
}
