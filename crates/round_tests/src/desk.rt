//! Rounds that are played through a desk, by threads that meet there, and what their settled books hold.

ghost use Rattle.std.specs.Prelude.{◌≡◌, ◌+◌};
ghost use Rattle.auction_terms.specs.Terms.{session_count};

use crate::desk::settling::{opened, settled};
use crate::worked::{ALPHA, Answer, GAMMA, are_reported, blank, is_reported, rules_and_form};
use auction_terms::Rules;
use bid_book::Reply;
use bid_desk::{Chair, ClosedBook, Desk, Round, Session};
use bid_forms::Form;
use std::alloc::Global;
use std::marker::Brand;
use std::sync::ledger::Blank;
use std::sync::{Arc, Wait};
use std::test::Fail;
use std::thread;
use std::thread::Threads;

mod refused;
mod settling;

/// What the sessions of the first bidder do until the chair closes.
#[derive(Clone, Copy)]
enum Play {
    /// Both submit, each on its own thread.
    BothSubmit,
    /// The same, and each withdraws over 1 then.
    BothWithdraw,
    /// One submits on a thread, while the chair closes on another.
    OneAgainstTheClose,
    /// They come to the limit of their calls, and then each session tries to submit.
    MostCalls,
}

/// Submits a form through a session of its bidder, whatever the answer.
fn submit<L: Round, R: Wait>(
    rt: &R,
    desk: &Desk<L>,
    session: &mut Session<L>,
    form: &Arc<Form, Global>,
) {
    if form.bidder() == session.bidder() && form.meets(desk.rules()) {
        let _ = desk.enter(rt).submit(session, form, None);
    }
}

/// Submits, and withdraws over 1 if the play asks for it.
fn submit_first<L: Round, R: Wait>(
    rt: &R,
    desk: &Desk<L>,
    session: &mut Session<L>,
    form: &Arc<Form, Global>,
    play: Play,
) {
    submit(rt, desk, session, form);
    if matches!(play, Play::BothWithdraw) {
        let _ = desk.enter(rt).withdraw(session, 1);
    }
}

/// Both sessions play, each on its own thread.
fn both_play<L: Round + Send + Sync, R: Threads + Wait + Sync>(
    rt: &R,
    desk: &Desk<L>,
    sessions: &mut [Session<L>],
    form: &Arc<Form, Global>,
    play: Play,
) {
    if sessions.len() < 2 {
        return;
    }
    let (first, second) = sessions.split_at_mut(1);
    thread::join(
        rt,
        || submit_first(rt, desk, &mut first[0], form, play),
        || submit_first(rt, desk, &mut second[0], form, play),
    );
}

/// Closes the round, whatever the answer.
fn close<L: Round, R: Wait>(rt: &R, desk: &Desk<L>, chair: &mut Chair<L>) {
    let _ = desk.enter(rt).close(chair);
}

/// The first session submits while the chair closes, each on its own thread.
fn submit_against_close<L: Round + Send + Sync, R: Threads + Wait + Sync>(
    rt: &R,
    desk: &Desk<L>,
    chair: &mut Chair<L>,
    sessions: &mut [Session<L>],
    form: &Arc<Form, Global>,
) {
    if sessions.is_empty() {
        return;
    }
    let session = &mut sessions[0];
    thread::join(
        rt,
        || submit(rt, desk, session, form),
        || close(rt, desk, chair),
    );
}

/// Asks for the standing form, whatever the answer.
fn show<L: Round, R: Wait>(rt: &R, desk: &Desk<L>, session: &mut Session<L>) {
    let _ = desk.enter(rt).show(session);
}

/// Whether a session that asks for the standing form gets the call limit.
fn is_at_the_limit<L: Round, R: Wait>(rt: &R, desk: &Desk<L>, session: &mut Session<L>) -> bool {
    matches!(desk.enter(rt).show(session), Ok(Reply::CallLimit))
}

/// Shows 500 times by each of the first two sessions. Whether the first one gets the call limit when it asks once more.
fn shows_to_the_limit<L: Round, R: Wait>(
    rt: &R,
    desk: &Desk<L>,
    sessions: &mut [Session<L>],
) -> bool {
    if sessions.len() < 2 {
        return false;
    }
    for _ in 0..500 {
        show(rt, desk, &mut sessions[0]);
        show(rt, desk, &mut sessions[1]);
    }
    is_at_the_limit(rt, desk, &mut sessions[0])
}

/// Each session whose bidder has the form submits it.
fn all_submit<L: Round, R: Wait>(
    rt: &R,
    desk: &Desk<L>,
    sessions: &mut [Session<L>],
    form: &Arc<Form, Global>,
) {
    for session in sessions {
        submit(rt, desk, session, form);
    }
}

/// Plays, and closes. Whether the call limit is reported when it has to be.
fn is_played<L: Round + Send + Sync, R: Threads + Wait + Sync>(
    rt: &R,
    desk: &Desk<L>,
    chair: &mut Chair<L>,
    sessions: &mut [Session<L>],
    form: &Arc<Form, Global>,
    play: Play,
) -> bool {
    match play {
        Play::BothSubmit | Play::BothWithdraw => both_play(rt, desk, sessions, form, play),
        Play::OneAgainstTheClose => submit_against_close(rt, desk, chair, sessions, form),
        Play::MostCalls => {
            if !shows_to_the_limit(rt, desk, sessions) {
                return false;
            }
            all_submit(rt, desk, sessions, form);
        }
    }
    if !matches!(play, Play::OneAgainstTheClose) {
        close(rt, desk, chair);
    }
    true
}

/// The settled book of a round that is played so. None if it isn't, or isn't settled.
fn settled_as_played<L: Round + Send + Sync, R: Threads + Wait + Sync>(
    rt: &R,
    alloc: Global,
    blank: Blank,
    rules: Rules,
    form: &Arc<Form, Global>,
    play: Play,
) -> Option<ClosedBook>
    requires name { blank.name ≡ L.name }
    requires parts { blank.parts ≡ L.parts }
    requires part_count { (blank.parts ≡ L.part_count) × (L.part_count ≡ session_count rules + 1) }
    requires rules { rules ≡ L.rules }
{
    let (desk, mut chair, mut sessions) = opened::<L>(alloc, blank, rules)?;
    if !is_played(rt, &desk, &mut chair, &mut sessions, form, play) {
        return None;
    }
    settled(alloc, desk.stop(), chair, sessions)
}

/// Whether the form of the first bidder is standing.
fn stands(closed: &ClosedBook, form: &Form) -> bool {
    match closed.form(1) {
        Some(standing) => standing.is_same(form),
        None => false,
    }
}

/// Whether one submission was accepted, which is the standing one, and the other one got its number.
fn is_one_of_both(closed: &ClosedBook, form: &Form) -> bool {
    let answers = [
        Answer::Accepted(1),
        Answer::Stale(Some(1)),
        Answer::Closed(true),
    ];
    are_reported(closed.history(), &answers, form) && stands(closed, form)
}

const ONE_AFTER_THE_OTHER: [Answer; 5] = [
    Answer::Accepted(1),
    Answer::Withdrawn(2),
    Answer::Accepted(3),
    Answer::Stale(Some(3)),
    Answer::Closed(true),
];

const BOTH_FIRST: [Answer; 5] = [
    Answer::Accepted(1),
    Answer::Stale(Some(1)),
    Answer::Withdrawn(2),
    Answer::Stale(None),
    Answer::Closed(true),
];

/// Whether one session called twice and then the other one, or both submitted first.
fn is_one_order(closed: &ClosedBook, form: &Form) -> bool {
    are_reported(closed.history(), &ONE_AFTER_THE_OTHER, form)
        || are_reported(closed.history(), &BOTH_FIRST, form)
}

/// Whether the form was accepted and is standing, or came after the close and none is.
fn is_one_or_the_other(closed: &ClosedBook, form: &Form) -> bool {
    if closed.form(1).is_some() {
        let first = [Answer::Accepted(1), Answer::Closed(true)];
        stands(closed, form) && are_reported(closed.history(), &first, form)
    } else {
        let second = [Answer::Closed(true), Answer::RoundOver];
        are_reported(closed.history(), &second, form)
    }
}

/// Whether another bidder's form is accepted after all calls of the first one, and the close follows.
fn ends_at_the_limit(closed: &ClosedBook, form: &Form) -> bool {
    let history = closed.history();
    match history.get(1000) {
        Some(entry) => history.len() == 1002
            && is_reported(&entry.reply, Answer::Accepted(1), form),
        None => false,
    }
}

/// Whether a book is as it has to be when a form is played so.
fn is_as_played(closed: &ClosedBook, form: &Form, play: Play) -> bool {
    match play {
        Play::BothSubmit => is_one_of_both(closed, form),
        Play::BothWithdraw => is_one_order(closed, form),
        Play::OneAgainstTheClose => is_one_or_the_other(closed, form),
        Play::MostCalls => ends_at_the_limit(closed, form),
    }
}

/// Whether a round that is played so, with the form of a text, settles as it has to.
fn settles<R: Threads + Wait + Sync>(
    rt: &R,
    alloc: Global,
    text: &[u8],
    play: Play,
) -> Result<bool, Fail> {
    let (rules, form) = rules_and_form(alloc, text)?;
    let blank = blank(&rules)?;
    match settled_as_played::<Brand, _>(rt, alloc, blank, rules, &form, play) {
        Some(closed) => Ok(is_as_played(&closed, &form, play)),
        None => Ok(false),
    }
}

#[test]
fn rounds_settle_as_they_are_played(rt: HostRuntime) -> Result<(), Fail> {
    for (text, play, name) in [
        (ALPHA, Play::BothSubmit, "both submit"),
        (ALPHA, Play::BothWithdraw, "both withdraw"),
        (GAMMA, Play::MostCalls, "most calls"),
    ] {
        assert!(rt; settles(&rt, rt.alloc(), text, play)?, "{name}");
    }
    Ok(())
}

#[test]
fn a_thousand_submissions_against_the_close(rt: HostRuntime) -> Result<(), Fail> {
    for round in 0..1000u32 {
        let is_settled = settles(&rt, rt.alloc(), ALPHA, Play::OneAgainstTheClose)?;
        assert!(rt; is_settled, "round {round}");
    }
    Ok(())
}
