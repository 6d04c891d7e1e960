//! The worked round of nine entries, and settlements that are refused. Each call that finds memory short leaves all as it
//! was, and is made once more: so the same holds where any one growth is refused (see tests/test_refused_calls.py).

ghost use Rattle.std.specs.Prelude.{◌≡◌, ◌+◌};
ghost use Rattle.auction_terms.specs.Terms.{session_count};

use super::settling::{opened, settled};
use super::stands;
use crate::worked::{
    ALPHA, ANSWERED, ASKED, Ask, RULES, are_reported, blank, is_reported, rules_and_form,
};
use auction_terms::{Rules, read_rules};
use bid_book::{Entry, Reply};
use bid_desk::{Cause, Chair, ClosedBook, Desk, Round, Session, Stopped, Unsettled};
use bid_forms::Form;
use std::alloc::Global;
use std::marker::Brand;
use std::sync::ledger::Blank;
use std::sync::{Arc, Wait};
use std::test::Fail;

/// Makes a call. None if memory is short.
fn made<L: Round, R: Wait>(
    rt: &R,
    desk: &Desk<L>,
    chair: &mut Chair<L>,
    session: &mut Session<L>,
    form: &Arc<Form, Global>,
    ask: Ask,
) -> Option<Reply> {
    match ask {
        Ask::Submit { over } => {
            if form.bidder() != session.bidder() || !form.meets(desk.rules()) {
                return None;
            }
            desk.enter(rt).submit(session, form, over).ok()
        }
        Ask::Withdraw { over } => desk.enter(rt).withdraw(session, over).ok(),
        Ask::Show => desk.enter(rt).show(session).ok(),
        Ask::Close => desk.enter(rt).close(chair).ok(),
    }
}

/// Whether a history has the answers of the first so many calls of the round.
fn has_front(history: &[Entry], form: &Form, count: usize) -> bool {
    count <= 9 && are_reported(history, &ANSWERED[..count], form)
}

/// Whether the call after so many of the round is answered as it has to be. Where memory is short nothing is recorded, and the
/// same call is answered so after that.
fn is_answered<L: Round, R: Wait>(
    rt: &R,
    desk: &Desk<L>,
    chair: &mut Chair<L>,
    session: &mut Session<L>,
    form: &Arc<Form, Global>,
    place: usize,
) -> bool {
    if place >= 9 {
        return false;
    }
    match made(rt, desk, chair, session, form, ASKED[place]) {
        Some(reported) => is_reported(&reported, ANSWERED[place], form),
        None => {
            session.own().len().wrapping_add(chair.own().len()) == place
                && has_front(desk.enter(rt).history(), form, place)
                && match made(rt, desk, chair, session, form, ASKED[place]) {
                    Some(reported) => is_reported(&reported, ANSWERED[place], form),
                    None => false,
                }
        }
    }
}

/// The desk, stopped and resumed. The answers of that many calls are in its history before, between and after.
fn rested<L: Round, R: Wait>(rt: &R, desk: Desk<L>, form: &Form, count: usize) -> Option<Desk<L>> {
    let stopped = desk.stop();
    if !has_front(stopped.history(), form, count) {
        return None;
    }
    let desk = stopped.resume();
    if !has_front(desk.enter(rt).history(), form, count) {
        return None;
    }
    Some(desk)
}

/// The settled book of the worked round. The desk is stopped and resumed after each call.
fn round<L: Round, R: Wait>(
    rt: &R,
    alloc: Global,
    blank: Blank,
    rules: Rules,
    form: &Arc<Form, Global>,
) -> Option<ClosedBook>
    requires name { blank.name ≡ L.name }
    requires parts { blank.parts ≡ L.parts }
    requires part_count { (blank.parts ≡ L.part_count) × (L.part_count ≡ session_count rules + 1) }
    requires rules { rules ≡ L.rules }
{
    let (desk, mut chair, mut sessions) = opened::<L>(alloc, blank, rules)?;
    if sessions.is_empty() {
        return None;
    }
    let mut desk = desk;
    for place in 0..9usize {
        if !is_answered(rt, &desk, &mut chair, &mut sessions[0], form, place) {
            return None;
        }
        desk = rested(rt, desk, form, place + 1)?;
    }
    settled(alloc, desk.stop(), chair, sessions)
}

/// Whether a book has the answers of the round, and the form is standing in it.
fn holds(closed: &ClosedBook, form: &Form) -> bool {
    has_front(closed.history(), form, 9) && stands(closed, form)
}

fn settles_nine_entries<R: Wait>(rt: &R, alloc: Global) -> Result<bool, Fail> {
    let (rules, form) = rules_and_form(alloc, ALPHA)?;
    let blank = blank(&rules)?;
    match round::<Brand, _>(rt, alloc, blank, rules, &form) {
        Some(closed) => Ok(holds(&closed, &form)),
        None => Ok(false),
    }
}

#[test]
fn a_round_of_nine_entries(rt: HostRuntime) -> Result<(), Fail> {
    assert!(rt; settles_nine_entries(&rt, rt.alloc())?);
    Ok(())
}

/// What is settled.
#[derive(Drop)]
struct Parts<L: Round> {
    stopped: Stopped<L>,
    chair: Chair<L>,
    sessions: Vec<Session<L>>,
}

/// These parts, which come back unless they are settled, and why they aren't.
fn refused<L: Round>(alloc: Global, parts: Parts<L>) -> Option<(Parts<L>, Cause)> {
    let Parts {
        stopped,
        chair,
        sessions,
    } = parts;
    match stopped.settle(alloc, chair, sessions) {
        Ok(_) => None,
        Err(refused) => {
            let Unsettled {
                stopped,
                chair,
                sessions,
                cause,
            } = refused;
            Some((
                Parts {
                    stopped,
                    chair,
                    sessions,
                },
                cause,
            ))
        }
    }
}

/// These parts, if they aren't settled for this cause, whatever is refused.
fn refused_at_once<L: Round>(alloc: Global, parts: Parts<L>, wanted: Cause) -> Option<Parts<L>> {
    match refused(alloc, parts) {
        Some((parts, cause)) if cause == wanted => Some(parts),
        _ => None,
    }
}

/// These parts, if they aren't settled for this cause. If memory is short all comes back, and is settled once more.
fn refused_for<L: Round>(alloc: Global, parts: Parts<L>, wanted: Cause) -> Option<Parts<L>> {
    match refused(alloc, parts) {
        Some((parts, Cause::OutOfMemory)) => refused_at_once(alloc, parts, wanted),
        Some((parts, cause)) if cause == wanted => Some(parts),
        _ => None,
    }
}

/// These parts, if they aren't settled for this cause without the session at a place, which then comes last.
fn refused_without<L: Round>(
    alloc: Global,
    parts: Parts<L>,
    place: usize,
    wanted: Cause,
) -> Option<Parts<L>> {
    let mut parts = parts;
    if place >= parts.sessions.len() {
        return None;
    }
    let session = parts.sessions.remove(place);
    let mut parts = refused_for(alloc, parts, wanted)?;
    let _ = parts.sessions.push(session);
    Some(parts)
}

/// The same without the first session and the one at a place after it.
fn refused_without_two<L: Round>(
    alloc: Global,
    parts: Parts<L>,
    place: usize,
    wanted: Cause,
) -> Option<Parts<L>> {
    let mut parts = parts;
    if parts.sessions.is_empty() {
        return None;
    }
    let first = parts.sessions.remove(0);
    let mut parts = refused_without(alloc, parts, place.wrapping_sub(1), wanted)?;
    let _ = parts.sessions.push(first);
    Some(parts)
}

/// Closes the round of these parts.
fn closed<L: Round, R: Wait>(rt: &R, parts: Parts<L>) -> Parts<L> {
    let Parts {
        stopped,
        mut chair,
        sessions,
    } = parts;
    let desk = stopped.resume();
    if desk.enter(rt).close(&mut chair).is_err() {
        let _ = desk.enter(rt).close(&mut chair);
    }
    Parts {
        stopped: desk.stop(),
        chair,
        sessions,
    }
}

fn missing(bidder: u16, session: u8) -> Cause {
    Cause::Sessions { bidder, session }
}

/// The book of a desk that is settled at last: not before the close, not without Alpha's second session, without Gamma's, and
/// without both of Alpha's.
fn settled_at_last<L: Round, R: Wait>(
    rt: &R,
    alloc: Global,
    blank: Blank,
    rules: Rules,
) -> Option<ClosedBook>
    requires name { blank.name ≡ L.name }
    requires parts { blank.parts ≡ L.parts }
    requires part_count { (blank.parts ≡ L.part_count) × (L.part_count ≡ session_count rules + 1) }
    requires rules { rules ≡ L.rules }
{
    let (desk, chair, sessions) = opened::<L>(alloc, blank, rules)?;
    let parts = Parts {
        stopped: desk.stop(),
        chair,
        sessions,
    };
    let parts = closed(rt, refused_at_once(alloc, parts, Cause::StillOpen)?);
    let parts = refused_without(alloc, parts, 1, missing(1, 2))?;
    let parts = refused_without(alloc, parts, 2, missing(3, 1))?;
    let Parts {
        stopped,
        chair,
        sessions,
    } = refused_without_two(alloc, parts, 2, missing(1, 1))?;
    settled(alloc, stopped, chair, sessions)
}

fn settles_at_last<R: Wait>(rt: &R, alloc: Global) -> Result<bool, Fail> {
    let rules = read_rules(alloc, RULES)?;
    let blank = blank(&rules)?;
    match settled_at_last::<Brand, _>(rt, alloc, blank, rules) {
        Some(closed) => Ok(closed.history().len() == 1),
        None => Ok(false),
    }
}

#[test]
fn settlement_is_refused(rt: HostRuntime) -> Result<(), Fail> {
    assert!(rt; settles_at_last(&rt, rt.alloc())?);
    Ok(())
}
