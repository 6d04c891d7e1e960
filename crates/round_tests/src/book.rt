//! The book, call by call.

use crate::worked::{GAMMA, on_form};
use bid_book::{Book, CALL_LIMIT, Call, Caller, Reply};
use bid_forms::Form;
use std::alloc::Global;
use std::sync::Arc;
use std::test::Fail;

mod refused;

/// Whether a book answers so a session of Alpha that asks for the standing form.
fn shows(book: &mut Book, session: u8, reported: Reply) -> bool {
    let caller = Caller::Session { bidder: 1, session };
    match book.step(caller, Call::Show) {
        Ok(reply) => reply.is_same(&reported),
        Err(_) => false,
    }
}

/// Whether a book answers as many calls of Alpha's sessions, by turns, as one bidder may make.
fn answers_all_of_alpha(book: &mut Book) -> bool {
    let mut are_shown = true;
    for n in 0..CALL_LIMIT {
        let nothing = Reply::Shown { standing: None };
        are_shown = shows(book, (n % 2) as u8 + 1, nothing) && are_shown;
    }
    are_shown
}

/// Whether a book accepts a first submission by its bidder's first session.
fn accepts(book: &mut Book, form: &Arc<Form, Global>) -> Result<bool, Fail> {
    let bidder = form.bidder();
    let call = Call::Submit {
        form: Arc::try_clone(form)?,
        over: None,
    };
    match book.step(Caller::Session { bidder, session: 1 }, call) {
        Ok(reply) => Ok(reply.is_same(&Reply::Accepted { number: 1 })),
        Err(_) => Ok(false),
    }
}

/// Whether a new book comes to the limit of Alpha's calls, and goes on for another bidder.
fn comes_to_the_limit(alloc: Global, form: &Arc<Form, Global>) -> Result<bool, Fail> {
    let mut book = Book::new(alloc);
    goes_on_at_the_limit(&mut book, form)
}

fn goes_on_at_the_limit(book: &mut Book, form: &Arc<Form, Global>) -> Result<bool, Fail> {
    Ok(
        answers_all_of_alpha(book)
            && shows(book, 1, Reply::CallLimit)
            && book.history().len() == 1000
            && accepts(book, form)?,
    )
}

#[test]
fn a_limit_of_calls(rt: HostRuntime) -> Result<(), Fail> {
    assert!(rt; on_form(rt.alloc(), GAMMA, comes_to_the_limit)?);
    Ok(())
}
