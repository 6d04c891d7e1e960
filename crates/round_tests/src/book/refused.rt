//! What a book answers where any one growth is refused (see tests/test_refused_calls.py): the call comes back, nothing is recorded,
//! and the same call is then answered as with ample memory.

ghost use Rattle.bid_book.specs.History.{MayMake, call_value};

use crate::worked::{ALPHA, ANSWERED, ASKED, Answer, Ask, is_reported, on_form};
use bid_book::{Book, Call, Caller, Reply, Standing, StepError};
use bid_forms::Form;
use std::alloc::Global;
use std::sync::Arc;
use std::test::Fail;

const SESSION: Caller = Caller::Session {
    bidder: 1,
    session: 1,
};

/// What a book of so many entries answers a call, at once or once the call came back.
fn answer_at_last(book: &mut Book, caller: Caller, call: Call) -> Option<Reply>
    requires { MayMake caller (call_value call) }
{
    let count = book.history().len();
    match book.step(caller, call) {
        Ok(reply) => Some(reply),
        Err(StepError::OutOfMemory { call }) => {
            if book.history().len() != count {
                return None;
            }
            book.step(caller, call).ok()
        }
    }
}

/// What a book answers a submission by Alpha's first session.
fn taken_at_last(
    book: &mut Book,
    form: &Arc<Form, Global>,
    over: Option<u32>,
) -> Result<Option<Reply>, Fail> {
    if form.bidder() != 1 {
        return Ok(None);
    }
    let form = Arc::try_clone(form)?;
    Ok(answer_at_last(book, SESSION, Call::Submit { form, over }))
}

/// What a book answers Alpha's first session, or the chair.
fn answer_of(book: &mut Book, form: &Arc<Form, Global>, ask: Ask) -> Result<Option<Reply>, Fail> {
    match ask {
        Ask::Submit { over } => taken_at_last(book, form, over),
        Ask::Withdraw { over } => Ok(answer_at_last(book, SESSION, Call::Withdraw { over })),
        Ask::Show => Ok(answer_at_last(book, SESSION, Call::Show)),
        Ask::Close => Ok(answer_at_last(book, Caller::Chair, Call::Close)),
    }
}

/// Whether a book answers a call so.
fn is_answered(
    book: &mut Book,
    form: &Arc<Form, Global>,
    ask: Ask,
    answer: Answer,
) -> Result<bool, Fail> {
    let reply = answer_of(book, form, ask)?;
    Ok(reply.is_some_and(|reply| is_reported(&reply, answer, form)))
}

/// Whether an open and empty book answers the worked round, and ends with nine entries.
fn answers_the_round(book: &mut Book, form: &Arc<Form, Global>) -> Result<bool, Fail> {
    for place in 0..9usize {
        if !is_answered(book, form, ASKED[place], ANSWERED[place])? {
            return Ok(false);
        }
    }
    Ok(book.history().len() == 9 && !book.is_open() && book.standing(1).is_some())
}

fn comes_to_nine_entries(alloc: Global, form: &Arc<Form, Global>) -> Result<bool, Fail> {
    let mut book = Book::new(alloc);
    answers_the_round(&mut book, form)
}

#[test]
fn nine_entries(rt: HostRuntime) -> Result<(), Fail> {
    assert!(rt; on_form(rt.alloc(), ALPHA, comes_to_nine_entries)?);
    Ok(())
}

fn shares_what_stands(form: &Arc<Form, Global>) -> Result<bool, Fail> {
    let standing = Standing {
        number: 7,
        form: Arc::try_clone(form)?,
    };
    Ok(standing.share()?.is_same(&standing))
}

fn shares_a_reply(form: &Arc<Form, Global>) -> Result<bool, Fail> {
    let form = Arc::try_clone(form)?;
    let reply = Reply::Shown {
        standing: Some(Standing { number: 7, form }),
    };
    Ok(reply.share()?.is_same(&reply))
}

fn shares_a_call(form: &Arc<Form, Global>) -> Result<bool, Fail> {
    let call = Call::Submit {
        form: Arc::try_clone(form)?,
        over: Some(7),
    };
    Ok(call.share()?.is_same(&call))
}

fn shares_each(_: Global, form: &Arc<Form, Global>) -> Result<bool, Fail> {
    Ok(shares_a_reply(form)? && shares_what_stands(form)? && shares_a_call(form)?)
}

#[test]
fn another_owner_or_want_of_memory(rt: HostRuntime) -> Result<(), Fail> {
    assert!(rt; on_form(rt.alloc(), ALPHA, shares_each)?);
    Ok(())
}
