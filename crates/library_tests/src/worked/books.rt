//! Closed books of given forms.

ghost use Rattle.std.specs.Prelude.{◌≡◌, ◌+◌, IfOk};
ghost use Rattle.auction_terms.specs.Terms.{session_count};

use super::form_of;
use auction_terms::{Group, Groups, Rules, read_groups, read_rules};
use bid_desk::{ClosedBook, Desk, Round, Session};
use bid_forms::Form;
use std::alloc::Global;
use std::marker::Brand;
use std::sync::ledger::Blank;
use std::sync::{Arc, Wait};
use std::test::Fail;

/// A ledger of as many parts as a desk needs.
fn blank(rules: &Rules) -> Result<Blank, Fail>
    ensures { IfOk result (λ blank. blank.parts ≡ session_count rules.now + 1) }
{
    let parts = (rules.session_count() as u64)
        .checked_add(1)
        .ok_or("parts")?;
    Ok(Blank::new(parts))
}

/// Submits a form if it is one of the first session's bidder, and returns whether memory sufficed.
fn submits_one<L: Round, R: Wait>(
    rt: &R,
    desk: &Desk<L>,
    session: &mut Session<L>,
    form: &Arc<Form, Global>,
) -> bool {
    if session.session() == 1 && form.bidder() == session.bidder() && form.meets(desk.rules()) {
        desk.enter(rt).submit(session, form, None).is_ok()
    } else {
        true
    }
}

/// Submits the forms of the session's bidder through its first session, and returns whether memory sufficed.
fn submits<L: Round, R: Wait>(
    rt: &R,
    desk: &Desk<L>,
    session: &mut Session<L>,
    forms: &[Arc<Form, Global>],
) -> bool {
    for form in forms {
        if !submits_one(rt, desk, session, form) {
            return false;
        }
    }
    true
}

/// The book of these forms. None where memory is short.
fn settled<L: Round, R: Wait>(
    rt: &R,
    alloc: Global,
    blank: Blank,
    rules: Rules,
    forms: &[Arc<Form, Global>],
) -> Option<ClosedBook>
    requires name { blank.name ≡ L.name }
    requires parts { blank.parts ≡ L.parts }
    requires part_count { (blank.parts ≡ L.part_count) × (L.part_count ≡ session_count rules + 1) }
    requires rules { rules ≡ L.rules }
{
    let (desk, mut chair, mut sessions) = Desk::<L>::open(alloc, blank, rules).ok()?;
    for session in &mut sessions {
        if !submits(rt, &desk, session, forms) {
            return None;
        }
    }
    desk.enter(rt).close(&mut chair).ok()?;
    desk.stop().settle(alloc, chair, sessions).ok()
}

/// The book of rules and forms.
fn book_of<R: Wait>(
    rt: &R,
    alloc: Global,
    rules: &[u8],
    texts: &[&[u8]],
) -> Result<ClosedBook, Fail> {
    let rules = read_rules(alloc, rules)?;
    let mut forms = Vec::new(alloc);
    for text in texts {
        forms.push(form_of(alloc, &rules, *text)?)?;
    }
    let blank = blank(&rules)?;
    let book = settled::<Brand, _>(rt, alloc, blank, rules, forms.as_slice());
    Ok(book.ok_or("out of memory")?)
}

/// What a trial of a book of rules and forms returns. Where the book stands in a function of its own, what the test goes on
/// with is proved without it (docs/CONTRIBUTING.md, "Add a test").
pub fn on_book<R: Wait, F: FnOnce(&ClosedBook) -> Result<bool, Fail> + Drop>(
    rt: &R,
    alloc: Global,
    rules: &[u8],
    forms: &[&[u8]],
    trial: F,
) -> Result<bool, Fail>
    requires { F.IsAlwaysCallable trial }
{
    let book = book_of(rt, alloc, rules, forms)?;
    trial(&book)
}

/// What a trial of a book of rules and forms, and of a text's groups, returns.
pub fn on_groups<R: Wait, F: FnOnce(&ClosedBook, &Groups) -> Result<bool, Fail> + Drop>(
    rt: &R,
    alloc: Global,
    rules: &[u8],
    forms: &[&[u8]],
    lines: &[u8],
    trial: F,
) -> Result<bool, Fail>
    requires { F.IsAlwaysCallable trial }
{
    let book = book_of(rt, alloc, rules, forms)?;
    let groups = read_groups(alloc, lines, book.rules())?;
    trial(&book, &groups)
}

fn on_first<F: FnOnce(&ClosedBook, &Group) -> Result<bool, Fail> + Drop>(
    book: &ClosedBook,
    groups: &Groups,
    trial: F,
) -> Result<bool, Fail>
    requires { F.IsAlwaysCallable trial }
{
    if groups.count() != 1 {
        return Ok(false);
    }
    trial(book, groups.group(1))
}

/// What a trial of a book of rules and forms, and of the one group of a line, returns.
pub fn on_group<R: Wait, F: FnOnce(&ClosedBook, &Group) -> Result<bool, Fail> + Drop>(
    rt: &R,
    alloc: Global,
    rules: &[u8],
    forms: &[&[u8]],
    line: &[u8],
    trial: F,
) -> Result<bool, Fail>
    requires { F.IsAlwaysCallable trial }
{
    let book = book_of(rt, alloc, rules, forms)?;
    let groups = read_groups(alloc, line, book.rules())?;
    on_first(&book, &groups, trial)
}
