//! The worked rules, forms and round, and what is made of them in more than one place.

ghost use Rattle.std.specs.Prelude.{◌≡◌, ◌+◌, IfOk};
ghost use Rattle.auction_terms.specs.Terms.{session_count};

use auction_terms::{Rules, read_rules};
use bid_book::{Entry, Reply};
use bid_forms::{Form, read_form};
use std::alloc::Global;
use std::sync::Arc;
use std::sync::ledger::Blank;
use std::test::Fail;

pub const RULES: &[u8] =
    b"rules,1,1,,\ncategory,A,2,10,1\ncategory,B,1,5,1\nbidder,Alpha,9,2,\nbidder,Beta,9,1,\nbidder,Gamma,9,1,\n";

/// Room for the largest form.
pub const WIDE_RULES: &[u8] =
    b"rules,1,1,,\ncategory,A,10000,0,0\ncategory,B,10000,0,0\nbidder,Alpha,0,1,\n";

pub const ALPHA: &[u8] = b"Alpha,A,B\n30,1,0\n50,2,1\n28,1,1\n";

pub const BETA: &[u8] = b"Beta,A,B\n20,1,0\n45,3,0\n";

pub const GAMMA: &[u8] = b"Gamma,A,B\n12,0,1\n";

/// The answer of a trial of a text's rules. They are in a function of their own, so that what the test goes on with is
/// proved without them (docs/CONTRIBUTING.md, "Add a test").
pub fn on_rules<F: FnOnce(Global, &Rules) -> Result<bool, Fail> + Drop>(
    alloc: Global,
    text: &[u8],
    trial: F,
) -> Result<bool, Fail>
    requires { F.IsAlwaysCallable trial }
{
    let rules = read_rules(alloc, text)?;
    trial(alloc, &rules)
}

/// The worked rules, and a form under them.
pub fn rules_and_form(alloc: Global, text: &[u8]) -> Result<(Rules, Arc<Form, Global>), Fail> {
    let rules = read_rules(alloc, RULES)?;
    let form = read_form(alloc, text, &rules)?;
    let form = Arc::new(alloc, form)?;
    Ok((rules, form))
}

/// The answer of a trial of a form under the worked rules.
pub fn on_form<F: FnOnce(Global, &Arc<Form, Global>) -> Result<bool, Fail> + Drop>(
    alloc: Global,
    text: &[u8],
    trial: F,
) -> Result<bool, Fail>
    requires { F.IsAlwaysCallable trial }
{
    let (_, form) = rules_and_form(alloc, text)?;
    trial(alloc, &form)
}

/// A ledger of as many parts as a desk needs.
pub fn blank(rules: &Rules) -> Result<Blank, Fail>
    ensures { IfOk result (λ blank. blank.parts ≡ session_count rules.now + 1) }
{
    let parts = (rules.session_count() as u64)
        .checked_add(1)
        .ok_or("parts")?;
    Ok(Blank::new(parts))
}

/// What the first session of Alpha, or the chair, asks.
#[derive(Clone, Copy)]
pub enum Ask {
    Submit { over: Option<u32> },
    Withdraw { over: u32 },
    Show,
    Close,
}

/// The answers when one form is submitted again and again.
#[derive(Clone, Copy)]
pub enum Answer {
    Accepted(u32),
    Withdrawn(u32),
    /// The form is the standing one, with this number.
    Shown(u32),
    Stale(Option<u32>),
    Closed(bool),
    RoundOver,
}

/// The worked round: the session submits, sees and withdraws, withdraws in vain and submits again, the chair closes, and both
/// call once more.
pub const ASKED: [Ask; 9] = [
    Ask::Submit { over: None },
    Ask::Show,
    Ask::Withdraw { over: 1 },
    Ask::Withdraw { over: 1 },
    Ask::Submit { over: None },
    Ask::Close,
    Ask::Submit { over: Some(3) },
    Ask::Show,
    Ask::Close,
];

/// The answers of the worked round.
pub const ANSWERED: [Answer; 9] = [
    Answer::Accepted(1),
    Answer::Shown(1),
    Answer::Withdrawn(2),
    Answer::Stale(None),
    Answer::Accepted(3),
    Answer::Closed(true),
    Answer::RoundOver,
    Answer::Shown(3),
    Answer::Closed(false),
];

/// Whether a reply is this answer, when this form is submitted.
pub fn is_reported(reply: &Reply, answer: Answer, form: &Form) -> bool {
    match (answer, reply) {
        (Answer::Accepted(wanted), Reply::Accepted { number }) => wanted == *number,
        (Answer::Withdrawn(wanted), Reply::Withdrawn { number }) => wanted == *number,
        (
            Answer::Shown(wanted),
            Reply::Shown {
                standing: Some(standing),
            },
        ) => { wanted == standing.number && standing.form.is_same(form) }
        (Answer::Stale(wanted), Reply::Stale { standing }) => wanted == *standing,
        (Answer::Closed(wanted), Reply::Closed { was_open }) => wanted == *was_open,
        (Answer::RoundOver, Reply::RoundOver) => true,
        _ => false,
    }
}

/// Whether the replies of a history are these answers, in order.
pub fn are_reported(history: &[Entry], answers: &[Answer], form: &Form) -> bool {
    history.len() == answers.len()
        && history
            .iter()
            .zip(answers.iter())
            .all(|(entry, answer)| is_reported(&entry.reply, *answer, form))
}
