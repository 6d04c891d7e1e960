//! Calls, and reading them.

ghost use Rattle.std.specs.Prelude.{◌≡◌, ◌≤◌, OnSome, IfSome, Some, option_map};
ghost use Rattle.auction_terms.specs.Terms.{Terms};
ghost use Rattle.auction_terms.specs.declared.limits.TheConstants.{MOST_SESSIONS, TEXT_LIMIT};
ghost use Rattle.desk_book.specs.declared.limits.TheConstants.{SEALED_LIMIT};
ghost use Rattle.desk_book.specs.Calls.{digest_named, call_at, call_head, call_of_head, head_fields, head_of, session_named, sessions_given, stands_as};
ghost use Rattle.desk_book.specs.inside.Fields.{behind_who, close_left, show_left, submit_left, who_left, withdraw_left};
ghost use Rattle.desk_book.specs.Asking.{IsMaker, IsOver};
ghost use Rattle.desk_book.specs.Recording.{IfFound, MayBeCalled};
ghost use Rattle.desk_book.specs.inside.Found.{alone, of_form};

use crate::fields::Fields;
use crate::heads::{Line, find_line};
use crate::limits::SEALED_LIMIT;
use auction_terms::{Rules, TEXT_LIMIT, number};

/// Who makes a call, and when.
#[derive(Clone, Copy)]
pub struct Who {
    pub bidder: u16,
    pub session: u8,
    pub time: u64,
}

/// A form that is handed in: its text, whose digest is committed to by that of the salt, and the text as it is sealed.
#[derive(Clone, Copy)]
pub struct Submission<'c> {
    pub who: Who,
    pub over: Option<u32>,
    pub salt: [u8; 64],
    pub commit: [u8; 64],
    pub text: &'c [u8],
    pub sealed: &'c [u8],
}

/// A call.
#[derive(Clone, Copy)]
pub enum Call<'c> {
    Submit(Submission<'c>),
    Withdraw { who: Who, over: u32 },
    Show { who: Who },
    Close { time: u64 },
}

/// What stands at the front of bytes: a call with the number of its bytes, the beginning of one, or none.
#[derive(Clone, Copy)]
pub enum Found<'c> {
    Whole { call: Call<'c>, len: usize },
    Short,
    Wrong,
}

// The head of a form that is handed in, with the numbers of bytes that follow it.
#[derive(Clone, Copy)]
struct FormHead {
    who: Who,
    over: Option<u32>,
    salt: [u8; 64],
    commit: [u8; 64],
    text_len: usize,
    sealed_len: usize,
}

// How many sessions a bidder has.
fn sessions_of(rules: &Rules, bidder: u16) -> u8
    ensures count { result ≡ sessions_given rules.now bidder }
    ensures few { result ≤ MOST_SESSIONS }
{
    match rules.bidders().get(usize::from(bidder).saturating_sub(1)) {
        Some(bidder) => bidder.sessions,
        None => 0,
    }
}

// The session of a bidder that a field names.
fn session_of(rules: &Rules, bidder: u16, field: &[u8]) -> Option<u8>
    ensures session { result ≡ session_named rules.now bidder field.now }
    ensures few { IfSome result (λ s. s ≤ MOST_SESSIONS) }
{
    let session = number(field)?;
    if 1 <= session && session <= u64::from(sessions_of(rules, bidder)) {
        Some(session as u8)
    } else {
        None
    }
}

// The next three fields: a bidder of the rules, one of its sessions, and the time.
#[tactic(auto, unfolding(crate::specs::inside::Fields::who_left))]
fn read_who(rules: &Rules, fields: &mut Fields<'_>) -> Option<Who>
    ensures who { result ≡ who_left rules.now fields.old }
    ensures maker { IfSome result (λ who. IsMaker rules.now who) }
    ensures rest { OnSome result (fields.new ≡ behind_who fields.old) }
{
    let bidder = rules.bidder_number(fields.next()?)?;
    let session = session_of(rules, bidder, fields.next()?)?;
    let time = fields.number()?;
    Some(Who {
        bidder,
        session,
        time,
    })
}

// The head of a form that is handed in.
#[tactic(auto, unfolding(crate::specs::inside::Fields::submit_left))]
fn read_form_head(rules: &Rules, mut fields: Fields<'_>) -> Option<FormHead>
    ensures head { option_map of_form result ≡ submit_left rules.now fields.entry }
    ensures maker { IfSome result (λ h. IsMaker rules.now h.who) }
    ensures over { IfSome result (λ h. IsOver h.over) }
    ensures commit { IfSome result (λ h. digest_named h.commit ≡ Some h.commit) }
    ensures text { IfSome result (λ h. h.text_len ≤ TEXT_LIMIT) }
    ensures sealed { IfSome result (λ h. h.sealed_len ≤ SEALED_LIMIT) }
{
    let who = read_who(rules, &mut fields)?;
    let over = fields.change_if()?;
    let salt = fields.digest()?;
    let commit = fields.digest()?;
    let text_len = fields.number_to(TEXT_LIMIT)?;
    let sealed_len = fields.number_to(SEALED_LIMIT)?;
    if fields.is_done() {
        Some(FormHead {
            who,
            over,
            salt,
            commit,
            text_len,
            sealed_len,
        })
    } else {
        None
    }
}

#[tactic(auto, unfolding(crate::specs::inside::Fields::withdraw_left))]
fn read_withdrawal<'c>(rules: &Rules, mut fields: Fields<'c>) -> Option<Call<'c>>
    ensures call { option_map alone result ≡ withdraw_left rules.now fields.entry }
    ensures may { IfSome result (λ c. MayBeCalled rules.now c) }
{
    let who = read_who(rules, &mut fields)?;
    let over = fields.change()?;
    if fields.is_done() {
        Some(Call::Withdraw { who, over })
    } else {
        None
    }
}

#[tactic(auto, unfolding(crate::specs::inside::Fields::show_left))]
fn read_show<'c>(rules: &Rules, mut fields: Fields<'c>) -> Option<Call<'c>>
    ensures call { option_map alone result ≡ show_left rules.now fields.entry }
    ensures may { IfSome result (λ c. MayBeCalled rules.now c) }
{
    let who = read_who(rules, &mut fields)?;
    if fields.is_done() {
        Some(Call::Show { who })
    } else {
        None
    }
}

#[tactic(auto, unfolding(crate::specs::inside::Fields::close_left))]
fn read_close<'c>(mut fields: Fields<'c>) -> Option<Call<'c>>
    ensures call { option_map alone result ≡ close_left fields.entry }
    ensures may { IfSome result (λ c. (rules : Terms) → MayBeCalled rules c) }
{
    let time = fields.number()?;
    if fields.is_done() {
        Some(Call::Close { time })
    } else {
        None
    }
}

// A call that is its head alone.
#[tactic(auto, using(crate::proofs::Reading::withdraw_same, crate::proofs::Reading::show_same, crate::proofs::Reading::close_same))]
fn read_call<'c>(rules: &Rules, kind: &[u8], fields: Fields<'c>) -> Option<Call<'c>>
    ensures call { option_map alone result ≡ call_head rules.now kind.now fields.entry }
    ensures may { IfSome result (λ c. MayBeCalled rules.now c) }
{
    if kind == b"%withdraw".as_slice() {
        read_withdrawal(rules, fields)
    } else if kind == b"%show".as_slice() {
        read_show(rules, fields)
    } else if kind == b"%close".as_slice() {
        read_close(fields)
    } else {
        None
    }
}

// The call of a form's head line of so many bytes, behind which these stand.
fn find_form<'c>(rules: &Rules, head: &FormHead, len: usize, behind: &'c [u8]) -> Found<'c>
    requires maker { IsMaker rules.now head.now.who }
    requires over { IsOver head.now.over }
    requires commit { digest_named head.now.commit ≡ Some head.now.commit }
    requires text { head.now.text_len ≤ TEXT_LIMIT }
    requires sealed { head.now.sealed_len ≤ SEALED_LIMIT }
    requires len { len ≤ 1024 }
    ensures call { stands_as result ≡ call_of_head (Some (of_form head.now)) len behind.now }
    ensures may { IfFound result (λ c. MayBeCalled rules.now c) }
{
    let count = head.text_len + head.sealed_len;
    if count <= behind.len() {
        let (text, rest) = behind.split_at(head.text_len);
        let submission = Submission {
            who: head.who,
            over: head.over,
            salt: head.salt,
            commit: head.commit,
            text,
            sealed: &rest[..head.sealed_len],
        };
        Found::Whole {
            call: Call::Submit(submission),
            len: len + count,
        }
    } else {
        Found::Short
    }
}

// The call that begins with this line, of so many bytes with its end, behind which these stand.
#[tactic(auto, using(crate::proofs::Reading::submit_same))]
fn find_call_of<'c>(rules: &Rules, line: &'c [u8], len: usize, behind: &'c [u8]) -> Found<'c>
    requires { len ≤ 1024 }
    ensures call { stands_as result ≡ call_of_head (head_of rules.now (head_fields line.now)) len behind.now }
    ensures may { IfFound result (λ c. MayBeCalled rules.now c) }
{
    let mut fields = Fields::of_line(line);
    let Some(kind) = fields.next() else {
        return Found::Wrong;
    };
    if kind == b"%submit".as_slice() {
        return match read_form_head(rules, fields) {
            Some(head) => find_form(rules, &head, len, behind),
            None => Found::Wrong,
        };
    }
    match read_call(rules, kind, fields) {
        Some(call) => Found::Whole { call, len },
        None => Found::Wrong,
    }
}

/// The call at the front of these bytes.
#[tactic(auto, unfolding(crate::specs::Calls::call_at))]
pub fn find_call<'c>(rules: &Rules, bytes: &'c [u8]) -> Found<'c>
    ensures call { stands_as result ≡ call_at rules.now bytes.now }
    ensures may { IfFound result (λ c. MayBeCalled rules.now c) }
{
    match find_line(bytes) {
        Line::Whole(end) => {
            let (_, behind) = bytes.split_at(end + 1);
            find_call_of(rules, &bytes[..end], end + 1, behind)
        }
        Line::Short => Found::Short,
        Line::None => Found::Wrong,
    }
}
