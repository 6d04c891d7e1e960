//! Reading a journal again.

ghost use Rattle.std.specs.Prelude.{◌≡◌, ◌≤◌, ◌<◌, IfOk, IfSome, false, length, option_map, true};
ghost use Rattle.desk_book.specs.Calls.{head_fields};
ghost use Rattle.desk_book.specs.Asking.{IsMaker, MayBeAsked};
ghost use Rattle.desk_book.specs.Journals.{IsReadAs, SaysBeyond, says_beyond};
ghost use Rattle.desk_book.specs.ReadEntries.{entry_at, entry_read, head_at, head_in, head_read, tail_at, tail_in, tail_read};
ghost use Rattle.desk_book.specs.declared.limits.TheConstants.{SEALED_LIMIT};
ghost use Rattle.desk_book.specs.declared.replaying.ReadFault.TheVariants.{OutOfMemory};
ghost use Rattle.desk_book.specs.inside.Asking.{call_of_entry, close_of, plain, show_of, submission_of, who_of, withdrawal_of};
ghost use Rattle.desk_book.specs.inside.Fields.{head_left, tail_left};
ghost use Rattle.desk_book.specs.inside.Reading.{AreEntriesRead, IsNextEntry, IsOtherEntry, IsEntryTaken};

use crate::asked::Asked;
use crate::calls::Who;
use crate::desk::Desk;
use crate::digests::digest_of_both;
use crate::fields::{Fields, change_of, digest_in, over_of};
use crate::front::{FrontFault, find_front};
use crate::heads::{Line, find_line};
use crate::judge::Judge;
use crate::limits::SEALED_LIMIT;
use auction_terms::{MOST_BIDS, MOST_SESSIONS, RulesFault, number};
use std::alloc::{AllocError, Global};

/// The words of an entry's head line, and how many bytes the sealed form has.
#[derive(Clone, Copy)]
pub struct HeadWords<'c> {
    pub entry: &'c [u8],
    pub time: &'c [u8],
    pub bidder: &'c [u8],
    pub session: &'c [u8],
    pub kind: &'c [u8],
    pub over: &'c [u8],
    pub commit: &'c [u8],
    pub bids: &'c [u8],
    pub sealed_len: usize,
    pub durable: &'c [u8],
}

/// The words of an entry's last line.
#[derive(Clone, Copy)]
pub struct TailWords<'c> {
    pub answer: &'c [u8],
    pub number: &'c [u8],
    pub chain: &'c [u8],
}

/// An entry: its head, the sealed form, its last line, where its chain begins, and how many bytes it has.
#[derive(Clone, Copy)]
pub struct EntryText<'c> {
    pub head: HeadWords<'c>,
    pub sealed: &'c [u8],
    pub tail: TailWords<'c>,
    pub chain_at: usize,
    pub len: usize,
}

/// Why a journal isn't read.
#[derive(Clone, Copy, Debug, PartialEq, Eq)]
pub enum ReadFault {
    Front(FrontFault),
    Rules(RulesFault),
    /// What was told isn't whole from this byte on.
    Damaged { at: usize },
    OutOfMemory,
}

/// A journal that was read: the desk that goes on with it, and where its whole entries end.
#[derive(Drop)]
pub struct Replayed<J> {
    pub desk: Desk<J>,
    pub end: usize,
}

impl From<AllocError> for ReadFault {
    ghost from_gives = { λ _ e. e ≡ OutOfMemory };

    fn from(_: AllocError) -> ReadFault {
        ReadFault::OutOfMemory
    }
}

// The words of an entry's head line, of its fields.
#[tactic(auto, unfolding(crate::specs::inside::Fields::head_left))]
fn head_of_fields<'c>(mut fields: Fields<'c>) -> Option<HeadWords<'c>>
    ensures head { option_map head_read result ≡ head_left fields.entry }
    ensures sealed { IfSome result (λ words. words.sealed_len ≤ SEALED_LIMIT) }
{
    let call = fields.next()?;
    let entry = fields.next()?;
    let time = fields.next()?;
    let bidder = fields.next()?;
    let session = fields.next()?;
    let kind = fields.next()?;
    let over = fields.next()?;
    let commit = fields.next()?;
    let bids = fields.next()?;
    let sealed_len = fields.number_to(SEALED_LIMIT)?;
    let durable = fields.next()?;
    number(durable)?;
    if fields.is_done() && call == b"%call".as_slice() {
        Some(HeadWords {
            entry,
            time,
            bidder,
            session,
            kind,
            over,
            commit,
            bids,
            sealed_len,
            durable,
        })
    } else {
        None
    }
}

// The words of an entry's last line, of its fields.
#[tactic(auto, unfolding(crate::specs::inside::Fields::tail_left))]
fn tail_of_fields<'c>(mut fields: Fields<'c>) -> Option<TailWords<'c>>
    ensures { option_map tail_read result ≡ tail_left fields.entry }
{
    let reply = fields.next()?;
    let answer = fields.next()?;
    let number = fields.next()?;
    let chain = fields.next()?;
    digest_in(chain)?;
    if fields.is_done() && reply == b"%reply".as_slice() {
        Some(TailWords {
            answer,
            number,
            chain,
        })
    } else {
        None
    }
}

// The words of an entry's head line.
#[tactic(auto, using(crate::proofs::Reading::head_same))]
fn read_head(line: &[u8]) -> Option<HeadWords<'_>>
    ensures head { option_map head_read result ≡ head_in (head_fields line.now) }
    ensures sealed { IfSome result (λ words. words.sealed_len ≤ SEALED_LIMIT) }
{
    head_of_fields(Fields::of_line(line))
}

// The words of an entry's last line.
#[tactic(auto, using(crate::proofs::Reading::tail_same))]
fn read_tail(line: &[u8]) -> Option<TailWords<'_>>
    ensures { option_map tail_read result ≡ tail_in (head_fields line.now) }
{
    tail_of_fields(Fields::of_line(line))
}

// The head of the entry at the front of these bytes, and where what follows it begins.
#[tactic(auto, unfolding(crate::specs::ReadEntries::head_at))]
fn find_head(bytes: &[u8]) -> Option<(HeadWords<'_>, usize)>
    ensures head { option_map (λ found. (head_read found.0, found.1)) result ≡ head_at bytes.now }
    ensures within { IfSome result (λ found. found.1 ≤ length bytes.now) }
    ensures some { IfSome result (λ found. 0 < found.1) }
    ensures sealed { IfSome result (λ found. found.0.sealed_len ≤ SEALED_LIMIT) }
{
    let Line::Whole(end) = find_line(bytes) else {
        return None;
    };
    let words = read_head(&bytes[..end])?;
    Some((words, end + 1))
}

// The last line of an entry at the front of these bytes, and where it ends.
#[tactic(auto, unfolding(crate::specs::ReadEntries::tail_at))]
fn find_tail(bytes: &[u8]) -> Option<(TailWords<'_>, usize)>
    ensures tail { option_map (λ found. (tail_read found.0, found.1)) result ≡ tail_at bytes.now }
    ensures within { IfSome result (λ found. (64 ≤ found.1) × (found.1 < length bytes.now)) }
{
    let Line::Whole(end) = find_line(bytes) else {
        return None;
    };
    let words = read_tail(&bytes[..end])?;
    if 64 <= end { Some((words, end)) } else { None }
}

/// The entry at the front of these bytes.
#[tactic(auto, unfolding(crate::specs::ReadEntries::entry_at))]
pub fn find_entry(bytes: &[u8]) -> Option<EntryText<'_>>
    ensures entry { option_map entry_read result ≡ entry_at bytes.now }
    ensures within { IfSome result (λ e. (0 < e.len) × (e.len ≤ length bytes.now) × (e.chain_at ≤ e.len)) }
    ensures sealed { IfSome result (λ e. length e.sealed.now ≤ SEALED_LIMIT) }
{
    let (head, at) = find_head(bytes)?;
    let behind = &bytes[at..];
    if behind.len() <= head.sealed_len || behind[head.sealed_len] != b'\n' {
        return None;
    }
    let (tail, end) = find_tail(&behind[head.sealed_len + 1..])?;
    Some(EntryText {
        head,
        sealed: &behind[..head.sealed_len],
        tail,
        chain_at: at + head.sealed_len + 1 + end - 64,
        len: at + head.sealed_len + 1 + end + 1,
    })
}

impl<J: Judge + Drop> Desk<J> {
    // Who makes the call of an entry, and when.
    #[tactic(auto, unfolding(crate::specs::inside::Asking::who_of))]
    fn who_in(&self, head: &HeadWords<'_>) -> Option<Who>
        ensures who { result ≡ who_of self.now.rules (head_read head.now) }
        ensures maker { IfSome result (λ who. IsMaker self.now.rules who) }
    {
        let bidder = self.rules().bidder_number(head.bidder)?;
        let session = number(head.session)?;
        if session > MOST_SESSIONS {
            return None;
        }
        let time = number(head.time)?;
        Some(Who {
            bidder,
            session: session as u8,
            time,
        })
    }

    // The form that an entry says is handed in.
    #[tactic(auto, unfolding(crate::specs::inside::Asking::submission_of))]
    fn submission_in<'c>(&self, head: &HeadWords<'_>, sealed: &'c [u8]) -> Option<Asked<'c>>
        requires { length sealed.now ≤ SEALED_LIMIT }
        ensures asked { option_map plain result ≡ submission_of self.now.rules (head_read head.now) sealed.now }
        ensures may { IfSome result (λ asked. MayBeAsked self.now.rules asked) }
    {
        let bids = number(head.bids)?;
        if bids > MOST_BIDS as u64 {
            return None;
        }
        let who = self.who_in(head)?;
        let over = over_of(head.over)?;
        let commit = digest_in(head.commit)?;
        Some(Asked::Submit {
            who,
            over,
            commit,
            bids: bids as u32,
            sealed,
        })
    }

    #[tactic(auto, unfolding(crate::specs::inside::Asking::withdrawal_of))]
    fn withdrawal_in<'c>(&self, head: &HeadWords<'_>) -> Option<Asked<'c>>
        ensures asked { option_map plain result ≡ withdrawal_of self.now.rules (head_read head.now) }
        ensures may { IfSome result (λ asked. MayBeAsked self.now.rules asked) }
    {
        let who = self.who_in(head)?;
        let over = change_of(head.over)?;
        Some(Asked::Withdraw { who, over })
    }

    #[tactic(auto, unfolding(crate::specs::inside::Asking::show_of))]
    fn show_in<'c>(&self, head: &HeadWords<'_>) -> Option<Asked<'c>>
        ensures asked { option_map plain result ≡ show_of self.now.rules (head_read head.now) }
        ensures may { IfSome result (λ asked. MayBeAsked self.now.rules asked) }
    {
        let who = self.who_in(head)?;
        Some(Asked::Show { who })
    }

    #[tactic(auto, unfolding(crate::specs::inside::Asking::close_of))]
    fn close_in<'c>(&self, head: &HeadWords<'_>) -> Option<Asked<'c>>
        ensures asked { option_map plain result ≡ close_of self.now.rules (head_read head.now) }
        ensures may { IfSome result (λ asked. MayBeAsked self.now.rules asked) }
    {
        let time = number(head.time)?;
        Some(Asked::Close { time })
    }

    // The call of an entry.
    #[tactic(auto, unfolding(crate::specs::inside::Asking::call_of_entry))]
    fn asked_in<'c>(&self, head: &HeadWords<'_>, sealed: &'c [u8]) -> Option<Asked<'c>>
        requires { length sealed.now ≤ SEALED_LIMIT }
        ensures asked { option_map plain result ≡ call_of_entry self.now.rules (head_read head.now) sealed.now }
        ensures may { IfSome result (λ asked. MayBeAsked self.now.rules asked) }
    {
        if head.kind == b"submit".as_slice() {
            self.submission_in(head, sealed)
        } else if head.kind == b"withdraw".as_slice() {
            self.withdrawal_in(head)
        } else if head.kind == b"show".as_slice() {
            self.show_in(head)
        } else if head.kind == b"close".as_slice() {
            self.close_in(head)
        } else {
            None
        }
    }

    // Takes an entry of a journal again. Tells whether it is what the desk keeps of its call.
    fn redo(
        &mut self,
        alloc: Global,
        text: &EntryText<'_>,
        bytes: &[u8],
    ) -> Result<bool, AllocError>
        requires { length text.now.sealed.now ≤ SEALED_LIMIT }
        ensures same { IfOk result (λ is. is ≡ true → IsNextEntry self.old bytes.now self.new) }
        ensures other { IfOk result (λ is. is ≡ false
            → IsOtherEntry self.old (head_read text.now.head) text.now.sealed.now bytes.now) }
    {
        let Some(durable) = number(text.head.durable) else {
            return Ok(false);
        };
        if durable > self.extent() {
            return Ok(false);
        }
        if !self.is_open() {
            return Ok(false);
        }
        let Some(asked) = self.asked_in(&text.head, text.sealed) else {
            return Ok(false);
        };
        self.set_durable(durable);
        match self.record(alloc, &asked)? {
            Some(recorded) => Ok(recorded.entry.as_slice() == bytes),
            None => Ok(false),
        }
    }

    // Takes the entry at the front of these bytes again.
    fn take_entry(&mut self, alloc: Global, bytes: &[u8]) -> Result<Taken, AllocError>
        ensures { IfOk result (λ taken. IsEntryTaken self.old bytes.now taken self.new) }
    {
        let Some(text) = find_entry(bytes) else {
            return Ok(Taken::NoEntry);
        };
        let linked = digest_of_both(&self.chain, &bytes[..text.chain_at]);
        if linked.as_slice() != text.tail.chain {
            return Ok(Taken::NoEntry);
        }
        if self.redo(alloc, &text, &bytes[..text.len])? {
            Ok(Taken::Entry { len: text.len })
        } else {
            Ok(Taken::Other)
        }
    }
}

// What was found of an entry at the front of bytes.
#[derive(Clone, Copy)]
enum Taken {
    /// One of so many bytes, and it is taken.
    Entry { len: usize },
    /// None that is whole and has the right chain.
    NoEntry,
    /// One that the desk doesn't write.
    Other,
}

// Whether a head line at the front of these bytes says that more bytes than these were on the disk.
#[tactic(auto, unfolding(crate::specs::Journals::says_beyond))]
fn says_beyond(at: u64, bytes: &[u8]) -> bool
    ensures { result ≡ says_beyond at bytes.now }
{
    if bytes.first() != Some(&b'%') {
        return false;
    }
    match find_head(bytes) {
        Some((words, _)) => match number(words.durable) {
            Some(durable) => at < durable,
            None => false,
        },
        None => false,
    }
}

// Whether some head line in these bytes says so.
fn is_durable_beyond(at: u64, bytes: &[u8]) -> bool
    ensures beyond { result ≡ true → SaysBeyond bytes.now at }
    ensures none { result ≡ false → ¬ (SaysBeyond bytes.now at) }
{
    for place in 0..bytes.len() {
        if says_beyond(at, &bytes[place..]) {
            return true;
        }
    }
    false
}

// Takes the entries of a journal again that stand behind its front, up to the first that isn't whole, and tells where that is.
fn take_entries<J: Judge + Drop>(
    alloc: Global,
    desk: &mut Desk<J>,
    bytes: &[u8],
    front_len: usize,
) -> Result<usize, ReadFault>
    requires extent { desk.old.extent ≡ front_len }
    requires within { front_len ≤ length bytes.now }
    ensures { AreEntriesRead desk.old bytes.now front_len result desk.new }
{
    let mut at = front_len;
    'entries: loop {
        match desk.take_entry(alloc, &bytes[at..])? {
            Taken::Entry { len } => at += len,
            Taken::NoEntry if is_durable_beyond(at as u64, &bytes[at..]) => {
                return Err(ReadFault::Damaged { at });
            }
            Taken::NoEntry => return Ok(at),
            Taken::Other => return Err(ReadFault::Damaged { at }),
        }
    }
}

/// Reads the entries of a journal again, up to the first that isn't whole.
pub fn replay<J: Judge + Drop>(
    alloc: Global,
    judge: J,
    bytes: &[u8],
) -> Result<Replayed<J>, ReadFault>
    ensures { IsReadAs judge bytes.now result }
{
    let front = match find_front(bytes) {
        Ok(front) => front,
        Err(fault) => return Err(ReadFault::Front(fault)),
    };
    let mut desk = match Desk::open(alloc, judge, bytes, &front) {
        Ok(desk) => desk,
        Err(RulesFault::OutOfMemory) => return Err(ReadFault::OutOfMemory),
        Err(fault) => return Err(ReadFault::Rules(fault)),
    };
    match take_entries(alloc, &mut desk, bytes, front.len) {
        Ok(end) => {
            desk.set_durable(end as u64);
            Ok(Replayed { desk, end })
        }
        Err(fault) => Err(fault),
    }
}
