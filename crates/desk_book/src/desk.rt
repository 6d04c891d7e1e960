//! A desk: its rules, its book, and the end of its journal.

ghost use Rattle.std.specs.Prelude.{◌≡◌, ◌≤◌, ◌+◌, Err, IfErr, IfOk, false, length, not};
ghost use Rattle.auction_terms.specs.RulesText.{is_rules_memory};
ghost use Rattle.bid_book.specs.History.{is_closed};
ghost use Rattle.desk_book.specs.Fronts.{front_found};
ghost use Rattle.desk_book.specs.Journals.{IsOpened, rules_read};

use crate::commitment::Commitment;
use crate::digests::digest_of;
use crate::front::DeskFront;
use crate::judge::Judge;
use auction_terms::{Rules, RulesFault, read_rules};
use bid_book::{Book, Caller, Entry, Reply};
use std::alloc::{AllocError, Global};
use std::sync::Arc;

/// A desk. Its journal has so many bytes, of which so many were on the disk before the calls that are answered now.
#[derive(Drop)]
pub struct Desk<J> {
    pub(crate) judge: J,
    pub(crate) rules: Rules,
    pub(crate) rules_text: Vec<u8>,
    pub(crate) book: Book<Commitment>,
    pub(crate) extent: u64,
    pub(crate) durable: u64,
    pub(crate) chain: [u8; 64],
}

/// How many entries a bidder has, and how many of them are changes.
#[derive(Clone, Copy, Debug, PartialEq, Eq)]
pub struct Counts {
    pub entries: usize,
    pub changes: usize,
}

// Counts an entry of a bidder.
fn count_entry(counts: &mut [Counts], entry: &Entry<Arc<Commitment, Global>>) {
    let Caller::Session { bidder, .. } = entry.caller else {
        return;
    };
    let Some(count) = counts.get_mut(usize::from(bidder).saturating_sub(1)) else {
        return;
    };
    count.entries = count.entries.saturating_add(1);
    if matches!(
        entry.reply,
        Reply::Accepted { .. } | Reply::Withdrawn { .. }
    ) {
        count.changes = count.changes.saturating_add(1);
    }
}

impl<J: Judge + Drop> Desk<J> {
    /// A desk whose journal is the front of these bytes alone.
    pub fn open(
        alloc: Global,
        judge: J,
        bytes: &[u8],
        front: &DeskFront<'_>,
    ) -> Result<Desk<J>, RulesFault>
        requires { front.now.len ≤ length bytes.now }
        ensures opened { IfOk result (λ desk. IsOpened judge bytes.now (front_found front.now) desk) }
        ensures refused { IfErr result (λ why. is_rules_memory why ≡ false → rules_read front.now.rules.now ≡ Err why) }
    {
        let rules = read_rules(alloc, front.rules)?;
        let rules_text = Vec::from_slice(alloc, front.rules)?;
        Ok(Desk {
            judge,
            rules,
            rules_text,
            book: Book::new(alloc),
            extent: front.len as u64,
            durable: front.len as u64,
            chain: digest_of(&bytes[..front.len]),
        })
    }

    pub fn rules(&self) -> &Rules
        ensures { result.now ≡ self.now.rules }
    {
        &self.rules
    }

    pub fn book(&self) -> &Book<Commitment>
        ensures { result.now ≡ self.now.book }
    {
        &self.book
    }

    /// What each bidder of the rules has, in their order.
    pub fn counts(&self, alloc: Global) -> Result<Vec<Counts>, AllocError> {
        let mut counts = Vec::new(alloc);
        for _bidder in self.rules.bidders() {
            counts.push(Counts {
                entries: 0,
                changes: 0,
            })?;
        }
        for entry in self.book.history() {
            count_entry(&mut counts, entry);
        }
        Ok(counts)
    }

    pub fn entries(&self) -> u64
        ensures { result ≡ length self.now.book }
    {
        self.book.history().len() as u64
    }

    // The number of the next entry.
    pub(crate) fn next_number(&self) -> u64
        ensures { result ≡ length self.now.book + 1 }
    {
        self.book.history().len() as u64 + 1
    }

    /// How many bytes the journal has.
    pub fn extent(&self) -> u64
        ensures { result ≡ self.now.extent }
    {
        self.extent
    }

    /// The chain's end.
    pub fn chain(&self) -> &[u8; 64]
        ensures { result.now ≡ self.now.chain }
    {
        &self.chain
    }

    pub fn is_open(&self) -> bool
        ensures { result ≡ not (is_closed self.now.book) }
    {
        self.book.is_open()
    }

    // Takes so many bytes of the journal as being on the disk.
    pub(crate) fn set_durable(&mut self, durable: u64)
        ensures { self.new ≡ record self.old { durable = durable } }
    {
        self.durable = durable;
    }
}
