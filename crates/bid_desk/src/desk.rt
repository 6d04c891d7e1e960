//! The desk, open and stopped, and what contracts name its rules by.

ghost use Rattle.std.specs.Prelude.{◌≡◌, map, length, All, ℕ, []};
ghost use Rattle.bid_book.specs.History.{entry_value, IsLegalHistory};
ghost use Rattle.bid_desk.specs.Holding.{IsEntryOf};
ghost use Rattle.auction_terms.specs.Terms.{Terms};

use crate::held::Held;
use auction_terms::Rules;
use bid_book::Entry;
use std::marker::{Brand, Model};
use std::sync::ledger::Ledger;
use std::sync::{Mutex, MutexGuard, Wait};

/// Names a desk's rules and the number of parts of its ledger. It is for contracts alone.
pub trait Round: Ledger {
    ghost rules: { Terms };

    ghost part_count: { ℕ };
}

impl Round for Brand {
    ghost rules = { record { step = 0; categories = []; bidders = []; pools = [] } };

    ghost part_count = { 0 };
}

/// The book under its lock, and the rules.
#[derive(Drop)]
pub struct Desk<L: Round> {
    pub(crate) held: Mutex<Held<L>>,
    pub(crate) rules: Rules,
}

impl<L: Round> Model for Desk<L> {
    ghost use Rattle.std.specs.Prelude.{◌≡◌};
    ghost use Rattle.auction_terms.specs.Terms.{Terms};

    ghost Value = { Terms };

    ghost view = { λ d. d.rules };

    ghost invariant = { λ d. d.rules ≡ L.rules };
}

/// What was held, out of its lock.
#[derive(Drop)]
pub struct Stopped<L: Round> {
    pub(crate) held: Held<L>,
    pub(crate) rules: Rules,
}

impl<L: Round> Model for Stopped<L> {
    ghost use Rattle.std.specs.Prelude.{◌≡◌};
    ghost use Rattle.bid_desk.specs.Holding.{Holding};

    ghost Value = { Holding };

    ghost view = { λ s. s.held };

    ghost invariant = { λ s. s.rules ≡ L.rules };
}

impl<L: Round> Desk<L> {
    /// The rules.
    pub fn rules(&self) -> &Rules
        ensures { result.now ≡ L.rules }
    {
        &self.rules
    }

    /// Takes the lock. What is then held says of itself that its history is legal.
    pub fn enter(&self, rt: &impl Wait) -> MutexGuard<'_, Held<L>> {
        self.held.lock(rt)
    }

    /// Takes what is held out of its lock.
    pub fn stop(self) -> Stopped<L> {
        let Desk { held, rules } = self;
        Stopped {
            held: held.into_inner(),
            rules,
        }
    }
}

impl<L: Round> Stopped<L> {
    /// Puts what was held back under a lock.
    pub fn resume(self) -> Desk<L> {
        let Stopped { held, rules } = self;
        Desk {
            held: Mutex::new(held),
            rules,
        }
    }

    /// The entries in order: a legal history under the rules, and as many as the count says.
    pub fn history(&self) -> &[Entry]
        ensures entries { map entry_value result.now ≡ self.now.history }
        ensures legal { IsLegalHistory self.now.history }
        ensures rules { All (IsEntryOf L.rules) self.now.history }
        ensures count { self.now.count ≡ length self.now.history }
    {
        self.held.history()
    }
}
