//! The counter from which workers draw group numbers.
//!
//! The counter is one word, and a draw is one addition to it, so no two draws find the same number and no worker
//! waits. What each claim has drawn is kept for contracts alone: the rule of all claims together (specs/Claims.antt)
//! says that they hold the numbers below the word, each once. Whoever has joined all claims knows it of its own list.
//!
//! A claim is a seat of the table. What it has seen, its view, is the list of numbers that it has drawn, and its room: how many
//! it may still draw. Every kind of step (`steps`) says how the view of the seat that steps changes, and that the rule holds
//! again after it:
//!
//! - opening makes the first seat, which has all the room and has drawn nothing;
//! - a split gives the room of one worker to a new seat;
//! - a draw appends the number that it found, and takes one off the room;
//! - a join hands the other seat's list and room to the one that stays;
//! - closing gives the word to whoever holds all room again, so that no other seat has drawn anything.
//!
//! The word and the rooms of all seats add up to the same number at all times. So the word never passes it, and no draw wraps.
//!
//! To mind when changing it: a draw must stay one step. A load and then a store let two workers find the same number, and
//! the rule then has no proof. Room is given by splits alone: a seat that made its own could draw beyond the word's range. The
//! numbers beyond the last group are drawn, too: each worker stops at its first one, which is how one knows that the others were.

ghost use Rattle.std.specs.Prelude.{◌≡◌};

use crate::claim::Claim;
use crate::steps::{Counted, Cut, Draws, View};
use atomic_table::Table;
use std::alloc::{AllocError, Global};
use std::marker::Model;

/// The counter. Its word is how many numbers were drawn.
#[derive(Drop)]
pub struct Claims {
    table: Table<u8, View, (), Counted, Global>,
    ghost one_word: { table.shared.table_id.words ≡ 1 },
    ghost no_slots: { table.shared.table_id.slots ≡ 0 },
}

impl Model for Claims {
    ghost use Rattle.atomic_table.specs.Seated.{TableId};

    ghost Value = { TableId };

    ghost view = { λ c. c.table.shared.table_id };
}

impl Claims {
    ghost use Rattle.std.specs.Prelude.{◌≡◌, ◌+◌, ◌<◌, ◌≤◌, [], ◌∷◌, ◌++◌, length, IfOk, IsOk};
    ghost use Rattle.group_compiler.specs.Claims.{IsEachBelow};
    ghost use Rattle.group_compiler.specs.Claimed.{IsOf};
    ghost use Rattle.group_compiler.specs.declared.limits.TheConstants.{ALL_DRAWS, WORKER_DRAWS};

    /// A counter of which nothing is drawn, and the one claim to all its draws.
    pub fn open(alloc: Global) -> Result<(Claims, Claim), AllocError>
        ensures same { IfOk result (λ opened. IsOf opened.0 opened.1) }
        ensures drawn { IfOk result (λ opened. opened.1.drawn ≡ []) }
        ensures room { IfOk result (λ opened. opened.1.room ≡ ALL_DRAWS) }
    {
        let (table, seat) = Table::of_words(alloc, &[0], &())?;
        Ok((Claims { table }, Claim { seat }))
    }

    /// Gives the draws of one worker to a new claim. It takes no memory, and nothing in it fails.
    pub fn split(&self, claim: &mut Claim) -> Result<Claim, AllocError>
        requires same { IsOf self.now claim.old }
        requires room { WORKER_DRAWS ≤ claim.old.room }

        ensures given { IsOk result }

        // The claim keeps its list, and gives its draws away.
        ensures same { IsOf self.now claim.new }
        ensures drawn { claim.new.drawn ≡ claim.old.drawn }
        ensures room { IfOk result (λ other. claim.new.room + other.room ≡ claim.old.room) }

        ensures other { IfOk result (λ other. IsOf self.now other) }
        ensures other_drawn { IfOk result (λ other. other.drawn ≡ []) }
        ensures other_room { IfOk result (λ other. other.room ≡ WORKER_DRAWS) }
    {
        let seat = self.table.shared.split_seat::<Cut>(&mut claim.seat);
        Ok(Claim { seat })
    }

    /// Draws the next number, from 0, which no claim has drawn or will draw again.
    pub fn draw(&self, claim: &mut Claim) -> u64
        requires same { IsOf self.now claim.old }
        requires room { 0 < claim.old.room }
        ensures same { IsOf self.now claim.new }
        ensures drawn { claim.new.drawn ≡ claim.old.drawn ++ result ∷ [] }
        ensures room { claim.new.room + 1 ≡ claim.old.room }
        ensures below { result < ALL_DRAWS }
    {
        self.table.shared.fetch_add::<Draws>(&mut claim.seat, 0, 1)
    }

    /// Gives the claim what the other one has drawn, and its draws.
    pub fn join(&self, claim: &mut Claim, other: Claim)
        requires same { IsOf self.now claim.old }
        requires other { IsOf self.now other }
        ensures same { IsOf self.now claim.new }
        ensures drawn { claim.new.drawn ≡ claim.old.drawn ++ other.drawn }
        ensures room { claim.new.room ≡ claim.old.room + other.room }
    {
        let Claim { seat } = other;
        self.table.shared.join_seat::<Cut>(&mut claim.seat, seat);
    }

    /// How many numbers were drawn, if the claim has every draw: its list has the numbers below, each once and no other.
    pub fn close(self, claim: Claim) -> u64
        requires same { IsOf self claim }
        requires whole { claim.room + length claim.drawn ≡ ALL_DRAWS }
        ensures each_once { IsEachBelow result claim.drawn }
        ensures count { length claim.drawn ≡ result }
    {
        let Claims { table } = self;
        let Claim { seat } = claim;
        let closed = table.close_with(seat);
        let word = closed.word(0);
        closed.free();
        word
    }
}
