//! The desk as what answers the calls of a line.

ghost use Rattle.std.specs.Prelude.{◌≡◌, ◌∷◌, ◌++◌, [], List, IfOk, OnOk, false, length, refl, take};
ghost use Rattle.std.specs.Io.KnownBytes.{Consumes, IsAtEnd};
ghost use Rattle.bid_book.specs.History.{IsRightAfterBy, entry_value};
ghost use Rattle.desk_line.specs.Fronts.{front_left};
ghost use Rattle.desk_line.specs.Served.{Batch, IsServed, calls_of};
ghost use Rattle.desk_book.specs.Answers.{IsDeskAnswer, IsDeskFront, all_durable};
ghost use Rattle.desk_book.specs.Calls.{Whole, call_at, front_of, meant};
ghost use Rattle.desk_line.specs.declared.machine.Front.TheVariants as front;
ghost use Rattle.desk_book.specs.Recording.{MayBeCalled};
ghost use Rattle.desk_book.specs.inside.Marks.{mark_of};
ghost use Rattle.desk_book.specs.declared.desk.Desk.{Desk};
ghost use Rattle.desk_book.specs.inside.MachineLaws.{extent_after, front_before, front_nothing, front_whole, front_within};

use crate::answering::Told;
use crate::calls::{Call, Found, find_call};
use crate::commitment::Commitment;
use crate::desk::Desk;
use crate::judge::Judge;
use auction_terms::Rules;
use bid_book::{Book, Entry};
use desk_line::{Front, Left, Machine, Mark, Outside, Stop, serve};
use std::alloc::{AllocError, Global};
use std::io::Read;
use std::sync::Arc;

impl<J: Judge + Drop> Machine for Desk<J> {
    ghost fronts = { λ m bytes f. IsDeskFront m bytes f };

    ghost answers = { λ m call reply entry n. IsDeskAnswer J.faults m call reply entry n };

    ghost begun = { all_durable };

    ghost extent = { λ m. m.extent };

    ghost mark_of = { mark_of };

    ghost front_within = { λ m bytes f is. front_within m.rules bytes f is };

    ghost front_whole = { λ m bytes more n is. front_whole m.rules bytes more n is };

    ghost front_nothing = { λ m. front_nothing m.rules };

    ghost front_before = { λ m n call reply entry is bytes f at. front_before J.faults m n call reply entry is bytes f at };

    ghost extent_after = { λ m n call reply entry is. extent_after J.faults m n call reply entry is };

    ghost extent_begun = { λ m. refl };

    fn front(&self, bytes: &[u8]) -> Front {
        match find_call(&self.rules, bytes) {
            Found::Whole { len, .. } => Front::Whole { len },
            Found::Short => Front::Short,
            Found::Wrong => Front::Wrong,
        }
    }

    fn step(
        &mut self,
        alloc: Global,
        call: &[u8],
        told: &mut Vec<u8>,
        kept: &mut Vec<u8>,
    ) -> Result<(), AllocError> {
        let call = whole_call(&self.rules, call);
        let Told { line, entry } = self.answer(alloc, &call)?;
        told.extend_from_slice(line.as_slice())?;
        kept.extend_from_slice(entry.as_slice())
    }

    fn begin(&mut self) {
        self.durable = self.extent;
    }

    fn mark(&self) -> Mark {
        Mark {
            entries: self.entries(),
            extent: self.extent,
            durable: self.durable,
            chain: self.chain,
        }
    }

    fn rewind(&mut self, alloc: Global, mark: &Mark) -> Result<(), AllocError> {
        self.book = first_entries(alloc, &self.book, mark.entries)?;
        self.extent = mark.extent;
        self.durable = mark.durable;
        self.chain = mark.chain;
        Ok(())
    }
}

// The call that these bytes are.
fn whole_call<'c>(rules: &Rules, bytes: &'c [u8]) -> Call<'c>
    requires { front.Whole (length bytes.now) ≡ front_of (call_at rules.now bytes.now) }
    ensures call { call_at rules.now bytes.now ≡ Whole (meant result) (length bytes.now) }
    ensures may { MayBeCalled rules.now result }
{
    match find_call(rules, bytes) {
        Found::Whole { call, .. } => call,
        Found::Short => unreachable!(),
        Found::Wrong => unreachable!(),
    }
}

// Adds an entry that comes rightly after those of a book.
fn add_copy(
    book: &mut Book<Commitment>,
    entry: &Entry<Arc<Commitment, Global>>,
) -> Result<(), AllocError>
    requires { IsRightAfterBy (λ c. c.bidder) book.old (entry_value entry.now) }
    ensures { OnOk result (book.new ≡ book.old ++ entry_value entry.now ∷ []) }
{
    let call = entry.call.share()?;
    match book.step(entry.caller, call) {
        Ok(_) => Ok(()),
        Err(_) => Err(AllocError),
    }
}

// The book of the first so many entries of another.
fn first_entries(
    alloc: Global,
    book: &Book<Commitment>,
    count: u64,
) -> Result<Book<Commitment>, AllocError>
    ensures { IfOk result (λ fresh. fresh ≡ take count book.now) }
{
    let mut fresh = Book::new(alloc);
    let history = book.history();
    let most = (history.len() as u64).min(count) as usize;
    for place in 0..most {
        add_copy(&mut fresh, &history[place])?;
    }
    Ok(fresh)
}

/// Answers the calls of an input, in whatever pieces it comes.
pub fn serve_calls<J: Judge + Drop, I: Read, O: Outside>(
    alloc: Global,
    input: &mut I,
    desk: &mut Desk<J>,
    out: &mut O,
) -> Result<Left, Stop>
    requires { desk.old.extent ≡ O.extent out.old }
    // What was told and kept is what batches of the calls that were read make of it, each as its state has to answer the call that stands in its bytes.
    ensures served { IfOk result (λ left. (batches : List (Batch (Desk J))) × IsServed (λ m bytes f. IsDeskFront m bytes f)
        (λ m call reply entry n. IsDeskAnswer J.faults m call reply entry n) all_durable (λ m. m.extent) (record {
          state = desk.old;
          kept = O.durable out.old;
          extent = O.extent out.old;
          told = O.told out.old;
          failures = O.failures out.old;
        }) (record {
          state = desk.new;
          kept = O.durable out.new;
          extent = O.extent out.new;
          told = O.told out.new;
          failures = O.failures out.new;
        }) batches × Consumes (I.remaining input.old) (I.remaining input.new) (calls_of batches ++ left.bytes.items)) }
    // No whole call is left.
    ensures left { IfOk result (λ left. IsDeskFront desk.new left.bytes.items (front_left left.is_wrong)) }
    // Nothing is left unread, unless no call can begin as what is left.
    ensures end { IfOk result (λ left. left.is_wrong ≡ false → IsAtEnd (I.remaining input.new)) }
{
    serve(alloc, input, desk, out)
}
