//! What is known of other awards of the same total.

use std::marker::Model;

/// Whether there are awards beyond those that are listed.
#[derive(Clone, Copy)]
pub enum Further {
    /// Nothing is shown of others.
    Unknown,
    /// There is no other.
    NoOther,
    /// There are others.
    More,
}

/// Awards of the same total as the one with nobody left out, in the order in which they are printed, and whether there are more.
#[derive(Drop)]
pub struct OtherAwards {
    awards: Vec<Allocation>,
    further: Further,
}

impl Model for OtherAwards {
    ghost use Rattle.outcome.specs.Others.{Others};

    ghost Value = { Others };

    ghost view = { λ o. record { awards = o.awards.items; further = o.further } };
}

impl OtherAwards {
    ghost use Rattle.std.specs.Prelude.{◌≡◌};

    pub fn new(awards: Vec<Allocation>, further: Further) -> OtherAwards
        ensures { result ≡ record { awards = awards.items; further = further } }
    {
        OtherAwards { awards, further }
    }

    /// The awards, in the order in which they are printed.
    pub fn awards(&self) -> &[Allocation]
        ensures { result.now ≡ self.now.awards }
    {
        self.awards.as_slice()
    }

    /// Whether there are more.
    pub fn further(&self) -> Further
        ensures { result ≡ self.now.further }
    {
        self.further
    }
}

ghost use Rattle.std.specs.Prelude.{◌≡◌, ◌≤◌, ◌++◌, ◌∷◌, All, IfOk, codes, drop, false, flat_map, if◌then◌else◌, length, nat_le, suc, take, true};
ghost use Rattle.byte_sinks.specs.Adds.{Adds};
ghost use Rattle.auction_terms.specs.Allocations.{IsFeasible};
ghost use Rattle.auction_terms.specs.Keeping.{is_kept_choice};
ghost use Rattle.auction_terms.specs.Terms.{lots_in};
ghost use Rattle.bid_desk.specs.Closing.{book_of};
ghost use Rattle.bid_desk.specs.Sale.{sale_of};
ghost use Rattle.outcome.specs.Others.{further_text, others_of, others_text, tie_text};

use crate::allocation::Allocation;
use crate::following::with_following;
use crate::report_lines::add_allocation;
use auction_terms::MOST_TIES;
use bid_desk::ClosedBook;
use byte_sinks::{Sink, Writer};
use std::alloc::{AllocError, Global};

/// Whether there are more awards than those that are printed.
fn further_than(awards: &[Allocation], printed: usize) -> Further
    ensures { result ≡ (if nat_le (length awards.now) printed then Further.NoOther
        else Further.More) }
{
    if awards.len() <= printed {
        return Further::NoOther;
    }
    Further::More
}

/// The first award, and after it the others.
fn with_first(
    alloc: Global,
    first: &Allocation,
    ties: Vec<Allocation>,
) -> Result<Vec<Allocation>, AllocError>
    ensures { IfOk result (λ listed. listed.items ≡ first.now ∷ ties.items) }
{
    let mut listed = Vec::new(alloc);
    let mut later = ties;
    listed.push(Allocation::new(first.choices().to_vec(alloc)?))?;
    listed.append(&mut later)?;
    Ok(listed)
}

/// Of awards that begin with the first one, the others, as many as are printed, and whether there are more.
fn others_among(awards: Vec<Allocation>) -> OtherAwards
    requires { 1 ≤ length awards.items }
    ensures awards { result.awards ≡ drop 1 (take (suc MOST_TIES) awards.items) }
    ensures further { result.further ≡ (if nat_le (length awards.items) (suc MOST_TIES)
        then Further.NoOther else Further.More) }
{
    let printed = usize::from(MOST_TIES) + 1;
    let further = further_than(&awards, printed);
    let mut others = awards;
    others.truncate(printed);
    others.remove(0);
    OtherAwards::new(others, further)
}

/// What is known of other awards, where the first one, with nobody left out, and these ties are all awards of kept bids: the ties, and those
/// that follow from any of them, as many as `MOST_TIES`.
pub fn others_of(
    alloc: Global,
    book: &ClosedBook,
    first: &Allocation,
    ties: Vec<Allocation>,
) -> Result<OtherAwards, AllocError>
    requires feasible { All (IsFeasible (lots_in book.now.rules) (book_of book.now) (λ b. false))
        (first.now ∷ ties.items) }
    requires kept { All (All (λ c. is_kept_choice (lots_in book.now.rules) (book_of book.now)
        (λ b. false) c ≡ true)) (first.now ∷ ties.items) }
    ensures { IfOk result (λ others. others
        ≡ others_of (lots_in book.now.rules) (book_of book.now) (first.now ∷ ties.items)) }
{
    let listed = with_first(alloc, first, ties)?;
    let awards = with_following(alloc, book, listed, MOST_TIES + 2)?;
    Ok(others_among(awards))
}

/// Adds the line of each tie, and the award.
fn add_ties<S: Sink>(writer: &mut Writer<'_, S>, book: &ClosedBook, awards: &[Allocation])
    ensures { Adds S.state writer.old writer.new
        (flat_map (tie_text (sale_of book.now)) awards.now) }
{
    for award in awards {
        writer.add(b"tie\n");
        add_allocation(writer, book, award.choices());
    }
}

/// The last line, where something is shown of further awards.
fn last_line(awards: &[Allocation], further: Further) -> &'static [u8]
    ensures { result.now ≡ further_text awards.now further }
{
    match further {
        Further::Unknown => b"",
        Further::NoOther if awards.is_empty() => b"unique\n",
        Further::NoOther => b"no other\n",
        Further::More => b"and more\n",
    }
}

/// Adds what is known of other awards.
pub fn add_others<S: Sink>(writer: &mut Writer<'_, S>, book: &ClosedBook, others: &OtherAwards)
    ensures { Adds S.state writer.old writer.new
        (others_text (sale_of book.now) others.now) }
{
    let awards = others.awards();
    add_ties(writer, book, awards);
    writer.add(last_line(awards, others.further()));
}
