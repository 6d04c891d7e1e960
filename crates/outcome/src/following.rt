//! Awards that follow from others: winning bids are replaced by bids of their forms that are in no program.

ghost use Rattle.std.specs.Prelude.{◌≡◌, ◌<◌, ◌≤◌, ◌++◌, All, IfOk, IfSome, MatchOption, OnOk, Some, false, flat_map, length, nat_le, slice_get, slice_index_or, slice_set, take, true};
ghost use Rattle.std.specs.List.{list_all, list_any};
ghost use Rattle.std.specs.Option.{option_map};
ghost use Rattle.auction_terms.specs.Allocations.{IsFeasible, bid_of, form_of, loads};
ghost use Rattle.auction_terms.specs.Keeping.{is_kept_choice};
ghost use Rattle.auction_terms.specs.Limits.{IsBid, IsBook};
ghost use Rattle.auction_terms.specs.Domination.{dominates, is_kept, net};
ghost use Rattle.auction_terms.specs.Packages.{fits, left};
ghost use Rattle.auction_terms.specs.Terms.{lots_in};
ghost use Rattle.auction_terms.specs.declared.limits.TheConstants.{GREATEST_QUANTITY, MOST_BIDS};
ghost use Rattle.bid_desk.specs.Closing.{book_of};
ghost use Rattle.outcome.specs.Following.{awards, cover, covers, following, is_stand_in, with_following};
ghost use Rattle.outcome.specs.declared.following.Winner.{Winner};
ghost use Rattle.outcome.specs.inside.Following.{both_packages, each_put, numbers_passing, options, replaces};

use crate::allocation::Allocation;
use crate::costs::lots_taken;
use arrayvec::ArrayVec;
use auction_terms::{Bid, Choice, GREATEST_QUANTITY, Package};
use bid_desk::ClosedBook;
use std::alloc::{AllocError, Global};

/// What the choices take together. They fit, so that it is a package.
pub(crate) fn taken(book: &ClosedBook, choices: &[Choice]) -> Package
    requires { IsFeasible (lots_in book.now.rules) (book_of book.now) (λ b. false) choices.now }
    ensures loads { result ≡ loads (lots_in book.now.rules) (book_of book.now) choices.now }
    ensures book { IsBook (lots_in book.now.rules) (book_of book.now) }
{
    let mut lots = ArrayVec::new();
    for category in 0..book.rules().categories().len() {
        lots.push(lots_taken(book, category, choices) as u16);
    }
    Package::of(lots)
}

/// What the others take, if one of them has its own package.
pub(crate) fn without(taken: &Package, own: &Package) -> Package
    requires { length taken.now ≡ length own.now }
    ensures { result ≡ left taken.now own.now }
{
    let all = taken.quantities();
    let part = own.quantities();
    let mut others = ArrayVec::new();
    for (place, &quantity) in all.iter().enumerate() {
        others.push(quantity.saturating_sub(part[place]));
    }
    Package::of(others)
}

/// Both packages, if no category has more than a package may have.
fn together(others: &Package, own: &Package) -> Option<Package>
    requires { length others.now ≡ length own.now }
    ensures { MatchOption result (list_all (λ quantity. nat_le quantity GREATEST_QUANTITY)
        (both_packages others.now own.now) ≡ false)
        (λ both. both ≡ both_packages others.now own.now) }
{
    let theirs = others.quantities();
    let ours = own.quantities();
    let mut both = ArrayVec::new();
    for (place, &lots) in theirs.iter().enumerate() {
        let quantity = lots + ours[place];
        if u64::from(quantity) > GREATEST_QUANTITY {
            return None;
        }
        both.push(quantity);
    }
    Some(Package::of(both))
}

/// Whether a package fits with what the others take.
pub(crate) fn fits_with(book: &ClosedBook, others: &Package, own: &Package) -> bool
    requires others { length others.now ≡ length book.now.rules.categories }
    requires own { length own.now ≡ length book.now.rules.categories }
    ensures { result ≡ fits (lots_in book.now.rules) (both_packages others.now own.now) }
{
    let rules = book.rules();
    match together(others, own) {
        Some(both) => both.fits(rules),
        None => false,
    }
}

/// Whether the first bid makes the second needless.
fn dominates(book: &ClosedBook, x: &Bid, y: &Bid) -> bool
    requires x { IsBid (lots_in book.now.rules) x.now }
    requires y { IsBid (lots_in book.now.rules) y.now }
    ensures { result ≡ dominates (lots_in book.now.rules) x.now y.now }
{
    let rules = book.rules();
    y.package.covers(&x.package) && !x.package.covers(&y.package) && rules.net(y) <= rules.net(x)
}

/// Whether a bid of the form makes this one needless.
fn is_dominated(book: &ClosedBook, bids: &[Bid], x: &Bid) -> bool
    requires bids { All (IsBid (lots_in book.now.rules)) bids.now }
    requires x { IsBid (lots_in book.now.rules) x.now }
    ensures { result ≡ list_any (λ y. dominates (lots_in book.now.rules) y x.now) bids.now }
{
    for y in bids {
        if dominates(book, y, x) {
            return true;
        }
    }
    false
}

/// Whether a bid of the form is in programs.
fn is_kept(book: &ClosedBook, bids: &[Bid], x: &Bid) -> bool
    requires bids { All (IsBid (lots_in book.now.rules)) bids.now }
    requires x { IsBid (lots_in book.now.rules) x.now }
    ensures { result ≡ is_kept (lots_in book.now.rules) bids.now x.now }
{
    let rules = book.rules();
    x.package.fits(rules) && rules.net(x) >= 0 && !is_dominated(book, bids, x)
}

/// Whether a bid of the form is in programs, with the net of x and a package at most that of x. Few bids have the same net, so it is
/// compared first.
fn covers(book: &ClosedBook, bids: &[Bid], x: &Bid, y: &Bid) -> bool
    requires bids { All (IsBid (lots_in book.now.rules)) bids.now }
    requires x { IsBid (lots_in book.now.rules) x.now }
    requires y { IsBid (lots_in book.now.rules) y.now }
    ensures { result ≡ covers (lots_in book.now.rules) bids.now x.now y.now }
{
    let rules = book.rules();
    rules.net(y) == rules.net(x) && x.package.covers(&y.package) && is_kept(book, bids, y)
}

/// The number of the first such bid.
fn cover(book: &ClosedBook, bids: &[Bid], x: &Bid) -> Option<u16>
    requires few { length bids.now ≤ MOST_BIDS }
    requires bids { All (IsBid (lots_in book.now.rules)) bids.now }
    requires x { IsBid (lots_in book.now.rules) x.now }
    ensures { result ≡ cover (lots_in book.now.rules) bids.now x.now }
{
    for (place, y) in bids.iter().enumerate() {
        if covers(book, bids, x, y) {
            return Some(place as u16 + 1);
        }
    }
    None
}

/// Whether a bid of the form stands in for the one of this number.
fn is_stand_in(book: &ClosedBook, bids: &[Bid], number: u16, x: &Bid) -> bool
    requires few { length bids.now ≤ MOST_BIDS }
    requires bids { All (IsBid (lots_in book.now.rules)) bids.now }
    requires x { IsBid (lots_in book.now.rules) x.now }
    ensures { result ≡ is_stand_in (lots_in book.now.rules) bids.now number x.now }
{
    if is_kept(book, bids, x) {
        return false;
    }
    match cover(book, bids, x) {
        Some(first) => first == number,
        None => false,
    }
}

/// A winner, the bids of its form, and the one of them that wins.
#[derive(Drop)]
struct Winner<'b> {
    choice: Choice,
    bids: &'b [Bid],
    won: &'b Bid,
}

/// The winner of a choice, if there is such a bid.
fn winner_of(book: &ClosedBook, choice: Choice) -> Option<Winner<'_>>
    ensures choice { IfSome result (λ winner. winner.choice ≡ choice) }
    ensures bids { IfSome result (λ winner. winner.bids.now
        ≡ form_of (book_of book.now) choice.bidder) }
    ensures won { option_map (λ (winner : Winner). winner.won.now) result
        ≡ bid_of (book_of book.now) choice }
    ensures few { IfSome result (λ winner. length winner.bids.now ≤ MOST_BIDS) }
    ensures are_bids { IfSome result (λ winner. All (IsBid (lots_in book.now.rules))
        winner.bids.now) }
    ensures is_bid { IfSome result (λ winner. IsBid (lots_in book.now.rules) winner.won.now) }
{
    let bids = book.form(choice.bidder)?.bids();
    if choice.bid == 0 {
        return None;
    }
    let won = bids.get(usize::from(choice.bid) - 1)?;
    Some(Winner { choice, bids, won })
}

/// Whether a bid has the winner's net, fits with what the others take, and stands in for the winner's. Few bids do the first, so that the
/// last is seldom asked.
fn replaces(book: &ClosedBook, winner: &Winner<'_>, others: &Package, x: &Bid) -> bool
    requires few { length winner.now.bids.now ≤ MOST_BIDS }
    requires bids { All (IsBid (lots_in book.now.rules)) winner.now.bids.now }
    requires won { IsBid (lots_in book.now.rules) winner.now.won.now }
    requires others { length others.now ≡ length book.now.rules.categories }
    requires x { IsBid (lots_in book.now.rules) x.now }
    ensures { result ≡ replaces (lots_in book.now.rules) winner.now.bids.now
        winner.now.choice.bid (net (lots_in book.now.rules) winner.now.won.now) others.now x.now }
{
    let rules = book.rules();
    rules.net(x) == rules.net(winner.won)
        && fits_with(book, others, &x.package)
        && is_stand_in(book, winner.bids, winner.choice.bid, x)
}

/// The award with another bid of the same bidder at this place.
fn with_bid(
    alloc: Global,
    award: &Allocation,
    place: usize,
    bid: Choice,
) -> Result<Allocation, AllocError>
    requires within { place < length award.now }
    requires same { (slice_index_or award.now place bid).bidder ≡ bid.bidder }
    ensures { IfOk result (λ other. other ≡ slice_set award.now place bid) }
{
    let mut choices = award.choices().to_vec(alloc)?;
    choices[place] = bid;
    Ok(Allocation::new(choices))
}

/// A winner at its place in an award, and what the others take.
#[derive(Drop)]
struct Seat<'b> {
    award: &'b Allocation,
    place: usize,
    winner: Winner<'b>,
    others: Package,
}

/// Adds the award with each bid that replaces the winner's, as long as there are fewer than `most`.
fn add_replaced(
    alloc: Global,
    found: &mut Vec<Allocation>,
    book: &ClosedBook,
    seat: &Seat<'_>,
    most: usize,
) -> Result<(), AllocError>
    requires few { length seat.now.winner.bids.now ≤ MOST_BIDS }
    requires bids { All (IsBid (lots_in book.now.rules)) seat.now.winner.bids.now }
    requires won { IsBid (lots_in book.now.rules) seat.now.winner.won.now }
    requires others { length seat.now.others ≡ length book.now.rules.categories }
    requires at { slice_get seat.now.award.now seat.now.place ≡ Some seat.now.winner.choice }
    requires room { length found.old.items ≤ most }
    ensures { OnOk result (found.new.items ≡ take most (found.old.items
        ++ each_put seat.now.award.now seat.now.place seat.now.winner.choice.bidder
        (numbers_passing (replaces (lots_in book.now.rules) seat.now.winner.bids.now
        seat.now.winner.choice.bid (net (lots_in book.now.rules) seat.now.winner.won.now)
        seat.now.others) seat.now.winner.bids.now))) }
{
    let bidder = seat.winner.choice.bidder;
    for (at, x) in seat.winner.bids.iter().enumerate() {
        if found.len() >= most {
            return Ok(());
        }
        if replaces(book, &seat.winner, &seat.others, x) {
            let bid = at as u16 + 1;
            let choice = Choice { bidder, bid };
            found.push(with_bid(alloc, seat.award, seat.place, choice)?)?;
        }
    }
    Ok(())
}

/// Adds the award, and it with each bid that replaces the winner at this place, as long as there are fewer than `most`.
fn add_options(
    alloc: Global,
    found: &mut Vec<Allocation>,
    book: &ClosedBook,
    award: &Allocation,
    place: usize,
    choice: Choice,
    most: usize,
) -> Result<(), AllocError>
    requires feasible { IsFeasible (lots_in book.now.rules) (book_of book.now) (λ b. false)
        award.now }
    requires at { slice_get award.now place ≡ Some choice }
    requires room { length found.old.items ≤ most }
    ensures { OnOk result (found.new.items ≡ take most (found.old.items
        ++ options (lots_in book.now.rules) (book_of book.now) place choice award.now)) }
{
    if found.len() >= most {
        return Ok(());
    }
    found.push(with_bid(alloc, award, place, choice)?)?;
    let taken = taken(book, award.choices());
    let Some(winner) = winner_of(book, choice) else {
        return Ok(());
    };
    let others = without(&taken, &winner.won.package);
    let seat = Seat {
        award,
        place,
        winner,
        others,
    };
    add_replaced(alloc, found, book, &seat, most)
}

/// These awards, each also with the bids that replace the winner at this place, as many as `most`.
fn with_one_more(
    alloc: Global,
    book: &ClosedBook,
    awards: &[Allocation],
    place: usize,
    choice: Choice,
    most: usize,
) -> Result<Vec<Allocation>, AllocError>
    requires feasible { All (IsFeasible (lots_in book.now.rules) (book_of book.now) (λ b. false))
        awards.now }
    requires at { All (λ award. slice_get award place ≡ Some choice) awards.now }
    ensures { IfOk result (λ found. found.items ≡ take most (flat_map
        (options (lots_in book.now.rules) (book_of book.now) place choice) awards.now)) }
{
    let mut found = Vec::new(alloc);
    for award in awards {
        add_options(alloc, &mut found, book, award, place, choice, most)?;
    }
    Ok(found)
}

/// The award itself, and those that follow from it, as many as `most`.
fn awards_of(
    alloc: Global,
    book: &ClosedBook,
    award: &Allocation,
    most: usize,
) -> Result<Vec<Allocation>, AllocError>
    requires some { 1 ≤ most }
    requires feasible { IsFeasible (lots_in book.now.rules) (book_of book.now) (λ b. false)
        award.now }
    requires kept { All (λ c. is_kept_choice (lots_in book.now.rules) (book_of book.now)
        (λ b. false) c ≡ true) award.now }
    ensures { IfOk result (λ found. found.items ≡ take most
        (awards (lots_in book.now.rules) (book_of book.now) award.now)) }
{
    book.within_limits();
    let choices = award.choices();
    let mut found = Vec::new(alloc);
    found.push(Allocation::new(choices.to_vec(alloc)?))?;
    for (place, choice) in choices.iter().enumerate() {
        found = with_one_more(alloc, book, &found, place, *choice, most)?;
    }
    Ok(found)
}

/// The awards that follow from one, as many as `most`.
fn following(
    alloc: Global,
    book: &ClosedBook,
    award: &Allocation,
    most: u16,
) -> Result<Vec<Allocation>, AllocError>
    requires feasible { IsFeasible (lots_in book.now.rules) (book_of book.now) (λ b. false)
        award.now }
    requires kept { All (λ c. is_kept_choice (lots_in book.now.rules) (book_of book.now)
        (λ b. false) c ≡ true) award.now }
    ensures { IfOk result (λ found. found.items ≡ take most
        (following (lots_in book.now.rules) (book_of book.now) award.now)) }
{
    let mut found = awards_of(alloc, book, award, usize::from(most) + 1)?;
    if !found.is_empty() {
        found.remove(0);
    }
    Ok(found)
}

/// Adds awards to those that are found, of which as many as `most` stay.
fn add_more(found: &mut Vec<Allocation>, more: Vec<Allocation>, most: u16) -> Result<(), AllocError>
    ensures { OnOk result (found.new.items ≡ take most (found.old.items ++ more.items)) }
{
    let mut later = more;
    found.append(&mut later)?;
    found.truncate(usize::from(most));
    Ok(())
}

/// The awards that follow from each of these in turn, as many as `most`.
fn all_following(
    alloc: Global,
    book: &ClosedBook,
    listed: &[Allocation],
    most: u16,
) -> Result<Vec<Allocation>, AllocError>
    requires feasible { All (IsFeasible (lots_in book.now.rules) (book_of book.now) (λ b. false))
        listed.now }
    requires kept { All (All (λ c. is_kept_choice (lots_in book.now.rules) (book_of book.now)
        (λ b. false) c ≡ true)) listed.now }
    ensures { IfOk result (λ found. found.items ≡ take most (flat_map
        (following (lots_in book.now.rules) (book_of book.now)) listed.now)) }
{
    let mut found = Vec::new(alloc);
    for award in listed {
        let more = following(alloc, book, award, most)?;
        add_more(&mut found, more, most)?;
    }
    Ok(found)
}

/// These awards, and after them those that follow from each in turn, as many as `most`.
pub(crate) fn with_following(
    alloc: Global,
    book: &ClosedBook,
    listed: Vec<Allocation>,
    most: u16,
) -> Result<Vec<Allocation>, AllocError>
    requires feasible { All (IsFeasible (lots_in book.now.rules) (book_of book.now) (λ b. false))
        listed.items }
    requires kept { All (All (λ c. is_kept_choice (lots_in book.now.rules) (book_of book.now)
        (λ b. false) c ≡ true)) listed.items }
    ensures { IfOk result (λ found. found.items ≡ take most
        (with_following (lots_in book.now.rules) (book_of book.now) listed.items)) }
{
    let more = all_following(alloc, book, &listed, most)?;
    let mut found = listed;
    add_more(&mut found, more, most)?;
    Ok(found)
}
