//! One worker: it draws numbers, stops with each that is a group's, and then makes what is to be made of it.

ghost use Rattle.std.specs.Prelude.{◌≡◌, ◌+◌, ◌<◌, ◌≤◌, ◌++◌, ◌∷◌, [], All, cond, map, nat_lt, IfOk, OnOk};
ghost use Rattle.auction_terms.specs.declared.limits.TheConstants.{MOST_GROUPS};
ghost use Rattle.group_compiler.specs.Claimed.{IsOf};
ghost use Rattle.group_compiler.specs.Gates.{IsDueOncePast};
ghost use Rattle.group_compiler.specs.inside.Works.{IsWork, draws};
ghost use Rattle.group_compiler.specs.declared.limits.TheConstants.{WORKER_DRAWS};

use crate::claim::Claim;
use crate::claims::Claims;
use crate::maker::Maker;
use crate::stop::Stop;
use std::alloc::{AllocError, Global};

/// What is made of this number, from 0.
#[derive(Drop)]
pub struct Numbered<T> {
    pub number: u64,
    pub made: T,
}

/// A claim, and what is made of each number that it drew.
#[derive(Drop)]
pub struct Work<T> {
    pub claim: Claim,
    pub results: Vec<Numbered<T>>,
}

// Draws and makes until a number is drawn that is no group's, and of which nothing is made.
pub(crate) fn make_drawn<R, G: Stop<R>, M: Maker>(
    rt: &R,
    alloc: Global,
    claims: &Claims,
    stop: &G,
    maker: &M,
    claim: Claim,
) -> Result<Work<M::Made>, AllocError>
    requires same { IsOf claims.now claim }
    requires fresh { claim.drawn ≡ [] }
    requires room { WORKER_DRAWS ≤ claim.room }
    requires due { IsDueOncePast (M.groups_of maker.now) (G.is_past stop.now) (M.is_due maker.now) }
    ensures { IfOk result (λ work. IsWork claims.now (M.count_of maker.now) (M.groups_of maker.now)
        (M.makes maker.now) (G.is_past stop.now) work × (draws work ≡ claim.room)) }
{
    let results = Vec::new(alloc);
    let mut work = Work { claim, results };
    draw_on(rt, alloc, claims, stop, maker, &mut work)?;
    Ok(work)
}

// The same, into work in which nothing is drawn yet. With each number that is a group's it stops.
fn draw_on<R, G: Stop<R>, M: Maker>(
    rt: &R,
    alloc: Global,
    claims: &Claims,
    stop: &G,
    maker: &M,
    work: &mut Work<M::Made>,
) -> Result<(), AllocError>
    requires same { IsOf claims.now work.old.claim }
    requires fresh { work.old.claim.drawn ≡ [] }
    requires none { work.old.results.items ≡ [] }
    requires room { WORKER_DRAWS ≤ work.old.claim.room }
    requires due { IsDueOncePast (M.groups_of maker.now) (G.is_past stop.now) (M.is_due maker.now) }
    ensures { OnOk result (IsWork claims.now (M.count_of maker.now) (M.groups_of maker.now)
        (M.makes maker.now) (G.is_past stop.now) work.new × (draws work.new ≡ draws work.old)) }
{
    let groups = maker.groups() as u64;
    let end = (maker.count() as u64).max(groups);
    for _turn in 0..end + 1 {
        let number = claims.draw(&mut work.claim);
        if number >= end {
            break;
        }
        if number < groups {
            stop.stop(rt, number as usize + 1);
        }
        add_made(&mut work.results, alloc, maker, number)?;
    }
    Ok(())
}

// Adds what is made of this number, from 0, if anything is.
fn add_made<M: Maker>(
    results: &mut Vec<Numbered<M::Made>>,
    alloc: Global,
    maker: &M,
    number: u64,
) -> Result<(), AllocError>
    requires due { number < M.count_of maker.now → M.is_due maker.now number }
    ensures numbers { OnOk result (map (λ r. r.number) results.new.items
        ≡ map (λ r. r.number) results.old.items
        ++ cond (nat_lt number (M.count_of maker.now)) (number ∷ []) []) }
    ensures made { OnOk result (All (λ r. M.makes maker.now r.number r.made) results.old.items
        → All (λ r. M.makes maker.now r.number r.made) results.new.items) }
{
    let count = maker.count() as u64;
    if number >= count {
        return Ok(());
    }
    results.push(make_numbered(alloc, maker, number)?)?;
    Ok(())
}

// What is made of this number, from 0.
fn make_numbered<M: Maker>(
    alloc: Global,
    maker: &M,
    number: u64,
) -> Result<Numbered<M::Made>, AllocError>
    requires few { number < MOST_GROUPS }
    requires below { number < M.count_of maker.now }
    requires due { M.is_due maker.now number }
    ensures number { IfOk result (λ numbered. numbered.number ≡ number) }
    ensures made { IfOk result (λ numbered. M.makes maker.now number numbered.made) }
{
    let made = maker.make(alloc, number as usize)?;
    Ok(Numbered { number, made })
}
