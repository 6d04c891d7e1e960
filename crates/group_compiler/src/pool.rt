//! Workers that make something of each number, and draw the numbers from one counter.
//!
//! The workers start by recursion on their number, so that each proof has two claims in hand and never a list of them:
//! the one that goes on and the one whose thread is started. Once all are joined, the one claim that is left has drawn
//! every number that was drawn; each worker stopped at a number of which nothing is made and that is no group's, so none is
//! left out.

ghost use Rattle.std.specs.Thread.{IsSync};
ghost use Rattle.std.specs.Prelude.{◌≡◌, ◌+◌, ◌-◌, ◌*◌, ◌<◌, ◌≤◌, ℕ, [], length, map, IfOk};
ghost use Rattle.std.specs.List.{AllZip, range_with_len};
ghost use Rattle.group_compiler.specs.Claimed.{IsOf};
ghost use Rattle.group_compiler.specs.Compiled.{compiled};
ghost use Rattle.group_compiler.specs.Gates.{AreAllPast, IsDueOncePast};
ghost use Rattle.group_compiler.specs.inside.Works.{IsWork, draws};
ghost use Rattle.group_compiler.specs.declared.limits.TheConstants.{WORKER_DRAWS};
ghost use Rattle.auction_terms.specs.declared.limits.TheConstants.{MOST_GROUPS, MOST_WORKERS};

use crate::claim::Claim;
use crate::claims::Claims;
use crate::compiled::Compiled;
use crate::compiling::Compiler;
use crate::gate::Gate;
use crate::maker::Maker;
use crate::ordering::in_order;
use crate::stop::{AtGate, Nowhere, Stop};
use crate::work::{Work, make_drawn};
use auction_terms::Groups;
use bid_desk::ClosedBook;
use std::alloc::{AllocError, Global};
use std::sync::Wait;
use std::thread;
use std::thread::Threads;

// What every maker keeps to: how many numbers there may be.
fn within_limits<M: Maker>(maker: &M)
    ensures few { M.count_of maker.now ≤ MOST_GROUPS }
{
    maker.count();
}

// The work of two claims, as that of one.
fn join_works<R, G: Stop<R>, M: Maker>(
    claims: &Claims,
    stop: &G,
    maker: &M,
    mut mine: Work<M::Made>,
    theirs: Work<M::Made>,
) -> Result<Work<M::Made>, AllocError>
    requires mine { IsWork claims.now (M.count_of maker.now) (M.groups_of maker.now)
        (M.makes maker.now) (G.is_past stop.now) mine }
    requires theirs { IsWork claims.now (M.count_of maker.now) (M.groups_of maker.now)
        (M.makes maker.now) (G.is_past stop.now) theirs }
    ensures { IfOk result (λ both. IsWork claims.now (M.count_of maker.now) (M.groups_of maker.now)
        (M.makes maker.now) (G.is_past stop.now) both × (draws both ≡ draws mine + draws theirs)) }
{
    within_limits(maker);
    let Work { claim, mut results } = theirs;
    claims.join(&mut mine.claim, claim);
    mine.results.append(&mut results)?;
    Ok(mine)
}

// The same of what two workers give, if neither was refused memory.
fn join_both<R, G: Stop<R>, M: Maker>(
    claims: &Claims,
    stop: &G,
    maker: &M,
    mine: Result<Work<M::Made>, AllocError>,
    theirs: Result<Work<M::Made>, AllocError>,
) -> Result<Work<M::Made>, AllocError>
    requires mine { IfOk mine (IsWork claims.now (M.count_of maker.now) (M.groups_of maker.now)
        (M.makes maker.now) (G.is_past stop.now)) }
    requires theirs { IfOk theirs (IsWork claims.now (M.count_of maker.now) (M.groups_of maker.now)
        (M.makes maker.now) (G.is_past stop.now)) }
    ensures work { IfOk result (IsWork claims.now (M.count_of maker.now) (M.groups_of maker.now)
        (M.makes maker.now) (G.is_past stop.now)) }
    ensures draws { (a b : ℕ) → IfOk mine (λ work. draws work ≡ a)
        → IfOk theirs (λ work. draws work ≡ b) → IfOk result (λ both. draws both ≡ a + b) }
{
    join_works::<R, G, M>(claims, stop, maker, mine?, theirs?)
}

// Splits off a claim and joins a thread that works from it, until one worker is left, which works here.
fn run_workers<R: Threads + Sync, G: Stop<R> + Sync, M: Maker + Sync>(
    rt: &R,
    alloc: Global,
    claims: &Claims,
    workers: usize,
    stop: &G,
    maker: &M,
    mut claim: Claim,
) -> Result<Work<M::Made>, AllocError>
    requires same { IsOf claims.now claim }
    requires fresh { claim.drawn ≡ [] }
    requires room { WORKER_DRAWS * workers ≤ claim.room }
    requires workers { 0 < workers }
    requires due { IsDueOncePast (M.groups_of maker.now) (G.is_past stop.now) (M.is_due maker.now) }
    ensures { IfOk result (λ work. IsWork claims.now (M.count_of maker.now) (M.groups_of maker.now)
        (M.makes maker.now) (G.is_past stop.now) work × (draws work ≡ claim.room)) }
{
    if workers == 1 {
        return make_drawn(rt, alloc, claims, stop, maker, claim);
    }
    let other = claims.split(&mut claim)?;
    let (theirs, mine) = thread::join(
        rt,
        move || -> Result<Work<M::Made>, AllocError>
            requires { IsSync R.row × IsSync G.row × IsSync M.row × IsOf claims.now other
                × (other.drawn ≡ []) × (other.room ≡ WORKER_DRAWS)
                × IsDueOncePast (M.groups_of maker.now) (G.is_past stop.now) (M.is_due maker.now) }
            ensures { IfOk result (λ work. IsWork claims.entry.now
                (M.count_of maker.entry.now) (M.groups_of maker.entry.now)
                (M.makes maker.entry.now) (G.is_past stop.entry.now) work
                × (draws work ≡ WORKER_DRAWS)) }
        { make_drawn(rt, alloc, claims, stop, maker, other) },
        move || -> Result<Work<M::Made>, AllocError>
            requires { IsSync R.row × IsSync G.row × IsSync M.row × IsOf claims.now claim
                × (claim.drawn ≡ []) × (WORKER_DRAWS * (workers - 1) ≤ claim.room) × (1 < workers)
                × IsDueOncePast (M.groups_of maker.now) (G.is_past stop.now) (M.is_due maker.now) }
            ensures { IfOk result (λ work. IsWork claims.entry.now
                (M.count_of maker.entry.now) (M.groups_of maker.entry.now)
                (M.makes maker.entry.now) (G.is_past stop.entry.now) work
                × (draws work ≡ claim.room)) }
        { run_workers(rt, alloc, claims, workers - 1, stop, maker, claim) },
    );
    join_both::<R, G, M>(claims, stop, maker, mine, theirs)
}

// What is made of each number, in order. With the number of a group a worker stops first.
pub(crate) fn make_by<R: Threads + Sync, G: Stop<R> + Sync, M: Maker + Sync>(
    rt: &R,
    alloc: Global,
    workers: usize,
    stop: &G,
    maker: &M,
) -> Result<Vec<M::Made>, AllocError>
    requires some { 1 ≤ workers }
    requires few { workers ≤ MOST_WORKERS }
    requires due { IsDueOncePast (M.groups_of maker.now) (G.is_past stop.now) (M.is_due maker.now) }
    ensures made { IfOk result (λ all. AllZip (M.makes maker.now)
        (range_with_len 0 (M.count_of maker.now)) all.items) }
    ensures past { IfOk result (λ _. AreAllPast (M.groups_of maker.now) (G.is_past stop.now)) }
{
    let (claims, claim) = Claims::open(alloc)?;
    let work = run_workers(rt, alloc, &claims, workers, stop, maker, claim)?;
    let Work { claim, results } = work;
    claims.close(claim);
    in_order(alloc, maker, results)
}

/// What is made of each number, in order, with 1 to 64 workers, which draw the numbers from one counter. No more than one
/// thing a worker is being made at once. It waits for nothing but its own workers. If memory is refused, nothing is given.
pub fn make_each<R: Threads + Sync, M: Maker + Sync>(
    rt: &R,
    alloc: Global,
    workers: usize,
    maker: &M,
) -> Result<Vec<M::Made>, AllocError>
    requires some { 1 ≤ workers }
    requires few { workers ≤ MOST_WORKERS }
    requires due { (n : ℕ) → M.is_due maker.now n }
    ensures { IfOk result (λ all. AllZip (M.makes maker.now)
        (range_with_len 0 (M.count_of maker.now)) all.items) }
{
    make_by(rt, alloc, workers, &Nowhere, maker)
}

/// The same, but the groups' numbers are drawn, too: with each a worker stops at the gate, at which it is counted from 1, and
/// only then makes what is made of that number. So each group comes past, and nothing is made of a number before.
pub fn make_all<R: Threads + Wait + Sync, G: Gate + Sync, M: Maker + Sync>(
    rt: &R,
    alloc: Global,
    workers: usize,
    gate: &G,
    maker: &M,
) -> Result<Vec<M::Made>, AllocError>
    requires some { 1 ≤ workers }
    requires few { workers ≤ MOST_WORKERS }
    requires due { IsDueOncePast (M.groups_of maker.now) (G.is_past gate.now) (M.is_due maker.now) }
    ensures made { IfOk result (λ all. AllZip (M.makes maker.now)
        (range_with_len 0 (M.count_of maker.now)) all.items) }
    ensures past { IfOk result (λ _. AreAllPast (M.groups_of maker.now) (G.is_past gate.now)) }
{
    make_by(rt, alloc, workers, &AtGate { gate }, maker)
}

/// Compiles all groups with 1 to 64 workers, which draw the groups' numbers from one counter, and gives in order what
/// `compile_one` gives for each. A worker stops at the gate with the group's number that it drew, and then compiles that
/// group. If memory is refused, nothing is given.
pub fn compile_all<'g, R: Threads + Wait + Sync, G: Gate + Sync>(
    rt: &R,
    alloc: Global,
    book: &ClosedBook,
    groups: &'g Groups,
    workers: usize,
    gate: &G,
) -> Result<Vec<Compiled<'g>>, AllocError>
    requires some { 1 ≤ workers }
    requires few { workers ≤ MOST_WORKERS }
    ensures compiled { IfOk result (λ all. all.items ≡ map (compiled book.now) groups.now) }
    ensures past { IfOk result (λ _. AreAllPast (length groups.now) (G.is_past gate.now)) }
{
    let compiler = Compiler::new(rt, alloc, book, groups)?;
    make_all(rt, alloc, workers, gate, &compiler)
}
