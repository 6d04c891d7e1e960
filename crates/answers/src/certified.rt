//! Whether the certificates of groups show that nobody wins more.

ghost use Rattle.std.specs.Prelude.{◌≡◌, ◌⊎◌, ◌+◌, ◌-◌, ◌≤◌, IfErr, IfOk, Ok, OnOk, length, map};
ghost use Rattle.std.specs.List.{AllZip};
ghost use Rattle.bid_desk.specs.Sale.{sale_of};
ghost use Rattle.answers.specs.Certified.{bound_of, bounds_of, certified, shown};
ghost use Rattle.auction_input.specs.Refused.{Refuses};
ghost use Rattle.auction_input.specs.Settled.{held};
ghost use Rattle.answers.specs.Certified.{IsTooWide};
ghost use Rattle.answers.specs.inside.Judging.{AllShown, AreFine, IsFirstFaulty, IsJudged, IsJudgedIfBegun, bounds_by, bound_held};
ghost use Rattle.auction_terms.specs.Lines.{bytes_of};
ghost use Rattle.auction_terms.specs.Stages.{each_in_turn};
ghost use Rattle.group_compiler.specs.Compiled.{compiling};

use crate::first_faulty::Lowest;
use auction_input::{Auction, PartKind, Refusal};
use auction_terms::{Group, Groups};
use bid_desk::ClosedBook;
use group_compiler::{Compiler, GroupPrograms};
use optimality::check_selection;
use outcome::{Allocation, total};
use program_rows::{CertificateFault, CertificateFaultKind};
use rayon::prelude::*;
use std::alloc::{AllocError, Global};
use std::thread::Threads;

/// A certificate with its number, from 1, and the objective below which it is to show no point of the program without a group.
#[derive(Clone, Copy)]
pub struct ClaimedBound<'c> {
    pub number: usize,
    pub group: &'c Group,
    pub least: i128,
    pub certificate: &'c [u8],
}

/// Checks that there is a certificate for each group, and that each shows, by the auction's compiler, that nobody wins more
/// without its group than the allocation that is won.
pub fn check_certificates(
    rt: &(impl Threads + Sync),
    alloc: Global,
    auction: &Auction<'_>,
    compiler: &Compiler<'_, '_>,
    won: &[Allocation],
) -> Result<(), Refusal>
    requires compiler { compiler.now ≡ compiling auction.now.book auction.now.groups }
    requires won { length won.now ≡ length auction.now.groups }
    ensures shown { OnOk result (certified (held auction.now) won.now ≡ Ok won.now) }
    ensures refuses { IfErr result (λ r. Refuses (certified (held auction.now) won.now) r
        ⊎ ((length (held auction.now).certificates ≡ length auction.now.groups)
        × IsTooWide (bounds_of (held auction.now) won.now) r)) }
{
    let Auction {
        book,
        groups,
        certificates,
        ..
    } = auction;
    if certificates.len() != groups.count() {
        return Err(Refusal::PartCount(PartKind::Certificate));
    }
    let bounds = bounds_of(alloc, book, groups, won, certificates.as_slice())?;
    let programs = compiler.group_programs(alloc)?;
    check_each(rt, alloc, &programs, bounds.as_slice())
}

// What each certificate is to show, in order.
fn bounds_of<'c>(
    alloc: Global,
    book: &ClosedBook,
    groups: &'c Groups,
    allocations: &[Allocation],
    certificates: &[&'c [u8]],
) -> Result<Vec<ClaimedBound<'c>>, AllocError>
    requires allocations { length allocations.now ≡ length groups.now }
    requires certificates { length certificates.now ≡ length groups.now }
    ensures { IfOk result (λ bounds. map (bound_held book.now) bounds.items
        ≡ bounds_by book.now groups.now allocations.now (bytes_of certificates.now)) }
{
    let mut bounds = Vec::new(alloc);
    for place in 0..groups.count() {
        let bound = bound_of(
            place + 1,
            book,
            groups.group(place + 1),
            &allocations[place],
            certificates[place],
        );
        bounds.push(bound)?;
    }
    Ok(bounds)
}

// What a certificate is to show of an allocation that is won without a group.
fn bound_of<'c>(
    number: usize,
    book: &ClosedBook,
    group: &'c Group,
    allocation: &Allocation,
    certificate: &'c [u8],
) -> ClaimedBound<'c>
    ensures { bound_held book.now result
        ≡ bound_of (sale_of book.now) ((group.now, allocation.now), certificate.now) }
{
    ClaimedBound {
        number,
        group,
        least: -(total(book, allocation) as i128),
        certificate,
    }
}

// Checks certificates, side by side, and reports the first faulty one.
fn check_each(
    rt: &(impl Threads + Sync),
    alloc: Global,
    programs: &GroupPrograms<'_>,
    bounds: &[ClaimedBound<'_>],
) -> Result<(), Refusal>
    ensures shown { OnOk result (AllShown (map (bound_held programs.now) bounds.now)) }
    ensures refuses { IfErr result (λ r. Refuses
        (each_in_turn shown 1 (map (bound_held programs.now) bounds.now)) r
        ⊎ IsTooWide (map (bound_held programs.now) bounds.now) r) }
{
    let verdicts = verdicts_of(rt, alloc, programs, bounds)?;
    first_refused(alloc, programs, bounds, verdicts.as_slice())
}

// What each certificate comes to, but for those after one that is known to be faulty. Checking one is worth a thread, however
// few there are; its program takes what it needs from the one that is made for all.
fn verdicts_of(
    rt: &(impl Threads + Sync),
    alloc: Global,
    programs: &GroupPrograms<'_>,
    bounds: &[ClaimedBound<'_>],
) -> Result<Vec<Option<Result<(), CertificateFault>>>, AllocError>
    ensures { IfOk result (λ verdicts. AllZip (IsJudgedIfBegun programs.now) bounds.now
        verdicts.items) }
{
    let faulty = Lowest::none();
    let faulty = &faulty;
    bounds
        .par_iter()
        .with_min_len(1)
        .map(
            |bound: &ClaimedBound<'_>| -> Option<Result<(), CertificateFault>>
                ensures { IsJudgedIfBegun programs.entry.now bound.now result }
            { verdict_unless_after(alloc, programs, faulty, bound) },
        )
        .collect(rt, alloc)
}

// What a certificate comes to; nothing, where one before it is known to be faulty.
fn verdict_unless_after(
    alloc: Global,
    programs: &GroupPrograms<'_>,
    faulty: &Lowest,
    bound: &ClaimedBound<'_>,
) -> Option<Result<(), CertificateFault>>
    ensures { IsJudgedIfBegun programs.now bound.now result }
{
    if faulty.is_below(bound.number) {
        return None;
    }
    let verdict = verdict_of(alloc, programs, bound);
    if verdict.is_err() {
        faulty.note(bound.number);
    }
    Some(verdict)
}

// What a certificate comes to.
fn verdict_of(
    alloc: Global,
    programs: &GroupPrograms<'_>,
    bound: &ClaimedBound<'_>,
) -> Result<(), CertificateFault>
    ensures { IsJudged programs.now bound.now result }
{
    let Ok(program) = programs.without(alloc, bound.group) else {
        return Err(CertificateFault {
            line: 0,
            kind: CertificateFaultKind::OutOfMemory,
        });
    };
    check_selection(alloc, bound.certificate, &program, bound.least)
}

// The verdict that is there, or else what the certificate comes to.
fn settled(
    alloc: Global,
    programs: &GroupPrograms<'_>,
    bound: &ClaimedBound<'_>,
    verdict: Option<Result<(), CertificateFault>>,
) -> Result<(), CertificateFault>
    requires { IsJudgedIfBegun programs.now bound.now verdict }
    ensures { IsJudged programs.now bound.now result }
{
    match verdict {
        Some(verdict) => verdict,
        None => verdict_of(alloc, programs, bound),
    }
}

// The first fault among verdicts, with its number from 1. After it may be certificates without one, and none before it.
fn first_refused(
    alloc: Global,
    programs: &GroupPrograms<'_>,
    bounds: &[ClaimedBound<'_>],
    verdicts: &[Option<Result<(), CertificateFault>>],
) -> Result<(), Refusal>
    requires { AllZip (IsJudgedIfBegun programs.now) bounds.now verdicts.now }
    ensures shown { OnOk result (AreFine programs.now bounds.now (length bounds.now)) }
    ensures first { IfErr result (IsFirstFaulty programs.now bounds.now) }
{
    for place in 0..bounds.len() {
        let verdict = settled(alloc, programs, &bounds[place], verdicts[place]);
        if let Err(fault) = verdict {
            let certificate = place + 1;
            return Err(Refusal::Certificate { certificate, fault });
        }
    }
    Ok(())
}
