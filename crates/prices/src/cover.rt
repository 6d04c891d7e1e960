//! Whether prices suffice.

ghost use Rattle.std.specs.Prelude.{◌≡◌, ◌≤◌, IfErr, OnOk, false};
ghost use Rattle.auction_terms.specs.declared.limits.TheConstants.{MOST_PARTS};
ghost use Rattle.auction_terms.specs.Allocations.{IsFeasible};
ghost use Rattle.auction_terms.specs.Keeping.{kept_of};
ghost use Rattle.auction_terms.specs.Terms.{lots_in};
ghost use Rattle.bid_desk.specs.Closing.{book_of};
ghost use Rattle.optimality.specs.Answers.{IsVerdict};
ghost use Rattle.outcome.specs.Pricing.{price_in};
ghost use Rattle.prices.specs.Blocking.{ArePrices};
ghost use Rattle.prices.specs.Parts.{AreAtLeastReserves, Suffice};
ghost use Rattle.prices.specs.Prices.{reserves_in};
ghost use Rattle.prices.specs.Raised.{IsLargeCoverAt, cover_fault};
ghost use Rattle.program_rows.specs.declared.certificate_fault.CertificateFaultKind.TheVariants.{TooLarge};
ghost use Rattle.program_rows.specs.Rows.{program_of};

use crate::payments::Payments;
use crate::raised::{raised, raised_bound};
use optimality::check_certificate;
use program_rows::{CertificateFault, CertificateFaultKind, Program};
use std::alloc::Global;

/// Checks that a text is a certificate that prices that are at least the reserves suffice: that no point of the program of the kept
/// bids, with each bid's cost in parts of a pound and raised by its bidder's surplus, has an objective below what all lots are worth, less
/// the revenue.
pub fn check_cover(
    alloc: Global,
    text: &[u8],
    program: Program,
    payments: &Payments<'_>,
) -> Result<(), CertificateFault>
    requires program { program ≡ program_of (lots_in payments.now.book.now.rules)
        (kept_of (lots_in payments.now.book.now.rules) (book_of payments.now.book.now)
        (λ b. false)) }
    requires feasible { IsFeasible (lots_in payments.now.book.now.rules)
        (book_of payments.now.book.now) (λ b. false) payments.now.first.now }
    requires some { 1 ≤ payments.now.parts }
    requires parts { payments.now.parts ≤ MOST_PARTS }
    requires prices { ArePrices (book_of payments.now.book.now) payments.now.first.now
        payments.now.parts (price_in payments.now.prices.now) }
    requires reserves { AreAtLeastReserves (reserves_in payments.now.book.now.rules)
        (book_of payments.now.book.now) payments.now.first.now payments.now.parts
        (price_in payments.now.prices.now) }
    ensures suffice { OnOk result (Suffice (reserves_in payments.now.book.now.rules)
        (lots_in payments.now.book.now.rules) (book_of payments.now.book.now)
        payments.now.first.now payments.now.parts (price_in payments.now.prices.now)) }
    ensures first { IsVerdict result (cover_fault (lots_in payments.now.book.now.rules)
        (book_of payments.now.book.now) payments.now.first.now payments.now.parts
        (price_in payments.now.prices.now) text.now) }
    ensures too_large { IfErr result (λ fault. fault.kind ≡ TooLarge → IsLargeCoverAt
        (lots_in payments.now.book.now.rules) (book_of payments.now.book.now)
        payments.now.first.now payments.now.parts (price_in payments.now.prices.now) text.now
        fault.line) }
{
    payments.book.within_limits();
    match raised(alloc, program, payments) {
        Ok(program) => check_certificate(alloc, text, &program, raised_bound(payments)),
        Err(_) => Err(CertificateFault {
            line: 0,
            kind: CertificateFaultKind::OutOfMemory,
        }),
    }
}
