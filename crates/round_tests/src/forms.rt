//! Texts of forms under the worked rules, and what they mean.

use crate::worked::{ALPHA, BETA, GAMMA};
use auction_terms::Bid;
use bid_forms::FormFault;

mod refused;

/// A text, the number of its bidder, and its bids: an amount, and the quantities of both categories.
type FormText = (&'static [u8], u16, &'static [(u64, u16, u16)]);

const FORMS: [FormText; 9] = [
    (ALPHA, 1, &[(30, 1, 0), (50, 2, 1), (28, 1, 1)]),
    (BETA, 2, &[(20, 1, 0), (45, 3, 0)]),
    (GAMMA, 3, &[(12, 0, 1)]),
    (b"Alpha,A,B\n15,1,1\n", 1, &[(15, 1, 1)]),
    (b"Alpha,A,B\n0015,01,1\n", 1, &[(15, 1, 1)]),
    (b"\"Alpha\",\"A\",\"B\"\n", 1, &[]),
    (b"Alpha,A,B", 1, &[]),
    (
        b"\xEF\xBB\xBFAlpha,A,B\r\n\r\n30,1,0\r20,0,1",
        1,
        &[(30, 1, 0), (20, 0, 1)],
    ),
    (
        b"Alpha,A,B\n1000000000000,1,0",
        1,
        &[(1_000_000_000_000, 1, 0)],
    ),
];

/// Whether these are just the bids that are expected.
fn are_bids(bids: &[Bid], expected: &[(u64, u16, u16)]) -> bool {
    bids.len() == expected.len()
        && bids
            .iter()
            .zip(expected.iter())
            .all(|(bid, wanted)| is_bid(bid, *wanted))
}

fn is_bid(bid: &Bid, wanted: (u64, u16, u16)) -> bool {
    bid.amount == wanted.0 && bid.package.quantities() == [wanted.1, wanted.2].as_slice()
}

/// Texts, each with the fault of its first faulty record.
const FAULTY: [(&[u8], FormFault); 13] = [
    (
        b"Alpha,A,B\n30,1,0\n14,1,1\n",
        FormFault::BelowReserve { place: 3 },
    ),
    (b"Alpha,A,B\n14,1,1\n", FormFault::BelowReserve { place: 2 }),
    (b"Alpha,A,B\n0,0,0\n", FormFault::AmountRange { place: 2 }),
    (b"Alpha,A,B\n30,0,0\n", FormFault::EmptyPackage { place: 2 }),
    (
        b"Alpha,A,B\n30,10,0\n",
        FormFault::OverEligibility { place: 2 },
    ),
    (
        b"Alpha,A,B\n30,10001,0\n",
        FormFault::QuantityRange { place: 2 },
    ),
    (b"Alpha,A,B\n 30,1,0\n", FormFault::AmountText { place: 2 }),
    (b"Alpha,A,B\n30,1\n", FormFault::FieldCount { place: 2 }),
    (
        b"Alpha,A,B\n30,1,0\n31,1,0\n",
        FormFault::RepeatedPackage {
            place: 3,
            earlier: 1,
        },
    ),
    (b"Alpha,B,A\n", FormFault::Header { place: 1 }),
    (b"Delta,A,B\n", FormFault::UnknownBidder { place: 1 }),
    (b"", FormFault::Header { place: 1 }),
    (
        b"Alpha,A,B\n30,1,0\n50,2,1\n31,1,0\n",
        FormFault::RepeatedPackage {
            place: 4,
            earlier: 1,
        },
    ),
];
