//! What is ordered and kept of worked forms, and of forms of 4,000 bids.

use crate::worked::books::on_group;
use crate::worked::{
    ALPHA, BETA, GAMMA, RULES, RULES_OF_20, RULES_OF_40, RULES_OF_A_POOL, WIDE_RULES,
};
use auction_terms::{Group, Kept, KeptBid};
use bid_desk::ClosedBook;
use presolve::kept;
use std::alloc::Global;
use std::fmt::Write;
use std::sync::Wait;
use std::test::Fail;
use std::thread::Threads;

mod refused;

const NO_BID: &[u8] = b"Gamma,A,B\n";

/// Of each form these bids, by bidder and bid, are kept under rules of each version.
const KEPT: [(&[u8], &[u8], &[(u16, u16)]); 19] = [
    (RULES, ALPHA, &[(1, 1), (1, 2)]),
    (RULES, BETA, &[(2, 1)]),
    (RULES, NO_BID, &[]),
    (RULES, b"Alpha,A,B\n30,1,0\n29,2,0\n28,2,1\n", &[(1, 1)]),
    (
        RULES,
        b"Alpha,A,B\n30,1,0\n30,1,1\n31,2,1\n",
        &[(1, 1), (1, 3)],
    ),
    (RULES, b"Alpha,A,B\n50,3,0\n50,3,1\n", &[]),
    (RULES_OF_40, ALPHA, &[]),
    (RULES_OF_40, BETA, &[]),
    (RULES_OF_40, GAMMA, &[(3, 1)]),
    (RULES_OF_20, ALPHA, &[(1, 1)]),
    (RULES_OF_20, BETA, &[(2, 1)]),
    (RULES_OF_20, GAMMA, &[(3, 1)]),
    (
        RULES_OF_20,
        b"Alpha,A,B\n51,2,0\n30,1,0\n",
        &[(1, 1), (1, 2)],
    ),
    (RULES_OF_20, b"Alpha,A,B\n19,1,0\n39,2,0\n", &[]),
    (RULES_OF_A_POOL, ALPHA, &[(1, 1)]),
    (RULES_OF_A_POOL, BETA, &[(2, 1)]),
    (RULES_OF_A_POOL, GAMMA, &[(3, 1)]),
    (
        RULES_OF_A_POOL,
        b"Alpha,A,B\n30,2,0\n20,1,0\n",
        &[(1, 1), (1, 2)],
    ),
    (RULES_OF_A_POOL, b"Alpha,A,B\n30,2,1\n29,1,1\n", &[(1, 2)]),
];

/// The bids of each form that fit are in this order by size.
const ORDERS: [(&[u8], &[u8], &[u16]); 5] = [
    (RULES, ALPHA, &[1, 3, 2]),
    (RULES, BETA, &[1]),
    (RULES, NO_BID, &[]),
    (RULES_OF_40, ALPHA, &[1, 3, 2]),
    (RULES_OF_A_POOL, ALPHA, &[1, 3]),
];

/// Whether the kept bids are these, by bidder and bid.
fn are_kept(kept: &Kept<'_>, bids: &[(u16, u16)]) -> bool {
    kept.bids().len() == bids.len()
        && kept
            .bids()
            .iter()
            .zip(bids.iter())
            .all(|(kept, bid)| (kept.bidder, kept.bid) == *bid)
}

/// The amount and the lots of B of bid j, which asks for j lots of A.
#[derive(Clone, Copy)]
pub enum Many {
    EqualAmounts,
    FallingAmounts,
    RisingAmounts,
    AgainstEachOther,
}

impl Many {
    fn bid(self, j: u32) -> (u32, u32) {
        let back = 4001u32.saturating_sub(j);
        match self {
            Many::EqualAmounts => (5, 0),
            Many::FallingAmounts => (back, 0),
            Many::RisingAmounts => (j, 0),
            Many::AgainstEachOther => (j, back),
        }
    }
}

pub fn text_of_many(alloc: Global, many: Many) -> Result<String, Fail> {
    let mut text = String::new(alloc);
    text.push_str("Alpha,A,B\n")?;
    for j in 1..4001u32 {
        let (amount, other) = many.bid(j);
        write!(text, "{amount},{j},{other}\n")?;
    }
    Ok(text)
}

/// Whether so many bids are kept of a book's one form, from the first bid on.
fn keeps_first<R: Threads + Sync>(
    rt: &R,
    alloc: Global,
    book: &ClosedBook,
    group: &Group,
    count: usize,
) -> Result<bool, Fail> {
    let kept = kept(rt, alloc, book, group)?;
    Ok(are_first(kept.bids(), count))
}

fn are_first(bids: &[KeptBid<'_>], count: usize) -> bool {
    bids.len() == count && (0..bids.len()).all(|place| usize::from(bids[place].bid) == place + 1)
}

/// Whether so many bids of the largest form of a kind are kept, from the first bid on.
fn keeps_first_of_many<R: Threads + Wait + Sync>(
    rt: &R,
    alloc: Global,
    many: Many,
    count: usize,
) -> Result<bool, Fail> {
    let text = text_of_many(alloc, many)?;
    on_group(
        rt,
        alloc,
        WIDE_RULES,
        &[text.as_bytes()],
        b"-\n",
        |book, group| { keeps_first(rt, alloc, book, group, count) },
    )
}

#[test]
fn large_forms_keep_what_none_dominates(rt: HostRuntime) -> Result<(), Fail> {
    for (many, count) in [
        (Many::EqualAmounts, 1),
        (Many::FallingAmounts, 1),
        (Many::RisingAmounts, 4000),
        (Many::AgainstEachOther, 4000),
    ] {
        assert!(rt;
            keeps_first_of_many(&rt, rt.alloc(), many, count)?,
            "{count}"
        );
    }
    Ok(())
}
