//! What is kept and ordered, by the calls themselves. Where any one growth is refused (see tests/test_refused_calls.py), they report
//! that memory was short, or the same.

ghost use Rattle.std.specs.Prelude.{◌≡◌};
ghost use Rattle.auction_terms.specs.Terms.{lots_in};
ghost use Rattle.bid_desk.specs.Closing.{book_of};
ghost use Rattle.presolve.specs.Flags.{flags_of};

use super::{KEPT, ORDERS, are_kept};
use crate::worked::books::on_group;
use crate::worked::{FORMS, RULES};
use auction_terms::{Choice, Group, read_rules};
use bid_desk::ClosedBook;
use bid_forms::read_form;
use presolve::{Flags, by_size, kept};
use std::alloc::Global;
use std::test::Fail;
use std::thread::Threads;

/// Whether these bids are kept without a group.
fn keeps<R: Threads + Sync>(
    rt: &R,
    alloc: Global,
    book: &ClosedBook,
    group: &Group,
    bids: &[(u16, u16)],
) -> Result<bool, Fail> {
    Ok(are_kept(&kept(rt, alloc, book, group)?, bids))
}

#[test]
fn each_worked_form_alone_is_kept(rt: HostRuntime) -> Result<(), Fail> {
    let alloc = rt.alloc();
    for (rules, form, bids) in &KEPT {
        let are_kept = on_group(&rt, alloc, *rules, &[*form], b"-\n", |book, group| {
            keeps(&rt, alloc, book, group, *bids)
        })?;
        assert!(rt; are_kept);
    }
    Ok(())
}

/// Whether the bids of a form are ordered so by size.
fn orders(alloc: Global, rules: &[u8], text: &[u8], numbers: &[u16]) -> Result<bool, Fail> {
    let rules = read_rules(alloc, rules)?;
    let form = read_form(alloc, text, &rules)?;
    let ordered = by_size(alloc, &form, &rules)?;
    Ok(ordered.as_slice() == numbers)
}

#[test]
fn an_order_or_want_of_memory(rt: HostRuntime) -> Result<(), Fail> {
    for (rules, text, numbers) in &ORDERS {
        assert!(rt; orders(rt.alloc(), *rules, *text, *numbers)?);
    }
    Ok(())
}

/// The bids of Gamma and Alpha that are kept, one of them twice; a dropped one; and none that there are.
const CHOICES: [Choice; 6] = [
    Choice { bidder: 3, bid: 1 },
    Choice { bidder: 1, bid: 2 },
    Choice { bidder: 1, bid: 3 },
    Choice { bidder: 3, bid: 1 },
    Choice { bidder: 9, bid: 1 },
    Choice { bidder: 0, bid: 0 },
];

/// Whether flags keep these bids without a group.
fn flags_keep(
    alloc: Global,
    flags: &Flags,
    book: &ClosedBook,
    group: &Group,
    bids: &[(u16, u16)],
) -> Result<bool, Fail>
    requires { flags.now ≡ flags_of (lots_in book.now.rules) (book_of book.now) }
{
    Ok(are_kept(&flags.kept(alloc, book, group)?, bids))
}

/// Whether flags keep these bids among the choices without a group.
fn flags_keep_among(
    alloc: Global,
    flags: &Flags,
    book: &ClosedBook,
    group: &Group,
    bids: &[(u16, u16)],
) -> Result<bool, Fail>
    requires { flags.now ≡ flags_of (lots_in book.now.rules) (book_of book.now) }
{
    let choices = Vec::from_slice(alloc, &CHOICES)?;
    Ok(are_kept(&flags.kept_among(alloc, book, group, choices)?, bids))
}

/// Whether these bids are kept without a group, time after time by flags that are made once, and these among the choices.
fn keeps_in_each_way<R: Threads + Sync>(
    rt: &R,
    alloc: Global,
    book: &ClosedBook,
    group: &Group,
    bids: &[(u16, u16)],
    among: &[(u16, u16)],
) -> Result<bool, Fail> {
    let flags = Flags::new(rt, alloc, book)?;
    Ok(
        keeps(rt, alloc, book, group, bids)?
            && flags_keep(alloc, &flags, book, group, bids)?
            && flags_keep_among(alloc, &flags, book, group, among)?
            && flags_keep(alloc, &flags, book, group, bids)?,
    )
}

/// The kept bids of the worked auction where the bidders of a line are left out, and those among the choices.
const WITHOUT: [(&[u8], &[(u16, u16)], &[(u16, u16)]); 5] = [
    (b"-\n", &[(1, 1), (1, 2), (2, 1), (3, 1)], &[(1, 2), (3, 1)]),
    (b"Beta\n", &[(1, 1), (1, 2), (3, 1)], &[(1, 2), (3, 1)]),
    (b"Alpha\n", &[(2, 1), (3, 1)], &[(3, 1)]),
    (b"Gamma+Alpha\n", &[(2, 1)], &[]),
    (b"Alpha+Beta+Gamma\n", &[], &[]),
];

#[test]
fn the_worked_forms_are_kept(rt: HostRuntime) -> Result<(), Fail> {
    let alloc = rt.alloc();
    for (line, bids, among) in &WITHOUT {
        let are_kept = on_group(&rt, alloc, RULES, &FORMS, *line, |book, group| {
            keeps_in_each_way(&rt, alloc, book, group, *bids, *among)
        })?;
        assert!(rt; are_kept);
    }
    Ok(())
}
