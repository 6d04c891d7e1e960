//! What is read, by the call itself. Where any one growth is refused (see tests/test_refused_calls.py), it reports that memory was short, or
//! the same.

use super::{FAULTY, FORMS, are_bids};
use crate::worked::{RULES, on_rules};
use auction_terms::Rules;
use bid_forms::{FormFault, read_form};
use std::alloc::Global;
use std::test::Fail;

/// Whether a text is a form of this bidder, with these bids, under rules that it meets.
fn is_form(
    alloc: Global,
    rules: &Rules,
    text: &[u8],
    bidder: u16,
    bids: &[(u64, u16, u16)],
) -> Result<bool, Fail> {
    let form = read_form(alloc, text, rules)?;
    Ok(form.bidder() == bidder && form.meets(rules) && are_bids(form.bids(), bids))
}

/// Whether a text is refused so.
fn is_refused(
    alloc: Global,
    rules: &Rules,
    text: &[u8],
    reported: FormFault,
) -> Result<bool, Fail> {
    match read_form(alloc, text, rules).err() {
        Some(FormFault::OutOfMemory) => Err(Fail::from("out of memory")),
        fault => Ok(fault == Some(reported)),
    }
}

#[test]
fn a_form_or_want_of_memory(rt: HostRuntime) -> Result<(), Fail> {
    for (text, bidder, bids) in FORMS {
        let is_read = on_rules(
            rt.alloc(),
            RULES,
            |alloc, rules| is_form(alloc, rules, text, bidder, bids),
        )?;
        assert!(rt; is_read, "{bids:?} of bidder {bidder}");
    }
    Ok(())
}

#[test]
fn a_fault_or_want_of_memory(rt: HostRuntime) -> Result<(), Fail> {
    for (text, reported) in FAULTY {
        assert!(rt;
            on_rules(
                rt.alloc(),
                RULES,
                |alloc, rules| is_refused(alloc, rules, text, reported)
            )?,
            "{reported}"
        );
    }
    Ok(())
}
