//! What is refused for its size, and what is just as large as it may be.

use crate::worked::{RULES, WIDE_RULES, on_rules};
use auction_terms::{GroupFault, Rules, RulesFault, read_groups, read_rules};
use bid_forms::{FormFault, read_form};
use std::alloc::Global;
use std::fmt::Write;
use std::test::Fail;

/// Whether a text is refused as rules so.
fn are_no_rules(alloc: Global, text: &[u8], reported: RulesFault) -> bool {
    read_rules(alloc, text).err() == Some(reported)
}

fn are_no_groups(alloc: Global, rules: &Rules, text: &[u8], reported: GroupFault) -> bool {
    read_groups(alloc, text, rules).err() == Some(reported)
}

fn is_no_form(alloc: Global, rules: &Rules, text: &[u8], reported: FormFault) -> bool {
    read_form(alloc, text, rules).err() == Some(reported)
}

/// Whether this text, and all of it but its first byte, are refused by size, and by what they hold.
fn is_at_the_limit(alloc: Global, rules: &Rules, text: &[u8]) -> bool {
    !text.is_empty()
        && are_no_rules(alloc, text, RulesFault::TooLarge)
        && are_no_rules(alloc, &text[1..], RulesFault::Header { place: 1 })
        && are_no_groups(alloc, rules, text, GroupFault::TooLarge)
        && are_no_groups(
            alloc,
            rules,
            &text[1..],
            GroupFault::UnknownBidder { place: 1 },
        )
        && is_no_form(alloc, rules, text, FormFault::TooLarge)
        && is_no_form(alloc, rules, &text[1..], FormFault::Header { place: 1 })
}

fn refuses_by_size(alloc: Global, rules: &Rules) -> Result<bool, Fail> {
    let text = vec![in alloc; b'x'; 4_194_305]?;
    Ok(is_at_the_limit(alloc, rules, &text))
}

#[test]
fn refuses_texts_above_four_mebibytes(rt: HostRuntime) -> Result<(), Fail> {
    assert!(rt; on_rules(rt.alloc(), RULES, refuses_by_size)?);
    Ok(())
}

/// The form of so many bids, each of another package.
fn form_text(alloc: Global, count: u32) -> Result<String, Fail> {
    let mut text = String::new(alloc);
    text.push_str("Alpha,A,B")?;
    for bid in 0..count {
        let lots = bid + 1;
        write!(text, "\n4001,{lots},0")?;
    }
    Ok(text)
}

/// Whether a text is a form of so many bids.
fn has_bids(alloc: Global, rules: &Rules, text: &[u8], count: usize) -> Result<bool, Fail> {
    Ok(read_form(alloc, text, rules)?.bids().len() == count)
}

fn reads_the_most_bids(alloc: Global, rules: &Rules) -> Result<bool, Fail> {
    let text = form_text(alloc, 4000)?;
    has_bids(alloc, rules, text.as_bytes(), 4000)
}

fn refuses_one_more(alloc: Global, rules: &Rules) -> Result<bool, Fail> {
    let text = form_text(alloc, 4001)?;
    let reported = FormFault::TooManyBids { place: 4002 };
    Ok(is_no_form(alloc, rules, text.as_bytes(), reported))
}

#[test]
fn counts_bids(rt: HostRuntime) -> Result<(), Fail> {
    assert!(rt; on_rules(rt.alloc(), WIDE_RULES, reads_the_most_bids)?);
    assert!(rt; on_rules(rt.alloc(), WIDE_RULES, refuses_one_more)?);
    Ok(())
}
