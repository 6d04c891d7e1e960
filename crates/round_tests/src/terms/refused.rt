//! What the readers answer, by the calls themselves. Where any one growth is refused (see tests/test_refused_calls.py), they report that
//! memory was short, or the same.

use super::{are_three_groups, are_worked, have_the_pool};
use crate::worked::{RULES, on_rules};
use auction_terms::{
    GroupFault, Groups, RecordReader, Rules, RulesFault, field, read_groups, read_rules,
};
use csv::ByteRecord;
use std::alloc::Global;
use std::test::Fail;

const POOLS: &[u8] =
    b"rules,3,1,,,\ncategory,A,2,10,1,40\ncategory,B,1,5,1,0\npool,Low,2,,,\nmember,Low,A,1,,\nmember,Low,B,3,,\nbidder,Alpha,9,2,,\n";

fn reads_worked_rules(alloc: Global) -> Result<bool, Fail> {
    let rules = read_rules(alloc, RULES)?;
    Ok(are_worked(&rules))
}

fn reads_a_pool(alloc: Global) -> Result<bool, Fail> {
    let rules = read_rules(alloc, POOLS)?;
    Ok(have_the_pool(&rules, &[1, 3]))
}

#[test]
fn rules_or_want_of_memory(rt: HostRuntime) -> Result<(), Fail> {
    assert!(rt; reads_worked_rules(rt.alloc())?);
    assert!(rt; reads_a_pool(rt.alloc())?);
    Ok(())
}

/// Texts of rules, each with the fault of its first faulty record.
const FAULTY_RULES: [(&[u8], RulesFault); 5] = [
    (
        b"rules,1,1,,\ncategory,A,2,10,1\ncategory,B,1,5,1\nbidder,Alpha,9,9,\n",
        RulesFault::NumberRange { place: 4 },
    ),
    (
        b"rules,1,1,,\ncategory,A,2,10,1\ncategory,B,1,5,1\nbidder,Alpha,9,2,\nbidder,Alpha,9,1,\n",
        RulesFault::NameRepeated { place: 5 },
    ),
    (
        b"rules,1,1,,\nbidder,Alpha,9,2,\nbidder,Beta,9,1,\nbidder,Gamma,9,1,\n",
        RulesFault::NoCategory { place: 4 },
    ),
    (
        b"rules,7,1,,\ncategory,A,2,10,1\nbidder,Alpha,9,2,\n",
        RulesFault::Header { place: 1 },
    ),
    (
        b"rules,1,1,,\nlot,A,2,10,1\nbidder,Alpha,9,2,\n",
        RulesFault::Kind { place: 2 },
    ),
];

/// Whether rules are refused so.
fn are_refused(alloc: Global, text: &[u8], reported: RulesFault) -> Result<bool, Fail> {
    match read_rules(alloc, text).err() {
        Some(RulesFault::OutOfMemory) => Err(Fail::from("out of memory")),
        fault => Ok(fault == Some(reported)),
    }
}

#[test]
fn a_fault_of_rules_or_want_of_memory(rt: HostRuntime) -> Result<(), Fail> {
    for (text, reported) in FAULTY_RULES {
        assert!(rt; are_refused(rt.alloc(), text, reported)?, "{reported}");
    }
    Ok(())
}

/// Whether the worked lines mean three groups, and a text of no bytes none.
fn reads_groups(alloc: Global, rules: &Rules) -> Result<bool, Fail> {
    let none = read_groups(alloc, b"", rules)?;
    if none.count() != 0 {
        return Ok(false);
    }
    let three = read_groups(alloc, b"-\r\nGamma+Alpha\n-", rules)?;
    Ok(are_three_groups(&three))
}

#[test]
fn groups_or_want_of_memory(rt: HostRuntime) -> Result<(), Fail> {
    assert!(rt; on_rules(rt.alloc(), RULES, reads_groups)?);
    assert!(rt; Groups::only_empty(rt.alloc())?.starts_empty());
    Ok(())
}

/// Texts of groups, each with the fault of its first faulty line.
const FAULTY_GROUPS: [(&[u8], GroupFault); 5] = [
    (b"Alpha+Alpha\n", GroupFault::RepeatedBidder { place: 1 }),
    (b"-\n\n", GroupFault::EmptyLine { place: 2 }),
    (b"Delta\n", GroupFault::UnknownBidder { place: 1 }),
    (b"Alpha+\n", GroupFault::UnknownBidder { place: 1 }),
    (
        b"-\nAlpha+Beta+Alpha\n",
        GroupFault::RepeatedBidder { place: 2 },
    ),
];

/// Whether groups of the worked bidders are refused so.
fn are_no_groups(alloc: Global, lines: &[u8], reported: GroupFault) -> Result<bool, Fail> {
    let rules = read_rules(alloc, RULES)?;
    match read_groups(alloc, lines, &rules).err() {
        Some(GroupFault::OutOfMemory) => Err(Fail::from("out of memory")),
        fault => Ok(fault == Some(reported)),
    }
}

#[test]
fn a_fault_of_groups_or_want_of_memory(rt: HostRuntime) -> Result<(), Fail> {
    for (lines, reported) in FAULTY_GROUPS {
        assert!(rt; are_no_groups(rt.alloc(), lines, reported)?, "{reported}");
    }
    Ok(())
}

/// Whether there are two records, with these fields.
fn takes_two(records: &mut RecordReader<'_>, row: &mut ByteRecord) -> Result<bool, Fail> {
    Ok(
        records.next(row)?
            && field(row, 1) == b"a".as_slice()
            && field(row, 2) == b"b\"c".as_slice()
            && field(row, 3) == b"".as_slice()
            && records.next(row)?
            && field(row, 1) == b"d".as_slice()
            && !records.next(row)?,
    )
}

#[test]
fn records_or_want_of_memory(rt: HostRuntime) -> Result<(), Fail> {
    let mut records = RecordReader::new(rt.alloc(), b"a,\"b\"\"c\"\r\n\nd");
    let mut row = ByteRecord::new(rt.alloc());
    assert!(rt; takes_two(&mut records, &mut row)?);
    Ok(())
}
