//! What is built, by the calls themselves. Where any one growth is refused (see tests/test_refused_calls.py), they report that memory was
//! short, or the same. Programs with bids are built so by group_compiler's tests.

use super::{begins_with_categories, has_the_column_of_values, is_column, is_row};
use crate::worked::without_bids;
use program_rows::{Bounds, Columns};
use std::alloc::Global;
use std::test::Fail;

const WITHOUT_VALUES: &[u8] =
    b"rules,1,1,,\ncategory,A,2,10,1\ncategory,B,1,5,1\nbidder,Alpha,9,2,\n";

const WITH_VALUES: &[u8] =
    b"rules,2,1,,,\ncategory,A,2,10,1,40\ncategory,B,1,5,1,0\nbidder,Alpha,9,2,,\n";

const WITH_POOLS: &[u8] =
    b"rules,3,1,,,\ncategory,A,2,10,1,0\ncategory,B,1,5,1,0\npool,Low,2,,,\nmember,Low,A,1,,\nmember,Low,B,1,,\nbidder,Alpha,9,2,,\n";

fn builds_rows(alloc: Global) -> Result<bool, Fail> {
    let program = without_bids(alloc, WITHOUT_VALUES)?;
    Ok(begins_with_categories(&program, 2) && program.column_count() == 0)
}

fn builds_the_column_of_values(alloc: Global) -> Result<bool, Fail> {
    let program = without_bids(alloc, WITH_VALUES)?;
    Ok(begins_with_categories(&program, 2) && has_the_column_of_values(&program))
}

fn builds_the_row_of_a_pool(alloc: Global) -> Result<bool, Fail> {
    let program = without_bids(alloc, WITH_POOLS)?;
    Ok(begins_with_categories(&program, 3) && is_row(&program, 2, b"P1", 2))
}

#[test]
fn a_program_or_want_of_memory(rt: HostRuntime) -> Result<(), Fail> {
    assert!(rt; builds_rows(rt.alloc())?);
    assert!(rt; builds_the_column_of_values(rt.alloc())?);
    assert!(rt; builds_the_row_of_a_pool(rt.alloc())?);
    Ok(())
}

/// Whether a column is appended after the others, at once or once the call came back with all as it was.
fn is_appended(columns: &mut Columns, name: &[u8], cost: i64, entries: &[(usize, i64)]) -> bool {
    let count = columns.len();
    if columns
        .push(name, Bounds::ZeroOrOne, cost, entries)
        .is_err()
    {
        if columns.len() != count {
            return false;
        }
        let _ = columns.push(name, Bounds::ZeroOrOne, cost, entries);
    }
    columns.len().wrapping_sub(1) == count && is_column(columns, count, name, cost, entries)
}

#[test]
fn columns_or_want_of_memory(rt: HostRuntime) -> Result<(), Fail> {
    let mut columns = Columns::new(rt.alloc());
    for cost in 0..20i64 {
        let name: &[u8] = if cost % 2 == 0 { b"X1_1" } else { b"X12_3456" };
        assert!(rt;
            is_appended(&mut columns, name, cost, &[(0, 1), (3, 2)]),
            "at {cost}"
        );
    }
    assert!(rt; columns.len() == 20 && is_column(&columns, 0, b"X1_1", 0, &[(0, 1), (3, 2)]));
    Ok(())
}
