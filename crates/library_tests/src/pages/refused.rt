//! Pages, where any one growth or start of a thread is refused (see tests/test_refused_calls.py): they are made, or memory is wanting.

use super::{has_lines_of_beta, has_lines_of_lots};
use crate::worked::books::on_book;
use crate::worked::{FORMS, RULES};
use bid_desk::ClosedBook;
use group_compiler::{OpenGate, Pages};
use std::alloc::Global;
use std::sync::Wait;
use std::test::Fail;
use std::thread::Threads;

fn has_worked_lines<R: Threads + Wait + Sync>(
    rt: &R,
    alloc: Global,
    book: &ClosedBook,
) -> Result<bool, Fail> {
    let pages = Pages::of_book(rt, alloc, book, 2, 2, &OpenGate)?;
    Ok(has_lines_of_beta(&pages) && has_lines_of_lots(&pages))
}

#[test]
fn pages_or_want_of_memory(rt: HostRuntime) -> Result<(), Fail> {
    let alloc = rt.alloc();
    assert!(rt;
        on_book(
            &rt,
            alloc,
            RULES,
            &FORMS,
            |book| has_worked_lines(&rt, alloc, book)
        )?
    );
    Ok(())
}
