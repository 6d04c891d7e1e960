//! What is compiled, by the calls themselves. Where any one growth or start of a thread is refused (see
//! tests/test_refused_calls.py), they report that memory was short, or the same.

ghost use Rattle.auction_terms.specs.Groups.{has};
ghost use Rattle.auction_terms.specs.Terms.{lots_in};
ghost use Rattle.bid_desk.specs.Closing.{book_of};
ghost use Rattle.program_rows.specs.Faithful.{IsFaithful};

use super::{ALL, WITHOUT_ALL, WITHOUT_BETA};
use crate::worked::books::on_groups;
use crate::worked::{FORMS, RULES};
use auction_terms::{Choice, Group, Groups};
use bid_desk::ClosedBook;
use byte_sinks::{MemorySink, WriteFault};
use group_compiler::{Claims, Compiled, Compiler, OpenGate, compile_all, compile_one};
use outcome::{map_back, read_solution};
use program_rows::Program;
use std::alloc::Global;
use std::sync::Wait;
use std::test::Fail;
use std::thread::Threads;

/// Whether the text of a program is this one. Where memory is short the sink holds as many bytes of it as the fault says.
fn is_text(alloc: Global, compiled: &Compiled<'_>, text: &[u8]) -> Result<bool, Fail> {
    let mut sink = MemorySink::new(alloc);
    match compiled.write_to(&mut sink) {
        Ok(()) => Ok(sink.bytes() == text),
        Err(WriteFault::Sink { written }) => {
            if written == sink.bytes().len() as u64 && text.starts_with(sink.bytes()) {
                return Err(Fail::from("out of memory"));
            }
            Ok(false)
        }
    }
}

fn is_without_beta(alloc: Global, compiled: &Compiled<'_>) -> Result<bool, Fail> {
    Ok(
        compiled.group().numbers() == [2u16].as_slice()
            && compiled.program().column_count() == 3
            && is_text(alloc, compiled, WITHOUT_BETA)?,
    )
}

/// Whether the program of the second of two groups is the one without Beta. It is not given `Wait`: no lock is taken for a
/// group.
fn compiles_one<R: Threads + Sync>(
    rt: &R,
    alloc: Global,
    book: &ClosedBook,
    groups: &Groups,
) -> Result<bool, Fail> {
    if groups.count() != 2 {
        return Ok(false);
    }
    let compiled = compile_one(rt, alloc, book, groups, 2)?;
    is_without_beta(alloc, &compiled)
}

#[test]
fn one_program_or_want_of_memory(rt: HostRuntime) -> Result<(), Fail> {
    let alloc = rt.alloc();
    assert!(rt;
        on_groups(&rt, alloc, RULES, &FORMS, b"-\nBeta\n", |book, groups| {
            compiles_one(&rt, alloc, book, groups)
        })?
    );
    Ok(())
}

/// Whether of two bids one is in the program of the second of two groups.
fn is_one_among(alloc: Global, compiler: &Compiler<'_, '_>) -> Result<bool, Fail> {
    if compiler.count() != 2 {
        return Ok(false);
    }
    let choices = vec![in alloc; Choice { bidder: 2, bid: 1 }, Choice { bidder: 3, bid: 1 }]?;
    let program = compiler.program_among(alloc, compiler.group(2), choices)?;
    Ok(program.column_count() == 1)
}

fn compiles_one_among<R: Threads + Sync>(
    rt: &R,
    alloc: Global,
    book: &ClosedBook,
    groups: &Groups,
) -> Result<bool, Fail> {
    let compiler = Compiler::new(rt, alloc, book, groups)?;
    is_one_among(alloc, &compiler)
}

#[test]
fn the_program_of_a_choice_or_want_of_memory(rt: HostRuntime) -> Result<(), Fail> {
    let alloc = rt.alloc();
    assert!(rt;
        on_groups(&rt, alloc, RULES, &FORMS, b"-\nBeta\n", |book, groups| {
            compiles_one_among(&rt, alloc, book, groups)
        })?
    );
    Ok(())
}

/// Whether a solution wins 62 by the first bids of three bidders.
fn wins(
    alloc: Global,
    book: &ClosedBook,
    group: &Group,
    program: &Program,
    text: &[u8],
) -> Result<bool, Fail>
    requires { IsFaithful (lots_in book.now.rules) (book_of book.now) (has group.now) program.now }
{
    let point = read_solution(alloc, text, program)?;
    let allocation = map_back(alloc, program, &point)?;
    Ok(allocation.choices() == FIRST_BIDS.as_slice() && program.objective(&point) == -62)
}

const FIRST_BIDS: [Choice; 3] = [
    Choice { bidder: 1, bid: 1 },
    Choice { bidder: 2, bid: 1 },
    Choice { bidder: 3, bid: 1 },
];

fn wins_by_first_bids<R: Threads + Sync>(
    rt: &R,
    alloc: Global,
    book: &ClosedBook,
    groups: &Groups,
) -> Result<bool, Fail> {
    if groups.count() != 1 {
        return Ok(false);
    }
    let compiled = compile_one(rt, alloc, book, groups, 1)?;
    let text = b"X1_1 0.999999\nX2_1 1\nX3_1 1\n";
    wins(alloc, book, groups.group(1), compiled.program(), text)
}

#[test]
fn winners_or_want_of_memory(rt: HostRuntime) -> Result<(), Fail> {
    let alloc = rt.alloc();
    assert!(rt;
        on_groups(&rt, alloc, RULES, &FORMS, b"-\n", |book, groups| {
            wins_by_first_bids(&rt, alloc, book, groups)
        })?
    );
    Ok(())
}

/// Whether these are the three worked programs, in order.
fn are_worked(alloc: Global, all: &[Compiled<'_>]) -> Result<bool, Fail> {
    match all {
        [one, two, three] => Ok(
            is_text(alloc, one, ALL)?
                && is_text(alloc, two, WITHOUT_BETA)?
                && is_text(alloc, three, WITHOUT_ALL)?,
        ),
        _ => Ok(false),
    }
}

fn compiles_three<R: Threads + Wait + Sync>(
    rt: &R,
    alloc: Global,
    book: &ClosedBook,
    groups: &Groups,
) -> Result<bool, Fail> {
    let all = compile_all(rt, alloc, book, groups, 2, &OpenGate)?;
    are_worked(alloc, all.as_slice())
}

#[test]
fn three_programs_or_want_of_memory(rt: HostRuntime) -> Result<(), Fail> {
    let alloc = rt.alloc();
    assert!(rt;
        on_groups(
            &rt,
            alloc,
            RULES,
            &FORMS,
            b"-\nBeta\nGamma+Alpha+Beta\n",
            |book, groups| { compiles_three(&rt, alloc, book, groups) }
        )?
    );
    Ok(())
}

/// Whether two claims draw 0 and 1, and 2 is what comes next.
fn claims_draw(alloc: Global) -> Result<bool, Fail> {
    let (claims, mut first) = Claims::open(alloc)?;
    let mut second = claims.split(&mut first)?;
    let drawn = (claims.draw(&mut second), claims.draw(&mut first));
    claims.join(&mut first, second);
    Ok(claims.close(first) == 2 && drawn == (0, 1))
}

#[test]
fn claims_or_want_of_memory(rt: HostRuntime) -> Result<(), Fail> {
    assert!(rt; claims_draw(rt.alloc())?);
    Ok(())
}
