//! What workers compile of a worked auction, and that they work side by side, each on whatever group comes next.

use crate::keeping::{Many, text_of_many};
use crate::worked::books::on_groups;
use crate::worked::{FORMS, RULES, WIDE_RULES};
use answers::run_compile;
use auction_terms::Groups;
use bid_desk::ClosedBook;
use byte_sinks::MemorySink;
use group_compiler::{Compiled, Gate, OpenGate, compile_all};
use std::alloc::{AllocError, Global};
use std::sync::Wait;
use std::sync::atomic::AtomicU64;
use std::sync::atomic::Ordering::SeqCst;
use std::test::Fail;
use std::thread;
use std::thread::Threads;

mod refused;

const ALL: &[u8] =
    b"NAME wdp\nROWS\n N OBJ\n L B1\n L B2\n L B3\n L C1\n L C2\nCOLUMNS\n M1 'MARKER' 'INTORG'\n X1_1 OBJ -30\n X1_1 B1 1\n X1_1 C1 1\n X1_2 OBJ -50\n X1_2 B1 1\n X1_2 C1 2\n X1_2 C2 1\n X2_1 OBJ -20\n X2_1 B2 1\n X2_1 C1 1\n X3_1 OBJ -12\n X3_1 B3 1\n X3_1 C2 1\n M2 'MARKER' 'INTEND'\nRHS\n RHS B1 1\n RHS B2 1\n RHS B3 1\n RHS C1 2\n RHS C2 1\nBOUNDS\n UP BND X1_1 1\n UP BND X1_2 1\n UP BND X2_1 1\n UP BND X3_1 1\nENDATA\n";

const WITHOUT_BETA: &[u8] =
    b"NAME wdp\nROWS\n N OBJ\n L B1\n L B3\n L C1\n L C2\nCOLUMNS\n M1 'MARKER' 'INTORG'\n X1_1 OBJ -30\n X1_1 B1 1\n X1_1 C1 1\n X1_2 OBJ -50\n X1_2 B1 1\n X1_2 C1 2\n X1_2 C2 1\n X3_1 OBJ -12\n X3_1 B3 1\n X3_1 C2 1\n M2 'MARKER' 'INTEND'\nRHS\n RHS B1 1\n RHS B3 1\n RHS C1 2\n RHS C2 1\nBOUNDS\n UP BND X1_1 1\n UP BND X1_2 1\n UP BND X3_1 1\nENDATA\n";

const WITHOUT_ALL: &[u8] =
    b"NAME wdp\nROWS\n N OBJ\n L C1\n L C2\nCOLUMNS\nRHS\n RHS C1 2\n RHS C2 1\nENDATA\n";

const TURNS: u64 = 10_000_000;

/// The first and the second group set their flags, and each waits for the other's.
#[derive(Drop)]
struct Meeting {
    first: AtomicU64,
    second: AtomicU64,
    met: AtomicU64,
}

impl Meeting {
    fn new() -> Meeting {
        Meeting {
            first: AtomicU64::new(0),
            second: AtomicU64::new(0),
            met: AtomicU64::new(0),
        }
    }
}

impl Gate for Meeting {
    fn arrive<R: Wait>(&self, _rt: &R, group: usize) {
        let (own, other) = if group == 1 {
            (&self.first, &self.second)
        } else {
            (&self.second, &self.first)
        };
        own.store(1, SeqCst);
        for _ in 0..TURNS {
            if other.load(SeqCst) == 1 {
                self.met.fetch_add(1, SeqCst);
                return;
            }
            thread::yield_now();
        }
    }
}

/// Holds the worker of one group until two other groups have come.
#[derive(Drop)]
struct HeldGroup {
    held: usize,
    others: AtomicU64,
    freed: AtomicU64,
}

impl HeldGroup {
    fn of(held: usize) -> HeldGroup {
        HeldGroup {
            held,
            others: AtomicU64::new(0),
            freed: AtomicU64::new(0),
        }
    }
}

impl Gate for HeldGroup {
    fn arrive<R: Wait>(&self, _rt: &R, group: usize) {
        if group != self.held {
            self.others.fetch_add(1, SeqCst);
            return;
        }
        for _ in 0..TURNS {
            if self.others.load(SeqCst) >= 2 {
                self.freed.fetch_add(1, SeqCst);
                return;
            }
            thread::yield_now();
        }
    }
}

/// Counts how often each group comes, and how often a number comes that is no group's.
#[derive(Drop)]
struct Counts {
    groups: Vec<AtomicU64>,
    strays: AtomicU64,
}

impl Gate for Counts {
    fn arrive<R: Wait>(&self, _rt: &R, group: usize) {
        match self.groups.get(group.wrapping_sub(1)) {
            Some(count) => count.fetch_add(1, SeqCst),
            None => self.strays.fetch_add(1, SeqCst),
        };
    }
}

impl Counts {
    fn new(alloc: Global, count: usize) -> Result<Counts, AllocError> {
        let mut groups = Vec::new(alloc);
        for _ in 0..count {
            groups.push(AtomicU64::new(0))?;
        }
        let strays = AtomicU64::new(0);
        Ok(Counts { groups, strays })
    }

    fn are_each_one(&self) -> bool {
        self.strays.load(SeqCst) == 0 && self.groups.iter().all(|count| count.load(SeqCst) == 1)
    }
}

/// What is put of a program.
fn is_text(alloc: Global, compiled: &Compiled<'_>, text: &[u8]) -> bool {
    let mut sink = MemorySink::new(alloc);
    compiled.write_to(&mut sink).is_ok() && sink.bytes() == text
}

/// The text that a group at a place has, where these come again and again.
fn text_at<'t>(texts: &[&'t [u8]], place: usize) -> &'t [u8] {
    match place.checked_rem(texts.len()) {
        Some(place) => texts[place],
        None => b"",
    }
}

/// Whether the programs have these texts, again and again.
fn are_texts(alloc: Global, all: &[Compiled<'_>], texts: &[&[u8]]) -> bool {
    (0..all.len()).all(|place| is_text(alloc, &all[place], text_at(texts, place)))
}

/// Whether so many workers compile so many programs with these texts, again and again, each group once.
fn compiles_each_once<R: Threads + Wait + Sync>(
    rt: &R,
    alloc: Global,
    book: &ClosedBook,
    groups: &Groups,
    row: &Row,
) -> Result<bool, Fail> {
    if row.workers < 1 || row.workers > 64 {
        return Ok(false);
    }
    let gate = Counts::new(alloc, groups.count())?;
    let all = compile_all(rt, alloc, book, groups, row.workers, &gate)?;
    Ok(
        row.times.checked_mul(row.texts.len()) == Some(all.len())
            && are_texts(alloc, all.as_slice(), row.texts)
            && gate.are_each_one(),
    )
}

/// Whether the worker of a group that is held comes past the gate, since the other one draws both others.
fn frees<R: Threads + Wait + Sync>(
    rt: &R,
    alloc: Global,
    book: &ClosedBook,
    groups: &Groups,
    held: usize,
) -> Result<bool, Fail> {
    let gate = HeldGroup::of(held);
    let all = compile_all(rt, alloc, book, groups, 2, &gate)?;
    Ok(all.len() == 3 && gate.freed.load(SeqCst) == 1)
}

/// The same of two workers that make the pages of the texts of three groups.
fn frees_pages<R: Threads + Wait + Sync>(
    rt: &R,
    alloc: Global,
    book: &ClosedBook,
    groups: &Groups,
    held: usize,
) -> bool {
    let gate = HeldGroup::of(held);
    let mut out = MemorySink::new(alloc);
    let ended = run_compile(rt, alloc, book, groups, 2, &gate, &mut out);
    ended.is_ok() && gate.freed.load(SeqCst) == 1
}

/// Whether both of two workers come past the gate at which each waits for the other one.
fn meet<R: Threads + Wait + Sync>(
    rt: &R,
    alloc: Global,
    book: &ClosedBook,
    groups: &Groups,
) -> Result<bool, Fail> {
    let gate = Meeting::new();
    let all = compile_all(rt, alloc, book, groups, 2, &gate)?;
    let texts: [&[u8]; 2] = [ALL, WITHOUT_BETA];
    Ok(are_texts(alloc, all.as_slice(), &texts) && gate.met.load(SeqCst) == 2)
}

/// The same of two workers that make the pages of the texts of two groups.
fn meet_at_pages<R: Threads + Wait + Sync>(
    rt: &R,
    alloc: Global,
    book: &ClosedBook,
    groups: &Groups,
) -> bool {
    let gate = Meeting::new();
    let mut out = MemorySink::new(alloc);
    let ended = run_compile(rt, alloc, book, groups, 2, &gate, &mut out);
    ended.is_ok() && gate.met.load(SeqCst) == 2
}

#[test]
fn two_workers_meet(rt: HostRuntime) -> Result<(), Fail> {
    let alloc = rt.alloc();
    assert!(rt;
        on_groups(&rt, alloc, RULES, &FORMS, b"-\nBeta\n", |book, groups| {
            Ok(meet(&rt, alloc, book, groups)? && meet_at_pages(&rt, alloc, book, groups))
        })?
    );
    Ok(())
}

#[test]
fn no_worker_keeps_a_share(rt: HostRuntime) -> Result<(), Fail> {
    let alloc = rt.alloc();
    for held in [1usize, 2, 3] {
        let are_freed = on_groups(&rt, alloc, RULES, &FORMS, b"-\n-\n-\n", |book, groups| {
            Ok(
                frees(&rt, alloc, book, groups, held)?
                    && frees_pages(&rt, alloc, book, groups, held),
            )
        })?;
        assert!(rt; are_freed, "at {held}");
    }
    Ok(())
}

/// Forms, the lines of groups, again and again, and the texts of their programs.
#[derive(Clone, Copy)]
struct Row {
    forms: &'static [&'static [u8]],
    lines: &'static [u8],
    texts: &'static [&'static [u8]],
    times: usize,
    workers: usize,
}

impl Row {
    /// The three worked groups of the worked forms.
    fn of_three(times: usize, workers: usize) -> Row {
        Row {
            forms: &FORMS,
            lines: b"-\nBeta\nGamma+Alpha+Beta\n",
            texts: &[ALL, WITHOUT_BETA, WITHOUT_ALL],
            times,
            workers,
        }
    }
}

/// 1,024 groups, without a form.
const WITHOUT_FORMS: Row = Row {
    forms: &[],
    lines: b"-\n",
    texts: &[WITHOUT_ALL],
    times: 1024,
    workers: 64,
};

/// Two groups, and many more workers.
const TWO_GROUPS: Row = Row {
    forms: &FORMS,
    lines: b"-\nBeta\n",
    texts: &[ALL, WITHOUT_BETA],
    times: 1,
    workers: 64,
};

/// How often the three groups come, and by how many workers.
const TIMES_AND_WORKERS: [(usize, usize); 7] = [
    (1, 1),
    (1, 2),
    (1, 3),
    (1, 64),
    (0, 1),
    (0, 64),
    (341, 64),
];

/// These lines, again and again.
fn repeated(alloc: Global, lines: &[u8], times: usize) -> Result<Vec<u8>, AllocError> {
    let mut text = Vec::new(alloc);
    for _ in 0..times {
        text.extend_from_slice(lines)?;
    }
    Ok(text)
}

/// Whether the programs of a row are compiled.
fn compiles<R: Threads + Wait + Sync>(rt: &R, alloc: Global, row: &Row) -> Result<bool, Fail> {
    let lines = repeated(alloc, row.lines, row.times)?;
    on_groups(
        rt,
        alloc,
        RULES,
        row.forms,
        lines.as_slice(),
        |book, groups| { compiles_each_once(rt, alloc, book, groups, row) },
    )
}

#[test]
fn any_workers_compile_the_same_programs(rt: HostRuntime) -> Result<(), Fail> {
    assert!(rt; compiles(&rt, rt.alloc(), &WITHOUT_FORMS)?);
    assert!(rt; compiles(&rt, rt.alloc(), &TWO_GROUPS)?);
    for (times, workers) in TIMES_AND_WORKERS {
        let row = Row::of_three(times, workers);
        assert!(rt;
            compiles(&rt, rt.alloc(), &row)?,
            "{times} times by {workers}"
        );
    }
    Ok(())
}

/// Whether there are three programs of so many columns.
fn are_so_wide(all: &[Compiled<'_>], counts: [usize; 3]) -> bool {
    match all {
        [one, two, three] => {
            [
                one.program().column_count(),
                two.program().column_count(),
                three.program().column_count(),
            ] == counts
        }
        _ => false,
    }
}

fn compiles_so_wide<R: Threads + Wait + Sync>(
    rt: &R,
    alloc: Global,
    book: &ClosedBook,
    groups: &Groups,
) -> Result<bool, Fail> {
    let all = compile_all(rt, alloc, book, groups, 8, &OpenGate)?;
    Ok(are_so_wide(all.as_slice(), [4000, 0, 4000]))
}

#[test]
fn the_largest_form_by_8_workers(rt: HostRuntime) -> Result<(), Fail> {
    let alloc = rt.alloc();
    // None of the 4,000 bids dominates another.
    let text = text_of_many(alloc, Many::AgainstEachOther)?;
    let forms = [text.as_bytes()];
    assert!(rt;
        on_groups(
            &rt,
            alloc,
            WIDE_RULES,
            &forms,
            b"-\nAlpha\n-\n",
            |book, groups| { compiles_so_wide(&rt, alloc, book, groups) }
        )?
    );
    Ok(())
}
