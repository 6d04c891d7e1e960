//! Runs on files, as a user types the words.

ghost use Rattle.std.specs.Prelude.{None};

use super::{LimitReader, ONE_FORM_TEXT, reported};
use answers::run;
use auction_input::{FileFault, Files, Identity, Source};
use byte_sinks::MemorySink;
use std::alloc::Global;
use std::sync::Wait;
use std::test::Fail;
use std::thread::Threads;

/// Files in memory.
#[derive(Clone, Copy)]
pub struct MemoryFiles {
    files: &'static [(&'static str, &'static [u8])],
}

/// No file at all.
pub const NO_FILES: MemoryFiles = MemoryFiles { files: &[] };

impl MemoryFiles {
    /// The place of a file.
    fn place_of(self, name: &str) -> Option<usize> {
        self.files.iter().position(|(other, _)| *other == name)
    }
}

impl Files for MemoryFiles {
    ghost shelf = { λ _. record {
      content = λ _. None;
      opened = λ _. None;
      standard_input = None;
      readable = λ _. None;
      replaced = λ _. None;
      rights = λ _. None;
    } };

    ghost calls = { λ _. None };

    type File = LimitReader;

    fn standard_input(&mut self) -> Option<Identity> {
        None
    }

    fn readable(&mut self, name: &str) -> Result<Identity, FileFault> {
        match self.place_of(name) {
            Some(place) => Ok(Identity {
                device: 0,
                number: place as u64,
            }),
            None => Err(FileFault::NotFound),
        }
    }

    fn replaced(&mut self, name: &str) -> Result<Option<Identity>, FileFault> {
        Ok(self.readable(name).ok())
    }

    fn rights(&mut self, _: &str) -> Result<(), FileFault> {
        Ok(())
    }

    fn open(&mut self, name: &str) -> Result<LimitReader, FileFault> {
        for (other, bytes) in self.files {
            if *other == name {
                return Ok(LimitReader {
                    rest: *bytes,
                    room: usize::MAX,
                });
            }
        }
        Err(FileFault::NotFound)
    }
}

const FILES: MemoryFiles = MemoryFiles {
    files: &[
        (
            "rules.txt",
            b"%rules\nrules,1,1,,\ncategory,A,2,10,1\ncategory,B,1,5,1\nbidder,Alpha,9,2,\nbidder,Beta,9,1,\nbidder,Gamma,9,1,\n",
        ),
        ("gamma.txt", b"%form\nGamma,A,B\n12,0,1\n"),
        (
            "two.txt",
            b"%form\nAlpha,A,B\n30,1,0\n%form\nBeta,A,B\n20,1,x\n",
        ),
        ("open.txt", b"%form\nAlpha,A,B\n30,1,0"),
        ("note.txt", b"a note\n%form\nAlpha,A,B\n30,1,0\n"),
        ("other.txt", b"%form\nAlpha,A,B\n%price\n"),
        ("empty.txt", b""),
        ("later.txt", b"%form\nGamma,A,B\n14,0,1\n"),
        ("a\nb.txt", b"%groups\nNobody\n"),
    ],
};

/// What a run on files ends with.
#[derive(Clone, Copy)]
struct Row {
    words: &'static [&'static str],
    input: &'static [u8],
    status: u8,
    output: &'static [u8],
    line: &'static [u8],
}

impl Row {
    /// A run that is refused on no standard input.
    fn refused(refused: &Refused) -> Row {
        Row {
            words: refused.words,
            input: b"",
            status: 1,
            output: b"",
            line: refused.line,
        }
    }
}

/// The words of a run that is refused, and its line.
#[derive(Clone, Copy)]
struct Refused {
    words: &'static [&'static str],
    line: &'static [u8],
}

const ROWS: [Row; 5] = [
    Row {
        words: &["wdp", "text", "rules.txt", "gamma.txt"],
        input: b"",
        status: 0,
        output: ONE_FORM_TEXT,
        line: b"",
    },
    Row {
        words: &["wdp", "text", "rules.txt", "-"],
        input: b"%form\nGamma,A,B\n12,0,1\n",
        status: 0,
        output: ONE_FORM_TEXT,
        line: b"",
    },
    Row {
        words: &[
            "wdp",
            "text",
            "--last-wins",
            "rules.txt",
            "later.txt",
            "gamma.txt",
        ],
        input: b"",
        status: 0,
        output: ONE_FORM_TEXT,
        line: b"",
    },
    Row {
        words: &["wdp", "explain", "rules.txt", "gamma.txt", "later.txt"],
        input: b"",
        status: 1,
        output: b"later.txt: another form of Gamma is in gamma.txt; say --last-wins where the later one counts\n",
        line: b"",
    },
    Row {
        words: &["wdp", "explain", "rules.txt", "gamma.txt", "two.txt"],
        input: b"",
        status: 1,
        output: b"two.txt: form 2: 8 QuantityText at record 2, field 3: 'x' isn't 1 to 18 digits\n",
        line: b"",
    },
];

const REFUSED: [Refused; 13] = [
    Refused {
        words: &["wdp", "text", "rules.txt", "gamma.txt", "two.txt"],
        line: b"wdp: two.txt: form 2: 8 QuantityText at record 2\n",
    },
    Refused {
        words: &["wdp", "text", "rules.txt", "gamma.txt", "later.txt"],
        line: b"wdp: later.txt: another form of Gamma is in gamma.txt; say --last-wins where the later one counts\n",
    },
    Refused {
        words: &["wdp", "text", "two.txt"],
        line: b"wdp: input: wrong number of rules\n",
    },
    Refused {
        words: &["wdp", "text", "gamma.txt", "two.txt"],
        line: b"wdp: input: wrong number of rules\n",
    },
    Refused {
        words: &["wdp", "text", "rules.txt", "other.txt"],
        line: b"wdp: other.txt: input: part 2 not known\n",
    },
    Refused {
        words: &["wdp", "compile", "rules.txt", "gamma.txt", "a\nb.txt"],
        line: b"wdp: a\\x0ab.txt: groups: 3 UnknownBidder at line 1\n",
    },
    Refused {
        words: &["wdp", "text", "rules.txt", "none.txt"],
        line: b"wdp: none.txt: no such file or directory\n",
    },
    Refused {
        words: &["wdp", "text", "rules.txt", "gamma.txt", "rules.txt"],
        line: b"wdp: rules.txt: it is read already, as rules.txt\n",
    },
    Refused {
        words: &["wdp", "text", "rules.txt", "empty.txt"],
        line: b"wdp: empty.txt: it is empty\n",
    },
    Refused {
        words: &["wdp", "text", "rules.txt", "-"],
        line: b"wdp: standard input: it is empty\n",
    },
    Refused {
        words: &["wdp", "text", "rules.txt", "open.txt", "gamma.txt"],
        line: b"wdp: open.txt: its last line has no line end, and another file follows\n",
    },
    Refused {
        words: &["wdp", "text", "rules.txt", "note.txt"],
        line: b"wdp: note.txt: input: bytes before the first part; wdp-office gather makes an input of such files\n",
    },
    Refused {
        words: &["wdp", "text", "-o", "out.mps", "rules.txt"],
        line: b"wdp: out.mps: it can't be opened\n",
    },
];

/// Whether a run ends so.
fn ends_so<R: Threads + Wait + Sync + AllocGlobal>(rt: &R, row: &Row) -> bool {
    let alloc: Global = rt.alloc();
    let mut out = MemorySink::new(alloc);
    let mut faults = MemorySink::new(alloc);
    let mut input = Source::new(row.input);
    let words = reported(alloc, row.words);
    let mut files = FILES;
    let status = run(rt, words, &mut files, &mut input, &mut out, &mut faults);
    status == row.status && out.bytes() == row.output && faults.bytes() == row.line
}

#[test]
fn files_are_read_and_named(rt: HostRuntime) -> Result<(), Fail> {
    for place in 0..ROWS.len() {
        assert!(rt; ends_so(&rt, &ROWS[place]), "row {place}");
    }
    for place in 0..REFUSED.len() {
        assert!(rt;
            ends_so(&rt, &Row::refused(&REFUSED[place])),
            "refused row {place}"
        );
    }
    Ok(())
}
