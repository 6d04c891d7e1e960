//! The winner determination compiler: the words, the files and the standard streams, handed to `run`.
#![tactic(auto)]

ghost use Rattle.std.specs.Prelude.{◌≡◌, true};

mod noted;

use crate::noted::Noted;
use answers::{print_file_line, run};
use auction_input::Source;
use byte_sinks::{Sink, StdSink};
use std::env;
use std::process::ExitCode;
use std::sync::Wait;
use std::thread::Threads;
use system_files::{Disk, Ending, Out, StandardInput, print_lack, touch};

const HINT: &[u8] =
    b"wdp: reads standard input; a line with Ctrl-D alone ends it, and wdp COMMAND FILE reads a file\n";

// Ends the output, and gives the exit status: that of the run, but 1 where a whole file can't take its place. `explain` that
// printed faults ends with 1, has said nothing on standard error, and its output is whole, too.
fn ended<S: Ending, F: Sink + Drop>(out: &mut S, status: u8, faults: &mut Noted<F>) -> u8
    ensures status { result ≡ 0 → status ≡ 0 }
    ensures kept { result ≡ 0 → S.is_kept out.new ≡ true }
{
    let is_whole = status == 0 || (status == 1 && !faults.is_used());
    match out.end(is_whole) {
        Ok(()) => status,
        Err(unkept) => {
            print_file_line(unkept.name.as_bytes(), unkept.fault, b"", faults);
            1
        }
    }
}

// Does what the words ask for, and gives the exit status. A call of its own, so that `main` has next to no stack before that
// is looked at.
#[inline(never)]
fn work<R: Threads + Wait + Sync + AllocGlobal>(rt: &R, system: &HostRuntime) -> ExitCode {
    let mut input = Source::new(StandardInput::new(system, HINT));
    let mut out = Out::new(system);
    let mut faults = Noted::new(StdSink::new(system.stderr()));
    let words = env::args(system);
    let mut disk = Disk::new(system);
    let status = run(rt, words, &mut disk, &mut input, &mut out, &mut faults);
    ExitCode::from(ended(&mut out, status, &mut faults))
}

fn main(rt: HostRuntime) -> ExitCode {
    if let Err(lack) = touch(&rt) {
        print_lack(&rt, lack);
        return ExitCode::from(1);
    }
    work(&rt, &rt)
}
