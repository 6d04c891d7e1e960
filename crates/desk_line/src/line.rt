//! Answering the calls of an input.

ghost use Rattle.std.specs.Prelude.{◌≡◌, ◌≤◌, ◌++◌, List, false, length, drop, IfOk, OnOk};
ghost use Rattle.std.specs.Io.KnownBytes.{Consumes, IsAtEnd};
ghost use Rattle.desk_line.specs.Fronts.{Step, front_left};
ghost use Rattle.desk_line.specs.Served.{Batch, IsServed, calls_of, disk_full_times};
ghost use Rattle.desk_line.specs.inside.Pieces.{IsBatchAnswered, IsPieceTaken};
ghost use Rattle.desk_line.specs.declared.line.Stop.TheVariants.{OutOfMemory, Untold as untold};

use crate::machine::{Front, Machine};
use crate::outside::{Outside, Unkept, Untold};
use std::alloc::{AllocError, Global};
use std::io::Read;

const BLOCK_LEN: usize = 65_536;

/// Why no more calls are answered.
#[derive(Clone, Copy, Debug, PartialEq, Eq)]
pub enum Stop {
    OutOfMemory,
    /// A read failed.
    Unread,
    /// It isn't known what the journal has.
    Unknown,
    /// A reply didn't go out.
    Untold,
}

impl From<AllocError> for Stop {
    ghost from_gives = { λ _ e. e ≡ OutOfMemory };

    fn from(_: AllocError) -> Stop {
        Stop::OutOfMemory
    }
}

impl From<Untold> for Stop {
    ghost from_gives = { λ _ e. e ≡ untold };

    fn from(_: Untold) -> Stop {
        Stop::Untold
    }
}

/// What is left of an input at its end, or where no call stands.
#[derive(Drop)]
pub struct Left {
    pub bytes: Vec<u8>,
    /// Whether no call can begin so.
    pub is_wrong: bool,
}

// What the calls at the front of some bytes are told, their entries, and how many bytes and calls they are.
#[derive(Drop)]
struct Answered {
    told: Vec<u8>,
    kept: Vec<u8>,
    used: usize,
    count: usize,
    is_wrong: bool,
}

// Answers the calls at the front of these bytes.
fn answer<M: Machine>(alloc: Global, machine: &mut M, bytes: &[u8]) -> Result<Answered, AllocError>
    ensures answered { IfOk result (λ a. (steps : List (Step M)) × IsBatchAnswered M.fronts M.answers
        machine.old machine.new bytes.now a.told.items a.kept.items a.used a.count steps) }
    ensures left { IfOk result (λ a. M.fronts machine.new (drop a.used bytes.now) (front_left a.is_wrong)) }
{
    let mut told = Vec::new(alloc);
    let mut kept = Vec::new(alloc);
    let mut used = 0;
    let mut count = 0;
    'calls: loop {
        let rest = &bytes[used..];
        let is_wrong = match machine.front(rest) {
            Front::Whole { len } => {
                machine.step(alloc, &rest[..len], &mut told, &mut kept)?;
                used += len;
                count += 1;
                continue;
            }
            Front::Short => false,
            Front::Wrong => true,
        };
        return Ok(Answered {
            told,
            kept,
            used,
            count,
            is_wrong,
        });
    }
}

// What so many calls are told of which nothing is kept.
fn disk_full_lines(alloc: Global, count: usize) -> Result<Vec<u8>, AllocError>
    ensures { IfOk result (λ lines. lines.items ≡ disk_full_times count) }
{
    let mut lines = Vec::new(alloc);
    for _place in 0..count {
        lines.extend_from_slice(b"- disk full\n")?;
    }
    Ok(lines)
}

// Drops so many bytes at the front.
fn drop_front(alloc: Global, bytes: &mut Vec<u8>, count: usize) -> Result<(), AllocError>
    requires { count ≤ length bytes.old.items }
    ensures { OnOk result (bytes.new.items ≡ drop count bytes.old.items) }
{
    if count > 0 {
        let left = Vec::from_slice(alloc, &bytes[count..])?;
        *bytes = left;
    }
    Ok(())
}

// Takes the next piece of an input: the entries of its whole calls are on the disk before the first of them is told its reply.
// Where they can't be written, none of these calls was answered. Tells whether no call can begin as what is left.
fn take_piece<M: Machine, O: Outside>(
    alloc: Global,
    machine: &mut M,
    rest: &mut Vec<u8>,
    piece: &[u8],
    out: &mut O,
) -> Result<bool, Stop>
    requires { M.extent machine.old ≡ O.extent out.old }
    ensures taken { OnOk result ((batch : Batch M) × IsPieceTaken M.fronts M.answers M.begun M.extent (record {
      state = machine.old;
      kept = O.durable out.old;
      extent = O.extent out.old;
      told = O.told out.old;
      failures = O.failures out.old;
    }) (record {
      state = machine.new;
      kept = O.durable out.new;
      extent = O.extent out.new;
      told = O.told out.new;
      failures = O.failures out.new;
    }) (rest.old.items ++ piece.now) rest.new.items batch) }
    ensures left { IfOk result (λ is_wrong. M.fronts machine.new rest.new.items (front_left is_wrong)) }
{
    rest.extend_from_slice(piece)?;
    machine.begin();
    let mark = machine.mark();
    let answered = answer(alloc, machine, rest.as_slice())?;
    drop_front(alloc, rest, answered.used)?;
    match out.keep(answered.kept.as_slice()) {
        Ok(()) => {
            out.tell(machine, answered.told.as_slice())?;
            Ok(answered.is_wrong)
        }
        Err(Unkept::Full) => {
            machine.rewind(alloc, &mark)?;
            let lines = disk_full_lines(alloc, answered.count)?;
            out.tell(machine, lines.as_slice())?;
            Ok(answered.is_wrong)
        }
        Err(Unkept::Unknown) => Err(Stop::Unknown),
    }
}

/// Answers the calls of an input, in whatever pieces it comes.
pub fn serve<I: Read, M: Machine, O: Outside>(
    alloc: Global,
    input: &mut I,
    machine: &mut M,
    out: &mut O,
) -> Result<Left, Stop>
    requires { M.extent machine.old ≡ O.extent out.old }
    // What was told and kept is what batches of the calls that were read make of it.
    ensures served { IfOk result (λ left. (batches : List (Batch M)) × IsServed M.fronts M.answers
        M.begun M.extent (record {
          state = machine.old;
          kept = O.durable out.old;
          extent = O.extent out.old;
          told = O.told out.old;
          failures = O.failures out.old;
        }) (record {
          state = machine.new;
          kept = O.durable out.new;
          extent = O.extent out.new;
          told = O.told out.new;
          failures = O.failures out.new;
        }) batches × Consumes (I.remaining input.old) (I.remaining input.new) (calls_of batches ++ left.bytes.items)) }
    // No whole call is left.
    ensures left { IfOk result (λ left. M.fronts machine.new left.bytes.items (front_left left.is_wrong)) }
    // Nothing is left unread, unless no call can begin as what is left.
    ensures end { IfOk result (λ left. left.is_wrong ≡ false → IsAtEnd (I.remaining input.new)) }
{
    let mut rest: Vec<u8> = Vec::new(alloc);
    let mut block = [0u8; BLOCK_LEN];
    'pieces: for _ in 0..u64::MAX {
        let Ok(count) = input.read(&mut block) else {
            return Err(Stop::Unread);
        };
        if count == 0 {
            return Ok(Left {
                bytes: rest,
                is_wrong: false,
            });
        }
        if take_piece(alloc, machine, &mut rest, &block[..count], out)? {
            return Ok(Left {
                bytes: rest,
                is_wrong: true,
            });
        }
    }
    Err(Stop::Unread)
}
