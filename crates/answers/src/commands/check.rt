//! The command `check`: the sizes of a program.

ghost use Rattle.std.specs.Prelude.{◌≡◌, ◌-◌, ◌^◌, IfErr, OnOk, length, min, sum_by};
ghost use Rattle.byte_sinks.specs.Sinks.{Sends};
ghost use Rattle.answers.specs.Sizes.{sizes_text};
ghost use Rattle.answers.specs.Answer.{answer};
ghost use Rattle.answers.specs.Exact.{IsUnwritten, Writes};

use crate::pieces::write_pieces;
use auction_input::{Input, Refusal, Request};
use byte_sinks::{Sink, WriteFault};
use itoa::Buffer;
use mps_reader::read_program;
use program_rows::Program;
use std::alloc::Global;

// How many entries the columns have outside the objective.
fn entry_count(program: &Program) -> u64
    ensures { result ≡ min (sum_by (λ c. length c.entries) program.now.columns) (2 ^ 64 - 1) }
{
    let mut count: u64 = 0;
    for column in 0..program.column_count() {
        count = count.saturating_add(program.entries(column).len() as u64);
    }
    count
}

/// Writes how many rows beside the objective, columns and entries outside the objective there are. It takes no memory.
pub fn write_sizes<S: Sink>(program: &Program, out: &mut S) -> Result<(), WriteFault>
    ensures { Sends (S.state out.old) (S.state out.new) result (sizes_text program.now) }
{
    let mut rows = Buffer::new();
    let mut columns = Buffer::new();
    let mut entries = Buffer::new();
    let pieces: [&[u8]; 7] = [
        b"rows ",
        rows.format(program.row_count() as u64).as_bytes(),
        b" columns ",
        columns.format(program.column_count() as u64).as_bytes(),
        b" entries ",
        entries.format(entry_count(program)).as_bytes(),
        b"\n",
    ];
    write_pieces(&pieces, out)
}

/// Writes the sizes of the program that the one text of the input is.
pub fn check<S: Sink>(alloc: Global, input: &Input, out: &mut S) -> Result<(), Refusal>
    ensures written { OnOk result (Writes (answer Request.Check input.now) (S.state out.old) (S.state out.new)) }
    ensures refused { IfErr result (IsUnwritten Request.Check input.now
        (S.state out.old) (S.state out.new)) }
{
    let program = read_program(alloc, input.first_text())?;
    write_sizes(&program, out)?;
    Ok(())
}
