//! Telling all faults of an input.

ghost use Rattle.std.specs.Prelude.{◌≡◌, ◌↔◌, IfErr, IfOk, IsErr, IsTrue, OnOk, false};
ghost use Rattle.byte_sinks.specs.Sinks.{GoesWhole};
ghost use Rattle.auction_input.specs.PartCounts.{parsed_taken};
ghost use Rattle.input_faults.specs.Explained.{IsCutShort};
ghost use Rattle.input_faults.specs.FaultLines.{explanation};

use crate::finding::input_faults;
use crate::lines::{lines_of, put_lines};
use auction_input::{Input, Refusal, Request};
use byte_sinks::Sink;
use std::alloc::Global;

/// Writes a line for each fault of the input of a request, in the request's format, up to `MOST_FAULTS` lines, and how many more there are. Tells
/// whether there is a fault; where there is none, nothing is put.
pub fn explain<S: Sink>(
    alloc: Global,
    request: &Request,
    input: &Input,
    out: &mut S,
) -> Result<bool, Refusal>
    ensures written { OnOk result (GoesWhole (S.state out.old) (S.state out.new)
        (explanation request.now input.now)) }
    ensures faulty { IfOk result (λ faulty. IsTrue faulty
        ↔ IsErr (parsed_taken request.now input.now)) }
    ensures untouched { IfOk result (λ faulty. faulty ≡ false → out.new ≡ out.old) }
    ensures refused { IfErr result (IsCutShort (explanation request.now input.now)
        (S.state out.old) (S.state out.new)) }
{
    let faults = input_faults(alloc, request, input)?;
    if faults.kept.is_empty() {
        return Ok(false);
    }
    let lines = lines_of(alloc, input.texts(), request.format(), &faults)?;
    put_lines(&lines, out)?;
    Ok(true)
}
