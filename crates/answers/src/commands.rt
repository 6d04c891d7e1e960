//! The commands. The auction that the input describes is read here, for all of them, and handed to the command that is asked for.

ghost use Rattle.std.specs.Prelude.{◌≡◌, ◌≢◌, ℕ, IfErr, OnOk};
ghost use Rattle.auction_input.specs.declared.request.ExplainOptions.{ExplainOptions};
ghost use Rattle.answers.specs.Answer.{answer, output_of};
ghost use Rattle.answers.specs.Exact.{IsUnwritten, Writes};
ghost use Rattle.answers.specs.FaithfulAnswers.{WritesFaithfulTextOn, WritesFaithfulTextsOn};
ghost use Rattle.answers.specs.FeasibleAnswers.{WritesFeasibleReportOn, WritesFeasibleWinnersOn};
ghost use Rattle.answers.specs.Runs.{AsksAnswer};
ghost use Rattle.auction_input.specs.Requests.{IsRequestWithinLimits};
ghost use Rattle.answers.specs.Sold.{HasSold};
ghost use Rattle.answers.specs.Output.{IsWithoutOutput};
ghost use Rattle.answers.specs.inside.ByAuction.{IsByAuction};
ghost use Rattle.answers.specs.VerifiedForms.{WritesVerifiedWithForms};
ghost use Rattle.answers.specs.VerifiedInputs.{WritesTrueReportOn};
ghost use Rattle.answers.specs.VerifiedObjects.{WritesTrueObjectsOn};
ghost use Rattle.auction_input.specs.declared.request.Objects.TheVariants as objects;
ghost use Rattle.auction_input.specs.Settled.{held};

pub mod check;
pub mod compile;
mod explain;
mod forms;
mod map;
pub mod objects;
mod report;
mod text;
pub mod verify;

use crate::commands::check::check;
use crate::commands::compile::write_programs_of;
use crate::commands::explain::write_bids_of;
use crate::commands::forms::write_forms;
use crate::commands::map::write_winners;
use crate::commands::objects::write_objects;
use crate::commands::report::write_costs;
use crate::commands::text::write_program_of_all;
use crate::commands::verify::{verify_with_forms, write_verified};
use auction_input::{Auction, Input, Refusal, Request, read_auction};
use byte_sinks::{Format, Sink};
pub use explain::explain_input;
use std::sync::Wait;
use std::thread::Threads;

/// Writes what a request asks for of an input. For `explain`, which may print faults in its place, see `explain_input`. It takes
/// `check`, `forms` and `verify --forms` apart from the others, since the input of `check` describes a program, `forms` reads rules and
/// forms alone, `verify --forms` both them and an auction, and the others an auction.
pub fn answer<R: Threads + Wait + Sync + AllocGlobal, S: Sink>(
    rt: &R,
    request: Request,
    input: &Input,
    out: &mut S,
) -> Result<(), Refusal>
    requires limits { IsRequestWithinLimits request }
    requires answered { (options : ExplainOptions) → request ≢ Request.Explain options }
    ensures written { OnOk result (Writes (answer request input.now) (S.state out.old)
        (S.state out.new)) }
    ensures sold { OnOk result (HasSold request input.now) }
    ensures text { request ≡ Request.Text
        → OnOk result (WritesFaithfulTextOn input.now (S.state out.old).taken
        (S.state out.new).taken) }
    ensures compiled { (workers : ℕ) → request ≡ Request.Compile workers
        → OnOk result (WritesFaithfulTextsOn workers input.now (S.state out.old).taken
        (S.state out.new).taken) }
    ensures mapped { (group : ℕ) → request ≡ Request.Map group
        → OnOk result (WritesFeasibleWinnersOn group input.now (S.state out.old).taken
        (S.state out.new).taken) }
    ensures reported { (workers : ℕ) → request ≡ Request.Report workers
        → OnOk result (WritesFeasibleReportOn workers input.now (S.state out.old).taken
        (S.state out.new).taken) }
    ensures verified { (workers : ℕ) → request ≡ Request.Verify workers
        → OnOk result (WritesTrueReportOn workers input.now (S.state out.old).taken
        (S.state out.new).taken) }
    ensures verified_with_forms { (workers : ℕ) → request ≡ Request.VerifyWithForms workers
        → OnOk result (WritesVerifiedWithForms workers input.now (S.state out.old).taken
        (S.state out.new).taken) }
    ensures verified_as_objects { (workers : ℕ) → request ≡ Request.Objects (objects.Verify workers)
        → OnOk result (WritesTrueObjectsOn workers input.now (S.state out.old).taken
        (S.state out.new).taken) }
    ensures asks { AsksAnswer request input.now }
    ensures refused { IfErr result (IsUnwritten request input.now
        (S.state out.old) (S.state out.new)) }
{
    match request {
        Request::Check => check(rt.alloc(), input, out),
        Request::Forms => write_forms(rt, Format::Words, input, out),
        Request::Objects(objects) => write_objects(rt, objects, input, out),
        Request::VerifyWithForms { workers } => verify_with_forms(rt, input, workers, out),
        request => answer_auction(rt, &request, input, out),
    }
}

// Reads the auction that an input describes, and writes what is asked for of it. `explain_input` calls it, too, for an input
// without faults, where `answer` isn't to be called.
fn answer_auction<R: Threads + Wait + Sync + AllocGlobal, S: Sink>(
    rt: &R,
    request: &Request,
    input: &Input,
    out: &mut S,
) -> Result<(), Refusal>
    requires limits { IsRequestWithinLimits request.now }
    requires of_auction { IsByAuction request.now }
    ensures written { OnOk result (Writes (answer request.now input.now) (S.state out.old)
        (S.state out.new)) }
    ensures sold { OnOk result (HasSold request.now input.now) }
    ensures refused { IfErr result (IsUnwritten request.now input.now
        (S.state out.old) (S.state out.new)) }
{
    let auction = read_auction(rt, request, input)?;
    write_output(rt, request, &auction, out)
}

// Writes what is asked for of an auction. It only borrows the auction, so that each command is proved by the auction alone, and
// `answer_auction` then says it of the input once for all of them.
fn write_output<R: Threads + Sync + AllocGlobal, S: Sink>(
    rt: &R,
    request: &Request,
    auction: &Auction<'_>,
    out: &mut S,
) -> Result<(), Refusal>
    requires limits { IsRequestWithinLimits request.now }
    requires of_auction { IsByAuction request.now }
    ensures written { OnOk result (Writes (output_of request.now (held auction.now))
        (S.state out.old) (S.state out.new)) }
    ensures refused { IfErr result (IsWithoutOutput request.now (held auction.now)
        (S.state out.old) (S.state out.new)) }
{
    match *request {
        Request::Text => write_program_of_all(rt, auction, out),
        Request::Compile { workers } => write_programs_of(rt, auction, workers, out),
        Request::Map { group } => write_winners(rt, auction, group, out),
        Request::Report { workers } => write_costs(rt, auction, workers, out),
        Request::Verify { workers } => write_verified(rt, auction, workers, out),
        Request::Explain(options) => write_bids_of(rt, auction, options, out),
        Request::Check
        | Request::Forms
        | Request::VerifyWithForms { workers: _ }
        | Request::Objects(_) => unreachable!(),
    }
}
