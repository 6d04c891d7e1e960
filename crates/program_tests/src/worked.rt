//! What is made in more than one place.

use auction_terms::{Kept, read_rules};
use mps_reader::read_program;
use program_rows::{Program, build};
use std::alloc::Global;
use std::test::Fail;

/// The program of one bid.
pub const ONE_BID: &[u8] =
    b"NAME wdp\nROWS\n N OBJ\n L B3\n L C1\n L C2\nCOLUMNS\n M1 'MARKER' 'INTORG'\n X3_1 OBJ -12\n X3_1 B3 1\n X3_1 C2 1\n M2 'MARKER' 'INTEND'\nRHS\n RHS B3 1\n RHS C1 2\n RHS C2 1\nBOUNDS\n UP BND X3_1 1\nENDATA\n";

/// The answer of a trial of a text's program. It is in a function of its own, so that what the test goes on with is
/// proved without it (docs/CONTRIBUTING.md, "Add a test").
pub fn on_program<F: FnOnce(Global, &Program) -> Result<bool, Fail> + Drop>(
    alloc: Global,
    text: &[u8],
    trial: F,
) -> Result<bool, Fail>
    requires { F.IsAlwaysCallable trial }
{
    let program = read_program(alloc, text)?;
    trial(alloc, &program)
}

/// The program of rules, without a bid.
pub fn without_bids(alloc: Global, rules: &[u8]) -> Result<Program, Fail> {
    let rules = read_rules(alloc, rules)?;
    Ok(build(alloc, &rules, &Kept::new(Vec::new(alloc)))?)
}
