//! Texts of solutions, and what they mean.

use crate::worked::on_program;
use outcome::read_solution;
use program_rows::{Program, SolutionFault};
use std::alloc::Global;
use std::test::Fail;

mod refused;

/// The program of the kept bids of three bidders.
const THREE_BIDDERS: &[u8] =
    b"NAME wdp\nROWS\n N OBJ\n L B1\n L B2\n L B3\n L C1\n L C2\nCOLUMNS\n M1 'MARKER' 'INTORG'\n X1_1 OBJ -30\n X1_1 B1 1\n X1_1 C1 1\n X1_2 OBJ -50\n X1_2 B1 1\n X1_2 C1 2\n X1_2 C2 1\n X2_1 OBJ -20\n X2_1 B2 1\n X2_1 C1 1\n X3_1 OBJ -12\n X3_1 B3 1\n X3_1 C2 1\n M2 'MARKER' 'INTEND'\nRHS\n RHS B1 1\n RHS B2 1\n RHS B3 1\n RHS C1 2\n RHS C2 1\nBOUNDS\n UP BND X1_1 1\n UP BND X1_2 1\n UP BND X2_1 1\n UP BND X3_1 1\nENDATA\n";

/// A program of one column, which is fixed at 1.
const FIXED: &[u8] =
    b"NAME wdp\nROWS\n N OBJ\nCOLUMNS\n M1 'MARKER' 'INTORG'\n X1_1 OBJ -30\n M2 'MARKER' 'INTEND'\nRHS\nBOUNDS\n FX BND X1_1 1\nENDATA\n";

/// Texts that are solutions of the program of three bidders, with the values of its columns.
const SOLUTIONS: [(&[u8], [bool; 4]); 3] = [
    (
        b"X1_1 0.999999\nX2_1 1\nX3_1 1\n",
        [true, false, true, true],
    ),
    (b"X1_1 0.99999\n", [true, false, false, false]),
    (b"", [false, false, false, false]),
];

/// Texts that aren't, and why.
const REFUSED: [(&[u8], SolutionFault); 9] = [
    (b"X1_1 1\nX1_2 1\n", SolutionFault::RowBroken { row: 0 }),
    (b"X1_1 0.9\n", SolutionFault::NotZeroOne { place: 1 }),
    (b"X1_3 1", SolutionFault::UnknownColumn { place: 1 }),
    (
        b"X1_1 1\nX1_1 1\n",
        SolutionFault::RepeatedColumn { place: 2 },
    ),
    (b"X1_1 1 2\n", SolutionFault::Fields { place: 1 }),
    (b"X1_1 one\n", SolutionFault::ValueText { place: 1 }),
    (b"X1_1 0.9\nQ 1\n", SolutionFault::NotZeroOne { place: 1 }),
    (b"X1_1 1e61\n", SolutionFault::ValueText { place: 1 }),
    (
        b"X1_1 1\nX2_1 1\nX1_1 1",
        SolutionFault::RepeatedColumn { place: 3 },
    ),
];

fn is_too_large(alloc: Global, program: &Program) -> Result<bool, Fail> {
    let text = vec![in alloc; b'#'; 67_108_865]?;
    Ok(read_solution(alloc, &text, program).err() == Some(SolutionFault::TooLarge))
}

#[test]
fn refuses_a_text_above_the_limit(rt: HostRuntime) -> Result<(), Fail> {
    assert!(rt; on_program(rt.alloc(), FIXED, is_too_large)?);
    Ok(())
}
