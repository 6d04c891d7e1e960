//! Texts of programs, and what they mean.

use crate::worked::ONE_BID;
use mps_reader::read_program;
use program_rows::{MpsFault, MpsFaultKind};
use std::alloc::Global;
use std::test::Fail;

mod refused;

/// The program of one bid, as another tool may write it.
const FOREIGN: &[u8] =
    b"* made elsewhere\r\nNAME\r\nOBJSENSE MIN\r\nROWS\r\n\tN OBJ\r\n N SPARE\r\n L B3\r\n L C1\r\n L C2\r\n\r\nCOLUMNS\r\n X3_1 OBJ -1.2e1 SPARE 7\r\n X3_1 B3 1.0 C2 10e-1\r\nRHS\r\n B3 1 C1 2.0\r\n RHS C2 1\r\nBOUNDS\r\n BV X3_1\r\nENDATA\r\nnot read\r\n";

const TWO_COLUMNS: &[u8] =
    b"NAME wdp\nROWS\n N OBJ\n L B1\n G B2\n E C1\nCOLUMNS\n X1_1 OBJ -30\n X1_1 B1 1\n X1_1 C1 2\n X2_1 OBJ -20\n X2_1 B2 1\n X2_1 C1 1\nRHS\n RHS B1 1\n RHS C1 2\nBOUNDS\n BV BND X1_1\n BV BND X2_1\nENDATA\n";

// The same program: its rows and its columns, and the lines of each, are the other way round.
const TWO_COLUMNS_TURNED: &[u8] =
    b"NAME other\nROWS\n E C1\n G B2\n L B1\n N OBJ\nCOLUMNS\n X2_1 C1 1 B2 1\n X2_1 OBJ -20\n X1_1 C1 2\n X1_1 B1 1\n X1_1 OBJ -30\nRHS\n RHS C1 2\n RHS B1 1\nBOUNDS\n BV BND X2_1\n BV BND X1_1\nENDATA\n";

// The turned one with another coefficient.
const OTHER_COLUMNS: &[u8] =
    b"NAME other\nROWS\n E C1\n G B2\n L B1\n N OBJ\nCOLUMNS\n X2_1 C1 2 B2 1\n X2_1 OBJ -20\n X1_1 C1 2\n X1_1 B1 1\n X1_1 OBJ -30\nRHS\n RHS C1 2\n RHS B1 1\nBOUNDS\n BV BND X2_1\n BV BND X1_1\nENDATA\n";

/// Two texts, and whether they mean the same program.
const PAIRS: [(&[u8], &[u8], bool); 5] = [
    (FOREIGN, ONE_BID, true),
    (ONE_BID, FOREIGN, true),
    (TWO_COLUMNS, TWO_COLUMNS_TURNED, true),
    (TWO_COLUMNS, OTHER_COLUMNS, false),
    (OTHER_COLUMNS, TWO_COLUMNS, false),
];

/// The front of `ONE_BID` of so many bytes is refused at this line for this fault.
const FRONTS: [(usize, usize, MpsFaultKind); 8] = [
    (0, 0, MpsFaultKind::NoEnd),
    (3, 1, MpsFaultKind::Section),
    (4, 1, MpsFaultKind::NoEnd),
    (70, 9, MpsFaultKind::NoEnd),
    (181, 18, MpsFaultKind::UnknownColumn),
    (182, 18, MpsFaultKind::NoEnd),
    (184, 19, MpsFaultKind::Section),
    (188, 19, MpsFaultKind::Section),
];

fn is_too_large(alloc: Global) -> Result<bool, Fail> {
    let text = vec![in alloc; b'\n'; 67_108_865]?;
    let reported = MpsFault {
        line: 0,
        kind: MpsFaultKind::TooLarge,
    };
    Ok(read_program(alloc, &text).err() == Some(reported))
}

#[test]
fn refuses_a_text_that_is_too_large(rt: HostRuntime) -> Result<(), Fail> {
    assert!(rt; is_too_large(rt.alloc())?);
    Ok(())
}
