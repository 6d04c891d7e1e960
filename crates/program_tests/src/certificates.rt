//! Certificates of an odd cycle, and what they show.

use program_rows::CertificateFaultKind;

mod refused;

// Three columns, any two of which exclude one another, and a fixed one: half of each is the best of the fractions, at 2.
const ODD_CYCLE: &[u8] =
    b"NAME odd\nROWS\n N OBJ\n L A1\n L A2\n L B\nCOLUMNS\n M1 'MARKER' 'INTORG'\n X1 OBJ -2\n X1 A1 1\n X1 A2 1\n X2 OBJ -2\n X2 A1 1\n X2 B 1\n X3 OBJ -2\n X3 A2 1\n X3 B 1\n K OBJ 5\n M2 'MARKER' 'INTEND'\nRHS\n RHS A1 1\n RHS A2 1\n RHS B 1\nBOUNDS\n BV BND X1\n BV BND X2\n BV BND X3\n FX BND K 1\nENDATA\n";

// That no point of the odd cycle lies below 3.
const SHOWN: &[u8] = b"# X1 is 0, or it is 1\nsplit 0 X1 1\n\nbound 1 2 B 2\nbound 1 2 A1 2 A2 2\n";

/// That half of each is the best of the fractions.
const OF_FRACTIONS: &[u8] = b"bound 1 A1 1 A2 1 B 1\n";

/// The side on which all three would be 1 has no point: its leaf is shown at scale 0.
const WITH_AN_EMPTY_SIDE: &[u8] =
    b"split 3 X1 1 X2 1 X3 1\nsplit 0 X1 1\nbound 1 0 2 B 2\nbound 1 0 2 A1 2 A2 2\nbound 0 1\n";

/// Texts, each with a number that no point is to lie below, and the line and the kind of what is wrong, if anything is.
const CERTIFICATES: [(&[u8], i128, Option<(usize, CertificateFaultKind)>); 9] = [
    (SHOWN, 2, None),
    (SHOWN, 3, None),
    (SHOWN, 4, Some((4, CertificateFaultKind::NotShown))),
    (SHOWN, i128::MIN, Some((4, CertificateFaultKind::TooLarge))),
    (OF_FRACTIONS, 2, None),
    (OF_FRACTIONS, 3, Some((1, CertificateFaultKind::NotShown))),
    (WITH_AN_EMPTY_SIDE, 3, None),
    (
        b"split 0 X1 1\nbound 1\n",
        1,
        Some((2, CertificateFaultKind::Fields)),
    ),
    (
        b"bound 1 A1 1 X1 1\n",
        1,
        Some((1, CertificateFaultKind::UnknownRow)),
    ),
];
