//! Pages of a worked auction.

use group_compiler::{Page, Pages, Section};

mod refused;

/// Whether a page has these lines in its sections.
fn has_lines(page: &Page, rows: &[u8], columns: &[u8], right_sides: &[u8], bounds: &[u8]) -> bool {
    page.lines(Section::Rows) == rows
        && page.lines(Section::Columns) == columns
        && page.lines(Section::RightSides) == right_sides
        && page.lines(Section::Bounds) == bounds
}

/// Whether the page of the second form has the lines of Beta's kept bid.
fn has_lines_of_beta(pages: &Pages) -> bool {
    match pages.forms().get(1) {
        Some(beta) => has_lines(
            beta,
            b" L B2\n",
            b" X2_1 OBJ -20\n X2_1 B2 1\n X2_1 C1 1\n",
            b" RHS B2 1\n",
            b" UP BND X2_1 1\n",
        ),
        None => false,
    }
}

fn has_lines_of_lots(pages: &Pages) -> bool {
    has_lines(
        pages.lots(),
        b" L C1\n L C2\n",
        b"",
        b" RHS C1 2\n RHS C2 1\n",
        b"",
    )
}
