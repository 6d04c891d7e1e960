//! What a form, or the lots, give to the texts of groups.

use crate::rendering::rendered;
use crate::section::Section;
use auction_terms::{Kept, Rules};
use bid_desk::ClosedBook;
use presolve::Flags;
use program_rows::{Columns, Row, build, build_bids};
use std::alloc::{AllocError, Global};
use std::marker::Model;

/// Lines for each section of a text. Contracts see the four texts.
#[derive(Drop)]
pub struct Page {
    rows: Vec<u8>,
    columns: Vec<u8>,
    right_sides: Vec<u8>,
    bounds: Vec<u8>,
}

impl Model for Page {
    ghost use Rattle.group_compiler.specs.Pages.{PageText, page_text};

    ghost Value = { PageText };

    ghost view = { λ p. page_text p.rows.items p.columns.items p.right_sides.items p.bounds.items };
}

impl Page {
    ghost use Rattle.std.specs.Prelude.{◌≡◌, ◌≤◌, IfOk, length, map};
    ghost use Rattle.auction_terms.specs.Allocations.{form_of};
    ghost use Rattle.auction_terms.specs.Terms.{lots_in};
    ghost use Rattle.bid_desk.specs.Closing.{book_of};
    ghost use Rattle.presolve.specs.Flags.{flags_of};
    ghost use Rattle.program_rows.specs.Parts.{shown_row};
    ghost use Rattle.group_compiler.specs.Pages.{section_lines, page_of_form, page_of_lots, page_with};

    // The lines of some rows, and of columns with entries in all rows.
    fn new(alloc: Global, all: &[Row], rows: &[Row], columns: &Columns) -> Result<Page, AllocError>
        ensures { IfOk result (λ page. page
            ≡ page_with (map shown_row all.now) (map shown_row rows.now) columns.now) }
    {
        Ok(Page {
            rows: rendered(alloc, all, rows, columns, Section::Rows)?,
            columns: rendered(alloc, all, rows, columns, Section::Columns)?,
            right_sides: rendered(alloc, all, rows, columns, Section::RightSides)?,
            bounds: rendered(alloc, all, rows, columns, Section::Bounds)?,
        })
    }

    /// The page of a bidder's form, given the flags of the book: the lines of the row of the bidder, if a bid of
    /// it is kept, and of the columns of its kept bids.
    pub fn of_form(
        alloc: Global,
        book: &ClosedBook,
        flags: &Flags,
        bidder: u16,
    ) -> Result<Page, AllocError>
        requires flags { flags.now ≡ flags_of (lots_in book.now.rules) (book_of book.now) }
        requires some { 1 ≤ bidder }
        requires bidders { bidder ≤ length (book_of book.now) }
        ensures { IfOk result (λ page. page
            ≡ page_of_form (lots_in book.now.rules) bidder (form_of (book_of book.now) bidder)) }
    {
        let rules = book.rules();
        let kept = flags.kept_in_form(alloc, book, bidder)?;
        let parts = build_bids(alloc, rules, &kept)?;
        let rows = parts.rows.as_slice();
        let own = rows.len() - (rules.categories().len() + rules.pools().len());
        Page::new(alloc, rows, &rows[..own], &parts.columns)
    }

    /// The page of the lots: the lines of the rows of categories and pools, and of the column of what all lots are worth,
    /// if that isn't 0.
    pub fn of_lots(alloc: Global, rules: &Rules) -> Result<Page, AllocError>
        ensures { IfOk result (λ page. page ≡ page_of_lots (lots_in rules.now)) }
    {
        let none = Kept::new(Vec::new(alloc));
        let program = build(alloc, rules, &none)?;
        let parts = program.parts();
        let rows = parts.rows.as_slice();
        Page::new(alloc, rows, rows, &parts.columns)
    }

    /// Its lines in a section.
    pub fn lines(&self, section: Section) -> &[u8]
        ensures { result.now ≡ section_lines section self.now }
    {
        match section {
            Section::Rows => &self.rows,
            Section::Columns => &self.columns,
            Section::RightSides => &self.right_sides,
            Section::Bounds => &self.bounds,
        }
    }
}
