//! A program, or a selection of its rows and columns.

ghost use Rattle.std.specs.Prelude.{◌≡◌, ◌<◌, Some, length, option_map, slice_get};
ghost use Rattle.program_rows.specs.inside.Seen.{AreThere, seen, seen_column};

use crate::column::Bounds;
use crate::program::Program;
use crate::row::RowKind;
use crate::selected_entries::Entries;
use auction_terms::Choice;
use std::marker::Model;

/// Rows and columns by their places in a program, and for each row of the program its number among those that are selected.
#[derive(Drop)]
pub struct Selected {
    pub rows: Vec<usize>,
    pub columns: Vec<usize>,
    pub numbers: Vec<usize>,
}

/// A program, or a selection of its rows and columns, which contracts see as a program of its own. It takes names, costs and
/// entries from the program, so that one program serves many groups.
#[derive(Drop)]
pub struct Selection<'p> {
    program: &'p Program,
    selected: Option<Selected>,
}

impl<'p> Model for Selection<'p> {
    ghost use Rattle.program_rows.specs.Parts.{IsProgram};
    ghost use Rattle.program_rows.specs.Program.{Table};
    ghost use Rattle.program_rows.specs.inside.Seen.{AreThere, seen};

    ghost Value = { Table };

    ghost view = { λ s. seen s.program.now s.selected };

    ghost invariant = { λ s. IsProgram (seen s.program.now s.selected) × AreThere s.program.now s.selected };
}

/// Where a row of the selection is in the program.
fn row_place(program: &Program, selected: &Option<Selected>, row: usize) -> usize
    requires there { AreThere program.now selected.now }
    requires row { row < length (seen program.now selected.now).rows }
    ensures same { slice_get (seen program.now selected.now).rows row
        ≡ slice_get program.now.rows result }
    ensures within { result < length program.now.rows }
{
    match selected {
        None => row,
        Some(selected) => selected.rows[row],
    }
}

/// Where a column of the selection is in the program.
fn column_place(program: &Program, selected: &Option<Selected>, column: usize) -> usize
    requires there { AreThere program.now selected.now }
    requires column { column < length (seen program.now selected.now).columns }
    ensures same { slice_get (seen program.now selected.now).columns column
        ≡ option_map (seen_column selected.now) (slice_get program.now.columns result) }
    ensures within { result < length program.now.columns }
{
    match selected {
        None => column,
        Some(selected) => selected.columns[column],
    }
}

impl<'p> Selection<'p> {
    ghost use Rattle.std.specs.Prelude.{◌≡◌, ◌<◌, Some, length, option_map, slice_get};
    ghost use Rattle.program_rows.specs.Parts.{IsProgram};
    ghost use Rattle.program_rows.specs.Spelling.{column_bid};
    ghost use Rattle.program_rows.specs.inside.Seen.{AreThere, seen};

    /// All rows and columns.
    pub fn whole(program: &'p Program) -> Selection<'p>
        ensures { result ≡ program.now }
    {
        program.well_formed();
        Selection {
            program,
            selected: None,
        }
    }

    /// These rows and columns.
    pub(crate) fn of(program: &'p Program, selected: Selected) -> Selection<'p>
        requires program { IsProgram (seen program.now (Some selected)) }
        requires there { AreThere program.now (Some selected) }
        ensures { result ≡ seen program.now (Some selected) }
    {
        Selection {
            program,
            selected: Some(selected),
        }
    }

    /// What every program keeps, as `Program::well_formed` says.
    pub fn well_formed(&self)
        ensures { IsProgram self.now }
    {
        let _ = &self.program;
    }

    /// The number of rows, without the objective.
    pub fn row_count(&self) -> usize
        ensures { result ≡ length self.now.rows }
    {
        match &self.selected {
            None => self.program.row_count(),
            Some(selected) => selected.rows.len(),
        }
    }

    /// The name of a row.
    pub fn row_name(&self, row: usize) -> &[u8]
        requires { row < length self.now.rows }
        ensures { option_map (λ r. r.name) (slice_get self.now.rows row) ≡ Some result.now }
    {
        self.program
            .row_name(row_place(self.program, &self.selected, row))
    }

    /// How the sum of a row compares with its right side.
    pub fn row_kind(&self, row: usize) -> RowKind
        requires { row < length self.now.rows }
        ensures { option_map (λ r. r.kind) (slice_get self.now.rows row) ≡ Some result }
    {
        self.program
            .row_kind(row_place(self.program, &self.selected, row))
    }

    /// The right side of a row.
    pub fn right_side(&self, row: usize) -> i64
        requires { row < length self.now.rows }
        ensures { option_map (λ r. r.right_side) (slice_get self.now.rows row) ≡ Some result }
    {
        self.program
            .right_side(row_place(self.program, &self.selected, row))
    }

    /// The number of columns.
    pub fn column_count(&self) -> usize
        ensures { result ≡ length self.now.columns }
    {
        match &self.selected {
            None => self.program.column_count(),
            Some(selected) => selected.columns.len(),
        }
    }

    /// The name of a column.
    pub fn column_name(&self, column: usize) -> &[u8]
        requires { column < length self.now.columns }
        ensures { option_map (λ c. c.name) (slice_get self.now.columns column) ≡ Some result.now }
    {
        self.program
            .column_name(column_place(self.program, &self.selected, column))
    }

    /// The values that a column may take.
    pub fn bounds(&self, column: usize) -> Bounds
        requires { column < length self.now.columns }
        ensures { option_map (λ c. c.bounds) (slice_get self.now.columns column) ≡ Some result }
    {
        self.program
            .bounds(column_place(self.program, &self.selected, column))
    }

    /// The cost of a column.
    pub fn cost(&self, column: usize) -> i64
        requires { column < length self.now.columns }
        ensures { option_map (λ c. c.cost) (slice_get self.now.columns column) ≡ Some result }
    {
        self.program
            .cost(column_place(self.program, &self.selected, column))
    }

    /// The entries of a column.
    pub fn entries(&self, column: usize) -> Entries<'_>
        requires { column < length self.now.columns }
        ensures { option_map (λ c. c.entries) (slice_get self.now.columns column) ≡ Some result }
    {
        let place = column_place(self.program, &self.selected, column);
        let numbers = match &self.selected {
            None => None,
            Some(selected) => Some(selected.numbers.as_slice()),
        };
        Entries::new(self.program.entries(place), numbers)
    }

    /// The bid that the name of a column spells, if it spells one.
    pub fn column_bid(&self, column: usize) -> Option<Choice>
        requires { column < length self.now.columns }
        ensures { option_map (λ c. column_bid c.name) (slice_get self.now.columns column)
            ≡ Some result }
    {
        self.program
            .column_bid(column_place(self.program, &self.selected, column))
    }
}
