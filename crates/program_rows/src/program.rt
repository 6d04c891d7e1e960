ghost use Rattle.std.specs.Prelude.{◌≡◌, ◌<◌, Some, length, slice_get};
ghost use Rattle.std.specs.Option.{option_map};
ghost use Rattle.program_rows.specs.Costed.{costed_program};
ghost use Rattle.program_rows.specs.Parts.{IsProgram, table_of};
ghost use Rattle.program_rows.specs.Points.{broken_row, objective};
ghost use Rattle.program_rows.specs.Spelling.{column_bid};

use crate::broken::broken_row;
use crate::column::Bounds;
use crate::columns::Columns;
use crate::costs::cost_sum;
use crate::point::Point;
use crate::row::{Row, RowKind, kind_at, name_at, right_side_at};
use crate::spelling::bid_named;
use auction_terms::Choice;
use std::marker::Model;

/// What a program is made of.
#[derive(Drop)]
pub struct ProgramParts {
    pub objective_name: Vec<u8>,
    pub rows: Vec<Row>,
    pub columns: Columns,
}

/// A 0-1 program. Its rows and columns go by their places from 0.
#[derive(Drop)]
pub struct Program {
    parts: ProgramParts,
}

impl Model for Program {
    ghost use Rattle.program_rows.specs.Program.{Table};

    ghost Value = { Table };

    ghost use Rattle.program_rows.specs.Parts.{IsProgram, table_of};

    ghost view = { λ p. table_of p.parts };

    ghost invariant = { λ p. IsProgram (table_of p.parts) };
}

impl Program {
    /// The program of these parts. Names of rows differ, and so do those of columns; entries are in row order, and none is 0.
    pub fn from_parts(parts: ProgramParts) -> Program
        requires { IsProgram (table_of parts) }
        ensures { result ≡ table_of parts }
    {
        Program { parts }
    }

    /// The same program with other costs.
    pub fn with_costs(self, costs: Vec<i64>) -> Program
        requires { length costs.items ≡ length self.columns }
        ensures { result ≡ costed_program self costs.items }
    {
        let Program { parts } = self;
        let ProgramParts {
            objective_name,
            rows,
            columns,
        } = parts;
        Program {
            parts: ProgramParts {
                objective_name,
                rows,
                columns: columns.with_costs(costs),
            },
        }
    }

    /// What every program keeps: names are printable, those of rows differ, and so do those of columns; entries are in row order, and none is 0.
    pub fn well_formed(&self)
        ensures { IsProgram self.now }
    {
        let _ = &self.parts;
    }

    /// The name of the objective.
    pub fn objective_name(&self) -> &[u8]
        ensures { result.now ≡ self.now.objective }
    {
        self.parts.objective_name.as_slice()
    }

    /// The number of rows, without the objective.
    pub fn row_count(&self) -> usize
        ensures { result ≡ length self.now.rows }
    {
        self.parts.rows.len()
    }

    /// The name of a row.
    pub fn row_name(&self, row: usize) -> &[u8]
        requires { row < length self.now.rows }
        ensures { option_map (λ r. r.name) (slice_get self.now.rows row) ≡ Some result.now }
    {
        name_at(self.parts.rows.as_slice(), row)
    }

    /// How the sum of a row compares with its right side.
    pub fn row_kind(&self, row: usize) -> RowKind
        requires { row < length self.now.rows }
        ensures { option_map (λ r. r.kind) (slice_get self.now.rows row) ≡ Some result }
    {
        kind_at(self.parts.rows.as_slice(), row)
    }

    /// The right side of a row.
    pub fn right_side(&self, row: usize) -> i64
        requires { row < length self.now.rows }
        ensures { option_map (λ r. r.right_side) (slice_get self.now.rows row) ≡ Some result }
    {
        right_side_at(self.parts.rows.as_slice(), row)
    }

    /// The number of columns.
    pub fn column_count(&self) -> usize
        ensures { result ≡ length self.now.columns }
    {
        self.parts.columns.len()
    }

    /// The name of a column.
    pub fn column_name(&self, column: usize) -> &[u8]
        requires { column < length self.now.columns }
        ensures { option_map (λ c. c.name) (slice_get self.now.columns column) ≡ Some result.now }
    {
        self.parts.columns.name(column)
    }

    /// The values that a column may take.
    pub fn bounds(&self, column: usize) -> Bounds
        requires { column < length self.now.columns }
        ensures { option_map (λ c. c.bounds) (slice_get self.now.columns column) ≡ Some result }
    {
        self.parts.columns.bounds(column)
    }

    /// The cost of a column.
    pub fn cost(&self, column: usize) -> i64
        requires { column < length self.now.columns }
        ensures { option_map (λ c. c.cost) (slice_get self.now.columns column) ≡ Some result }
    {
        self.parts.columns.cost(column)
    }

    /// The entries of a column: places of rows, rising, and the coefficients there.
    pub fn entries(&self, column: usize) -> &[(usize, i64)]
        requires { column < length self.now.columns }
        ensures { option_map (λ c. c.entries) (slice_get self.now.columns column)
            ≡ Some result.now }
    {
        self.parts.columns.entries(column)
    }

    /// The bid that the name of a column spells, if it spells one.
    pub fn column_bid(&self, column: usize) -> Option<Choice>
        requires { column < length self.now.columns }
        ensures { option_map (λ c. column_bid c.name) (slice_get self.now.columns column)
            ≡ Some result }
    {
        bid_named(self.parts.columns.name(column))
    }

    /// The sum of the costs of the columns that are 1.
    pub fn objective(&self, point: &Point) -> i128
        requires { length point.now ≡ length self.now.columns }
        ensures { result ≡ objective self.now point.now }
    {
        cost_sum(&self.parts.columns, point.values())
    }

    /// The place of the first row that isn't met.
    pub fn broken_row(&self, point: &Point) -> Option<usize>
        requires { length point.now ≡ length self.now.columns }
        ensures { result ≡ broken_row self.now point.now }
    {
        broken_row(
            self.parts.rows.as_slice(),
            &self.parts.columns,
            point.values(),
        )
    }

    /// The name of the objective, the rows and the columns.
    pub fn parts(&self) -> &ProgramParts
        ensures parts { table_of result.now ≡ self.now }
        ensures program { IsProgram self.now }
    {
        &self.parts
    }
}
