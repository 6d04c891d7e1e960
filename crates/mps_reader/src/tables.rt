//! What the lines so far say: the tables of rows and of columns, by name, in the order of the text.

ghost use Rattle.mps_reader.specs.inside.Columns.{IsEmptyColumns};
ghost use Rattle.std.specs.Prelude.{◌≡◌, ◌∷◌, [], ◌++◌, not, bytes_eq, IfOk, OnOk, if◌then◌else◌};
ghost use Rattle.std.specs.List.{list_any, IsDistinct};
ghost use Rattle.mps_reader.specs.inside.Rows.{names_of, RowsFit, IsEmptyTable};

use crate::sections::Section;
use indexmap::IndexSet;
use program_rows::{Columns, NameSet, Row, Seeded};
use std::alloc::{AllocFailed, Global};
use std::cell::Cell;

/// Rows by name, in the order of the text.
#[derive(Drop)]
pub struct Rows<'t> {
    pub alloc: Global,
    pub names: NameSet<'t>,
    /// Where the next name is looked for first.
    pub next: Cell<usize>,
    /// For each name its place among the rows that aren't `N`.
    pub places: Vec<Option<usize>>,
    /// For each name what named it last: a column by its place from 1, or the right sides.
    pub stamps: Vec<usize>,
    /// The rows that aren't `N`.
    pub rows: Vec<Row>,
    /// The first `N` row.
    pub objective: Option<&'t [u8]>,
}

impl<'t> Rows<'t> {
    pub fn new(alloc: Global, seed: Seeded) -> Rows<'t>
        ensures empty { IsEmptyTable result }
        ensures fit { RowsFit result }
    {
        Rows {
            alloc,
            names: IndexSet::with_hasher(alloc, seed),
            next: Cell::new(0),
            places: Vec::new(alloc),
            stamps: Vec::new(alloc),
            rows: Vec::new(alloc),
            objective: None,
        }
    }
}

/// The values that a column may take, by the lines so far.
#[derive(Clone, Copy)]
pub struct ColumnState {
    pub is_integer: bool,
    pub lower: bool,
    pub upper: Option<bool>,
}

/// What the lines of the current column say so far.
#[derive(Drop)]
pub struct OpenColumn {
    pub cost: i64,
    /// What isn't 0, by place of row.
    pub entries: Vec<(usize, i64)>,
}

/// Columns by name, in the order of the text.
#[derive(Drop)]
pub struct ColumnTable<'t> {
    pub names: NameSet<'t>,
    /// Where the next name of a bound is looked for first.
    pub next: Cell<usize>,
    pub states: Vec<ColumnState>,
    /// The columns whose lines are all read.
    pub done: Columns,
    /// The column of the line before, unless that is a marker.
    pub current: Option<&'t [u8]>,
    pub current_column: OpenColumn,
    /// Whether columns are integers from here on.
    pub is_begun: bool,
}

impl<'t> ColumnTable<'t> {
    pub fn new(alloc: Global, seed: Seeded) -> ColumnTable<'t>
        ensures { IsEmptyColumns result }
    {
        ColumnTable {
            names: IndexSet::with_hasher(alloc, seed),
            next: Cell::new(0),
            states: Vec::new(alloc),
            done: Columns::new(alloc),
            current: None,
            current_column: OpenColumn {
                cost: 0,
                entries: Vec::new(alloc),
            },
            is_begun: false,
        }
    }
}

/// What the lines so far say.
#[derive(Drop)]
pub struct Reading<'t> {
    pub section: Section,
    pub rows: Rows<'t>,
    pub columns: ColumnTable<'t>,
}

/// Adds a name, and returns whether it is new.
pub fn insert_name<'t>(
    names: &mut NameSet<'t>,
    name: &'t [u8],
) -> Result<bool, AllocFailed<&'t [u8]>>
    ensures new { IfOk result (λ is_new. is_new
        ≡ not (list_any (bytes_eq name.now) (names_of names.old))) }
    ensures names { IfOk result (λ is_new. names_of names.new
        ≡ (if is_new then names_of names.old ++ name.now ∷ [] else names_of names.old)) }
    ensures distinct { OnOk result (IsDistinct bytes_eq (names_of names.new)) }
{
    let (_, is_new) = names.insert_full(name)?;
    Ok(is_new)
}
