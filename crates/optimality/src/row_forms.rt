//! The rows of a program, each as a form over its columns.

ghost use Rattle.std.specs.Int.{w16};
ghost use Rattle.std.specs.Prelude.{◌≡◌, ◌<◌, ◌^◌, [], FitsSigned, IfOk, MatchOption, OnOk, replicate};
ghost use Rattle.optimality.specs.Checking.{AreRowsOf};
ghost use Rattle.optimality.specs.RowForms as rows;
ghost use Rattle.optimality.specs.RowForms.{forms_held, with_columns, with_entries};

use crate::by_rows::least_alone;
use program_rows::{Entries, Selection};
use std::alloc::{AllocError, Global};

/// Places of columns, each with its number.
pub type Form = Vec<(usize, i64)>;

/// The form of a row. Its terms are in 8 bytes each up to the first one that doesn't fit there.
#[derive(Drop)]
pub struct RowForm {
    pub short: Vec<(u32, i16)>,
    pub rest: Form,
}

/// The rows of a program, in order, each as a form over its columns, and what its costs alone come to: for leaves that name rows with few
/// entries.
#[derive(Drop)]
pub struct RowForms {
    pub forms: Vec<RowForm>,
    /// The least that the costs alone come to: what a leaf of scale 1 that names nothing is worth.
    pub alone: i128,
}

fn short_term(place: usize, number: i64) -> Option<(u32, i16)>
    ensures { MatchOption result (place < 2 ^ 32 → ¬ FitsSigned w16 number)
        (λ term. term ≡ (place, number)) }
{
    match (u32::try_from(place), i16::try_from(number)) {
        (Ok(place), Ok(number)) => Some((place, number)),
        _ => None,
    }
}

impl RowForm {
    ghost use Rattle.std.specs.Prelude.{◌≡◌, ◌++◌, [], ◌∷◌, OnOk};
    ghost use Rattle.optimality.specs.RowForms.{form_held};

    fn new(alloc: Global) -> RowForm
        ensures { form_held result ≡ [] }
    {
        RowForm {
            short: Vec::new(alloc),
            rest: Vec::new(alloc),
        }
    }

    fn push(&mut self, place: usize, number: i64) -> Result<(), AllocError>
        ensures { OnOk result (form_held self.new ≡ form_held self.old ++ (place, number) ∷ []) }
    {
        if self.rest.is_empty() {
            if let Some(term) = short_term(place, number) {
                self.short.push(term)?;
                return Ok(());
            }
        }
        self.rest.push((place, number))?;
        Ok(())
    }

    /// The number of terms.
    pub fn len(&self) -> usize {
        self.short.len().saturating_add(self.rest.len())
    }
}

/// Adds the entries of a column, each to the form of its row.
fn add_column(forms: &mut [RowForm], column: usize, entries: &Entries<'_>) -> Result<(), AllocError>
    ensures { OnOk result (forms_held forms.new
        ≡ with_entries column entries.now (forms_held forms.old)) }
{
    for i in 0..entries.len() {
        let (row, coefficient) = entries.entry(i);
        if row < forms.len() {
            forms[row].push(column, coefficient)?;
        }
    }
    Ok(())
}

fn empty_forms(alloc: Global, count: usize) -> Result<Vec<RowForm>, AllocError>
    ensures { IfOk result (λ forms. forms_held forms.items ≡ replicate count []) }
{
    let mut forms = Vec::with_capacity(alloc, count)?;
    for _ in 0..count {
        forms.push(RowForm::new(alloc))?;
    }
    Ok(forms)
}

/// Adds the entries of all columns.
fn add_columns(forms: &mut [RowForm], program: &Selection<'_>) -> Result<(), AllocError>
    ensures { OnOk result (forms_held forms.new
        ≡ with_columns 0 program.now.columns (forms_held forms.old)) }
{
    for column in 0..program.column_count() {
        add_column(forms, column, &program.entries(column))?;
    }
    Ok(())
}

/// The rows of a program as forms, with what the costs alone come to.
pub fn row_forms(alloc: Global, program: &Selection<'_>) -> Result<RowForms, AllocError>
    ensures { IfOk result (λ rows. AreRowsOf program.now rows) }
{
    let mut forms = empty_forms(alloc, program.row_count())?;
    add_columns(forms.as_mut_slice(), program)?;
    Ok(RowForms {
        forms,
        alone: least_alone(program),
    })
}
