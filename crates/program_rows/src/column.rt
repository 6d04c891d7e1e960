//! The columns of a program.

/// The values that a column may take.
#[derive(Clone, Copy, Debug, PartialEq, Eq)]
pub enum Bounds {
    ZeroOrOne,
    Zero,
    One,
}

/// A column of a program, lent by the list that holds it.
#[derive(Clone, Copy)]
pub struct Column<'c> {
    /// Printable ASCII without white space.
    pub name: &'c [u8],
    pub bounds: Bounds,
    pub cost: i64,
    /// Places of rows, rising, and the coefficients there, none of them 0.
    pub entries: &'c [(usize, i64)],
}
