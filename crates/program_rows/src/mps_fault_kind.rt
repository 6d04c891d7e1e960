/// What can be wrong with an MPS text that is read, in the order in which faults are numbered from 1.
#[derive(Clone, Copy, Debug, PartialEq, Eq)]
pub enum MpsFaultKind {
    /// The text is above its limit.
    TooLarge,
    /// A byte outside comments is neither a tab nor printable ASCII.
    NotText,
    /// A section is unknown, comes twice or out of order; or there are data before the first section or under `NAME`.
    Section,
    /// The section is `RANGES`, `SOS`, `SOS1`, `SOS2`, `QUADOBJ`, `QMATRIX`, `QSECTION`, `QCMATRIX` or `INDICATORS`, in
    /// any place.
    SectionLeftOut,
    /// The number of fields is wrong, or the sense is unknown.
    Fields,
    /// The type is neither `N`, `L`, `G` nor `E`.
    RowType,
    /// An earlier line declares the row.
    RowRepeated,
    /// There is no `N` row. The line is that of the section after `ROWS`.
    NoObjective,
    /// `ROWS` doesn't declare the row.
    UnknownRow,
    /// A marker or another column comes between the lines of the column.
    ColumnSplit,
    /// The column has an entry in this row already, or the row has a right side already. This is so even if both are in
    /// the same line, or are 0.
    EntryRepeated,
    /// The field isn't a number.
    NumberText,
    /// The number isn't whole.
    NotWhole,
    /// The number has too many digits or an exponent beyond its limits, or it is above 10^18 or below -10^18.
    NumberRange,
    /// A marker isn't `NAME 'MARKER' 'INTORG'`, or after such a one `NAME 'MARKER' 'INTEND'`.
    Marker,
    /// The bound is of a column that isn't under `COLUMNS`.
    UnknownColumn,
    /// The type is neither `UP`, `LO`, `FX` nor `BV`.
    BoundType,
    /// The bound is neither 0 nor 1.
    BoundValue,
    /// The objective's right side isn't 0.
    ObjectiveConstant,
    /// The sense is `MAX` or `MAXIMIZE`.
    SenseMax,
    /// There is no `ENDATA`. The line is the last one.
    NoEnd,
    /// A column isn't integer, has no upper bound, or has a lower bound above its upper one. The first such column is
    /// named, by its number from 0. The line is that of `ENDATA`.
    NotBinary { column: usize },
    /// Memory was refused.
    OutOfMemory,
}
