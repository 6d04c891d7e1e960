//! Why a tie is refused.

use crate::name::Name;
use program_rows::SolutionFault;

/// Why a further solution is no tie of the solution of group 1.
#[derive(Drop)]
pub enum TieFault {
    /// Its text has a fault.
    Solution(SolutionFault),
    /// It breaks the bounds of the column of that name.
    BoundBroken { column: Name },
    /// It doesn't meet the row of that name.
    RowBroken { row: Name },
    /// Its total is below that of group 1.
    LowerTotal,
    /// Its winners are those of group 1.
    SameAsFirst,
    /// Its winners are those of the tie of that number, which comes before it.
    SameAsTie { tie: usize },
}
