// The columns at 1, by their places, if they are few.
ghost use Rattle.std.specs.Prelude.{◌≡◌, ◌≤◌, ◌<◌, length, IfSome};
ghost use Rattle.std.specs.List.{AllByRecursion};
ghost use Rattle.program_rows.specs.Points.{coefficient_at};
ghost use Rattle.program_rows.specs.inside.Ones.{ones_from, sum_at};

use crate::columns::Columns;
use crate::row_sums::add_coefficient;
use arrayvec::ArrayVec;

/// How many places are listed at most. A point of an auction's program has one for each bidder that wins, and one for the worth
/// of all lots.
pub(crate) const MOST_ONES: usize = 512;

/// Places of columns, rising.
pub(crate) type Ones = ArrayVec<usize, MOST_ONES>;

/// The places of the columns at 1, if they are few.
pub(crate) fn ones_of(values: &[bool]) -> Option<Ones>
    ensures { IfSome result (λ ones. ones.items ≡ ones_from 0 values.now) }
{
    let mut ones = ArrayVec::from_array_in((), [0usize; MOST_ONES]);
    ones.clear();
    for (place, &value) in values.iter().enumerate() {
        if value && ones.try_push(place).is_err() {
            return None;
        }
    }
    Some(ones)
}

/// The sum of a row over the columns at these places.
pub(crate) fn sum_at(columns: &Columns, places: &[usize], row: usize) -> i128
    requires few { length places.now ≤ MOST_ONES }
    requires within { AllByRecursion (λ i. i < length columns.now) places.now }
    ensures { result ≡ sum_at (coefficient_at row) columns.now places.now }
{
    let mut sum: i128 = 0;
    for &place in places {
        sum = add_coefficient(sum, true, columns, place, row);
    }
    sum
}
