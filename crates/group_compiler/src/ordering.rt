//! Results in the order of their numbers.

ghost use Rattle.std.specs.Prelude.{◌≡◌, ◌<◌, ℕ, All, Contains, IfOk, length, map};
ghost use Rattle.std.specs.List.{AllZip, range_with_len};
ghost use Rattle.group_compiler.specs.inside.Ordering.{HasMade};

use crate::maker::Maker;
use crate::work::Numbered;
use std::alloc::{AllocError, Global};

fn empty_slots<T: Drop>(alloc: Global, count: usize) -> Result<Vec<Option<T>>, AllocError>
    ensures { IfOk result (λ slots. length slots.items ≡ count) }
{
    let mut slots = Vec::with_capacity(alloc, count)?;
    for _slot in 0..count {
        slots.push_reserved(None);
    }
    Ok(slots)
}

// Each result in the slot of its number.
fn in_slots<M: Maker>(
    alloc: Global,
    maker: &M,
    mut results: Vec<Numbered<M::Made>>,
) -> Result<Vec<Option<M::Made>>, AllocError>
    requires below { All (λ r. r.number < M.count_of maker.now) results.items }
    requires complete { (k : ℕ) → k < M.count_of maker.now
        → Contains (map (λ r. r.number) results.items) k }
    requires made { All (λ r. M.makes maker.now r.number r.made) results.items }
    ensures count { IfOk result (λ slots. length slots.items ≡ M.count_of maker.now) }
    ensures full { IfOk result (λ slots. (k : ℕ) → k < M.count_of maker.now
        → HasMade (M.makes maker.now) slots.items k) }
{
    let mut slots = empty_slots(alloc, maker.count())?;
    while let Some(numbered) = results.pop() {
        slots[numbered.number as usize] = Some(numbered.made);
    }
    Ok(slots)
}

// What is made of each number, in order, if something is made of each.
pub(crate) fn in_order<M: Maker>(
    alloc: Global,
    maker: &M,
    results: Vec<Numbered<M::Made>>,
) -> Result<Vec<M::Made>, AllocError>
    requires below { All (λ r. r.number < M.count_of maker.now) results.items }
    requires complete { (k : ℕ) → k < M.count_of maker.now
        → Contains (map (λ r. r.number) results.items) k }
    requires made { All (λ r. M.makes maker.now r.number r.made) results.items }
    ensures { IfOk result (λ ordered. AllZip (M.makes maker.now)
        (range_with_len 0 (M.count_of maker.now)) ordered.items) }
{
    let mut slots = in_slots(alloc, maker, results)?;
    let count = maker.count();
    let mut ordered = Vec::with_capacity(alloc, count)?;
    for place in 0..count {
        let Some(made) = slots[place].take() else {
            unreachable!()
        };
        ordered.push_reserved(made);
    }
    Ok(ordered)
}
