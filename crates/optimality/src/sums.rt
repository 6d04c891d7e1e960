//! Sums by place in 128 bits, and multiples of forms that are added to them.

ghost use Rattle.std.specs.Prelude.{◌≡◌, ◌<◌, ◌≤◌, ◌+◌, ◌^◌, ◌-ℤ◌, ◌≤ℤ◌, IfSome, OnOk, neg_ℤ, pos, unsigned_abs, vec_len, ℕ};
ghost use Rattle.std.specs.Prelude.{false, slice_set, true, ◌*ℤ◌, ◌*◌, IfOk};
ghost use Rattle.optimality.specs.Adding.{AreGivenMore, AreNone, IsTaken, at_place};
ghost use Rattle.optimality.specs.inside.Adding.{AreListed, AreAsBefore};
ghost use Rattle.optimality.specs.Adding.{number_at};
ghost use Rattle.optimality.specs.inside.Adding.{has_place, form_given, AreAlike, AreOf, AreNoLarger, size_in};
ghost use Rattle.optimality.specs.Stopping.{TooLargeOnly};
ghost use Rattle.optimality.specs.inside.Stopping.{ReachesLimit};
ghost use Rattle.optimality.specs.inside.Sizes.{form_size};
ghost use Rattle.optimality.specs.Certificates.{number_in};
ghost use Rattle.optimality.specs.Adding as adding;

use crate::arithmetic::{plus, plus_product, product, wide_product};
use crate::refusal::Limit;
use std::alloc::{AllocError, Global};

/// A number for each place, 0 at first. What is taken is 0 again, so that one room serves all lines: clearing it costs nothing
/// where all was taken.
#[derive(Drop)]
pub struct Sums {
    pub numbers: Vec<i128>,
    /// Where a number may differ from 0.
    pub places: Vec<usize>,
    ghost listed: { AreListed places.items numbers.items },
}

impl Sums {
    pub fn new(alloc: Global) -> Sums {
        Sums {
            numbers: Vec::new(alloc),
            places: Vec::new(alloc),
        }
    }

    /// Sets the sum of a place, which had another one before.
    fn put(&mut self, place: usize, before: i128, sum: i128) -> Result<(), Limit>
        requires { before ≡ adding.number_at self.old.numbers.items place }
        ensures value { OnOk result (AreGivenMore (at_place place (sum -ℤ before))
            self.old.numbers.items self.new.numbers.items) }
        ensures too_large { TooLargeOnly ⊥ result }
    {
        reach(&mut self.numbers, place)?;
        list_new(&mut self.places, place, before)?;
        set_number(&mut self.numbers, place, sum);
        Ok(())
    }

    /// Adds a number at a place.
    pub fn add(&mut self, place: usize, number: i128) -> Result<(), Limit>
        ensures value { OnOk result (AreGivenMore (at_place place number) self.old.numbers.items
            self.new.numbers.items) }
        ensures too_large { TooLargeOnly (2 ^ 127 ≤ unsigned_abs
            (adding.number_at self.old.numbers.items place) + unsigned_abs number) result }
    {
        let before = number_at(self.numbers.as_slice(), place);
        let sum = plus(before, number)?;
        self.put(place, before, sum)
    }

    /// Adds a product of numbers of 64 bits.
    pub fn add_product(&mut self, place: usize, product: i128) -> Result<(), Limit>
        requires low { neg_ℤ (pos (2 ^ 126)) ≤ℤ product }
        requires high { product ≤ℤ pos (2 ^ 126) }
        ensures value { OnOk result (AreGivenMore (at_place place product) self.old.numbers.items
            self.new.numbers.items) }
        ensures too_large { TooLargeOnly (2 ^ 126 ≤ unsigned_abs
            (adding.number_at self.old.numbers.items place)) result }
    {
        let before = number_at(self.numbers.as_slice(), place);
        let sum = plus_product(before, product)?;
        self.put(place, before, sum)
    }

    /// Takes a place that is listed, and its number.
    pub fn take(&mut self) -> Option<(usize, i128)>
        ensures taken { IsTaken result self.old.numbers.items self.new.numbers.items }
        ensures fewer { IfSome result (λ _. vec_len self.new.places < vec_len self.old.places) }
    {
        let Some(place) = self.places.pop() else {
            return None;
        };
        let number = number_at(self.numbers.as_slice(), place);
        set_number(&mut self.numbers, place, 0);
        Some((place, number))
    }

    /// Takes all that a line before left.
    pub fn clear(&mut self)
        ensures { AreNone self.new.numbers.items }
    {
        while let Some(_) = self.take() {}
    }
}

/// The number at a place, which is 0 after the last one.
pub fn number_at(numbers: &[i128], place: usize) -> i128
    ensures { result ≡ adding.number_at numbers.now place }
{
    if place < numbers.len() {
        numbers[place]
    } else {
        0
    }
}

/// Sets the number of a place that the list reaches; that of another one is 0.
fn set_number(numbers: &mut Vec<i128>, place: usize, number: i128)
    ensures { numbers.new.items ≡ slice_set numbers.old.items place number }
{
    if place < numbers.len() {
        numbers[place] = number;
    }
}

/// Has the list go on with 0 until it reaches the place.
fn reach(numbers: &mut Vec<i128>, place: usize) -> Result<(), AllocError>
    ensures same { AreAsBefore numbers.old.items numbers.new.items }
    ensures reached { OnOk result (place < vec_len numbers.new) }
{
    while numbers.len() <= place {
        numbers.push(0)?;
    }
    Ok(())
}

/// Lists a place if its number was 0, since another one is listed.
fn list_new(places: &mut Vec<usize>, place: usize, before: i128) -> Result<(), AllocError>
    ensures kept { (q : ℕ) → has_place places.new.items q ≡ false → has_place places.old.items q
        ≡ false }
    ensures listed { OnOk result (before ≡ pos 0 → has_place places.new.items place ≡ true) }
{
    if before == 0 {
        places.push(place)?;
    }
    Ok(())
}

/// Places, each with a sum, which may be wider than the numbers of a line.
pub type WideForm = Vec<(usize, i128)>;

fn add_multiple(sums: &mut Sums, factor: i128, place: usize, number: i128) -> Result<(), Limit>
    ensures value { OnOk result (AreGivenMore (at_place place (factor *ℤ number))
        sums.old.numbers.items sums.new.numbers.items) }
    ensures too_large { TooLargeOnly (2 ^ 126 ≤ unsigned_abs
        (number_at sums.old.numbers.items place) + unsigned_abs factor * unsigned_abs number)
        result }
{
    let multiple = wide_product(factor, number)?;
    sums.add(place, multiple)
}

fn add_product(sums: &mut Sums, factor: i64, place: usize, number: i64) -> Result<(), Limit>
    ensures value { OnOk result (AreGivenMore (at_place place (factor *ℤ number))
        sums.old.numbers.items sums.new.numbers.items) }
    ensures too_large { TooLargeOnly (2 ^ 126 ≤ unsigned_abs
        (number_at sums.old.numbers.items place) + unsigned_abs factor * unsigned_abs number)
        result }
{
    sums.add_product(place, product(factor, number))
}

/// Adds a multiple of a form, each product in one instruction and without a check.
fn add_narrow(sums: &mut Sums, factor: i64, form: &[(usize, i64)]) -> Result<(), Limit>
    ensures value { OnOk result (AreGivenMore (form_given factor form.now) sums.old.numbers.items
        sums.new.numbers.items) }
    ensures too_large { TooLargeOnly (ReachesLimit sums.old.numbers.items (unsigned_abs factor
        * form_size form.now)) result }
{
    for &(place, number) in form {
        add_product(sums, factor, place, number)?;
    }
    Ok(())
}

/// The same with a factor beyond 64 bits.
fn add_widened(sums: &mut Sums, factor: i128, form: &[(usize, i64)]) -> Result<(), Limit>
    ensures value { OnOk result (AreGivenMore (form_given factor form.now) sums.old.numbers.items
        sums.new.numbers.items) }
    ensures too_large { TooLargeOnly (ReachesLimit sums.old.numbers.items (unsigned_abs factor
        * form_size form.now)) result }
{
    for &(place, number) in form {
        add_multiple(sums, factor, place, i128::from(number))?;
    }
    Ok(())
}

/// Adds a multiple of a form.
pub fn add_form(sums: &mut Sums, factor: i128, form: &[(usize, i64)]) -> Result<(), Limit>
    ensures value { OnOk result (AreGivenMore (form_given factor form.now) sums.old.numbers.items
        sums.new.numbers.items) }
    ensures too_large { TooLargeOnly (ReachesLimit sums.old.numbers.items (unsigned_abs factor
        * form_size form.now)) result }
{
    match i64::try_from(factor) {
        Ok(narrow) => add_narrow(sums, narrow, form),
        Err(_) => add_widened(sums, factor, form),
    }
}

/// The same of a form of short numbers.
pub fn add_short_form(sums: &mut Sums, factor: i128, form: &[(u32, i16)]) -> Result<(), Limit>
    ensures value { OnOk result (AreGivenMore (form_given factor form.now) sums.old.numbers.items
        sums.new.numbers.items) }
    ensures too_large { TooLargeOnly (ReachesLimit sums.old.numbers.items (unsigned_abs factor
        * form_size form.now)) result }
{
    for &(place, number) in form {
        add_multiple(sums, factor, place as usize, i128::from(number))?;
    }
    Ok(())
}

/// The same of a form of sums.
pub fn add_wide_form(sums: &mut Sums, factor: i128, form: &[(usize, i128)]) -> Result<(), Limit>
    ensures value { OnOk result (AreGivenMore (form_given factor form.now) sums.old.numbers.items
        sums.new.numbers.items) }
    ensures too_large { TooLargeOnly (ReachesLimit sums.old.numbers.items (unsigned_abs factor
        * form_size form.now)) result }
{
    for &(place, number) in form {
        add_multiple(sums, factor, place, number)?;
    }
    Ok(())
}

fn add_terms(sums: &mut Sums, terms: &[(usize, i64)]) -> Result<(), Limit>
    requires { AreNone sums.old.numbers.items }
    ensures value { OnOk result (AreGivenMore (number_in terms.now) sums.old.numbers.items
        sums.new.numbers.items) }
    ensures too_large { TooLargeOnly ⊥ result }
{
    for &(place, number) in terms {
        sums.add(place, i128::from(number))?;
    }
    Ok(())
}

/// Takes all sums but those that are 0.
fn taken(alloc: Global, sums: &mut Sums) -> Result<WideForm, AllocError>
    ensures value { IfOk result (λ form. AreOf form.items sums.old.numbers.items) }
    ensures size { IfOk result (λ form. (q : ℕ) → size_in form.items q ≤ unsigned_abs
        (number_at sums.old.numbers.items q)) }
{
    let mut form = Vec::new(alloc);
    while let Some((place, number)) = sums.take() {
        if number != 0 {
            form.push((place, number))?;
        }
    }
    Ok(form)
}

/// The same places with the sums of their numbers, each place once: a line that names a place again and again costs its length
/// once, and not at each leaf. The sums serve as room. A line has too few terms of 64 bits for a sum to leave 128 bits.
pub fn added_up(alloc: Global, sums: &mut Sums, terms: &[(usize, i64)]) -> Result<WideForm, Limit>
    ensures alike { IfOk result (λ form. AreAlike form.items terms.now) }
    ensures size { IfOk result (λ form. AreNoLarger form.items terms.now) }
    ensures too_large { TooLargeOnly ⊥ result }
{
    sums.clear();
    add_terms(sums, terms)?;
    Ok(taken(alloc, sums)?)
}
