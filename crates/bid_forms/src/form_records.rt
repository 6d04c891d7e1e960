//! The records of a form: its header, and each bid after those before it.

ghost use Rattle.std.specs.Prelude.{◌≡◌, ◌≢◌, ◌≤◌, ◌+◌, ◌++◌, [], ◌∷◌, None, Some, All as AllAre, IfOk, MatchOption, OnOk, ⊤};
ghost use Rattle.std.specs.Prelude.{codes, drop, false, length, option_map, true};
ghost use Rattle.std.specs.Bool.{MatchBool};
ghost use Rattle.csv.specs.Records.{fields_of};
ghost use Rattle.auction_terms.specs.AllFaults.{accepted_with, or_else};
ghost use Rattle.auction_terms.specs.Causes.{limits_cause};
ghost use Rattle.auction_terms.specs.FirstFault.{first_failed};
ghost use Rattle.auction_terms.specs.Judged.{HoldsMore, fault_at, fault_of, kept_fault};
ghost use Rattle.auction_terms.specs.Packages.{IsPackage};
ghost use Rattle.auction_terms.specs.RulesText.{field_number};
ghost use Rattle.auction_terms.specs.Terms.{IsCategory};
ghost use Rattle.auction_terms.specs.declared.limits.TheConstants.{MOST_CATEGORIES};
ghost use Rattle.auction_terms.specs.declared.bids.Bid.{Bid};
ghost use Rattle.bid_forms.specs.FormText.{amount_checks, bid_faults, field_faults};
ghost use Rattle.bid_forms.specs.FormText.{form_header_checks, is_number_text, is_small_text, package_checks, package_faults, parsed_bid};
ghost use Rattle.bid_forms.specs.FormText.{quantity_faults, repeat_checks};
ghost use Rattle.bid_forms.specs.declared.form_text.FormFault.TheVariants as fault;
ghost use Rattle.bid_forms.specs.inside.Fingerprints.{AreSeen};
ghost use Rattle.bid_forms.specs.inside.FormText.{IsAmountOf, reserve_faults};

use crate::form_text::FormFault;
use crate::seen::{Seen, earlier};
use crate::sums::{is_empty_package, points_of, reserve_of};
use arrayvec::ArrayVec;
use auction_terms::{
    All, Bid, Category, Cause, FaultAt, Front, GREATEST_AMOUNT, GREATEST_QUANTITY, MOST_BIDS,
    Package, Quantities, Rules, Wording, count_cause, field, limits_cause, most_cause, number,
};
use csv::ByteRecord;
use std::alloc::AllocError;

/// A record that describes a bid, and what it is judged by.
#[derive(Drop)]
pub(crate) struct Entry<'r> {
    pub rules: &'r Rules,
    /// The eligibility of the bidder.
    pub eligibility: u64,
    /// The number of the record, from 1.
    pub place: u32,
    pub row: &'r ByteRecord,
}

/// The fault of a header whose columns aren't the categories.
pub(crate) fn header_fault(
    categories: &[Category],
    header: &ByteRecord,
) -> Option<FaultAt<FormFault>>
    ensures { option_map kept_fault result
        ≡ first_failed (form_header_checks categories.now (fields_of header.now)) }
{
    let fault = FormFault::Header { place: 1 };
    if header.len() != categories.len() + 1 {
        let cause = count_cause(header.len(), categories.len() + 1);
        return Some(FaultAt::of_whole(fault, Some(cause)));
    }
    for (place, category) in categories.iter().enumerate() {
        let text = field(header, place + 2);
        if text != category.name.as_bytes() {
            let cause = Cause::Wanted("in place of ", Front::of_name(&category.name));
            return Some(FaultAt::by_cause(place + 2, text, fault, cause));
        }
    }
    None
}

// Adds the fault of the amount of a record, or returns the amount.
fn take_amount(
    faults: &mut All<FormFault>,
    step: u64,
    place: u32,
    row: &ByteRecord,
) -> Result<Option<u64>, AllocError>
    requires { 1 ≤ step }
    ensures told { OnOk result (HoldsMore faults.old faults.new
        (fault_of (amount_checks step place (fields_of row.now)))) }
    ensures amount { IfOk result (IsAmountOf step place (fields_of row.now)) }
{
    let text = field(row, 1);
    let Some(amount) = number(text) else {
        let cause = Wording::Words("isn't 1 to 18 digits");
        faults.add(FaultAt::new(1, text, FormFault::AmountText { place }, cause))?;
        return Ok(None);
    };
    if amount < 1 || amount > GREATEST_AMOUNT {
        let cause = limits_cause(1, GREATEST_AMOUNT);
        faults.add(FaultAt::new(1, text, FormFault::AmountRange { place }, cause))?;
        return Ok(None);
    }
    if amount % step != 0 {
        let cause = Wording::Number("isn't a multiple of ", step);
        faults.add(FaultAt::new(1, text, FormFault::AmountStep { place }, cause))?;
        return Ok(None);
    }
    Ok(Some(amount))
}

// The quantities of a record, where each field after the first is one.
fn read_quantities(place: u32, row: &ByteRecord) -> Option<Quantities>
    requires { length (fields_of row.now) ≤ MOST_CATEGORIES + 1 }
    ensures none { MatchOption result (quantity_faults place (fields_of row.now) ≢ [])
        (λ quantities. quantity_faults place (fields_of row.now) ≡ []) }
    ensures quantities { MatchOption result ⊤ (λ quantities. quantities.items
        ≡ (parsed_bid (fields_of row.now)).package) }
    ensures each { MatchOption result ⊤ (λ quantities. AllAre (λ quantity. quantity
        ≤ GREATEST_QUANTITY) quantities.items) }
{
    let mut quantities = ArrayVec::new();
    for n in 1..row.len() {
        let Some(value) = number(field(row, n + 1)) else {
            return None;
        };
        if value > GREATEST_QUANTITY {
            return None;
        }
        quantities.push(value as u16);
    }
    Some(quantities)
}

// The fault of the quantity in a field where that is no number.
fn text_fault(place: u32, n: usize, text: &[u8]) -> Option<FaultAt<FormFault>>
    ensures { option_map kept_fault result ≡ first_failed ((
      is_number_text text.now,
      fault_at n text.now (fault.QuantityText place) (codes "isn't 1 to 18 digits"),
    ) ∷ []) }
{
    if number(text).is_some() {
        return None;
    }
    let cause = Wording::Words("isn't 1 to 18 digits");
    Some(FaultAt::new(n, text, FormFault::QuantityText { place }, cause))
}

// The fault of the quantity in a field where that is a number above the greatest one.
fn range_fault(place: u32, n: usize, text: &[u8]) -> Option<FaultAt<FormFault>>
    ensures { option_map kept_fault result ≡ first_failed ((
      is_small_text text.now,
      fault_at n text.now (fault.QuantityRange place) (limits_cause 0 GREATEST_QUANTITY),
    ) ∷ []) }
{
    if number(text).unwrap_or(0) <= GREATEST_QUANTITY {
        return None;
    }
    let cause = limits_cause(0, GREATEST_QUANTITY);
    Some(FaultAt::new(n, text, FormFault::QuantityRange { place }, cause))
}

// Adds the faults of quantities that are no numbers.
fn add_texts(faults: &mut All<FormFault>, place: u32, row: &ByteRecord) -> Result<(), AllocError>
    ensures { OnOk result (HoldsMore faults.old faults.new (field_faults is_number_text
        (fault.QuantityText place) (codes "isn't 1 to 18 digits") 2
        (drop 1 (fields_of row.now)))) }
{
    for n in 1..row.len() {
        faults.add_any(text_fault(place, n + 1, field(row, n + 1)))?;
    }
    Ok(())
}

// Adds the faults of quantities that are numbers above the greatest one.
fn add_ranges(faults: &mut All<FormFault>, place: u32, row: &ByteRecord) -> Result<(), AllocError>
    ensures { OnOk result (HoldsMore faults.old faults.new (field_faults is_small_text
        (fault.QuantityRange place) (limits_cause 0 GREATEST_QUANTITY) 2
        (drop 1 (fields_of row.now)))) }
{
    for n in 1..row.len() {
        faults.add_any(range_fault(place, n + 1, field(row, n + 1)))?;
    }
    Ok(())
}

// Adds the fault of a package that the rules don't allow a bidder with this eligibility, and returns whether there is none.
fn check_allowed(
    faults: &mut All<FormFault>,
    categories: &[Category],
    eligibility: u64,
    place: u32,
    quantities: &[u16],
) -> Result<bool, AllocError>
    requires few { length categories.now ≤ MOST_CATEGORIES }
    requires sized { length quantities.now ≡ length categories.now }
    requires each { AllAre IsCategory categories.now }
    requires quantities { AllAre (λ quantity. quantity ≤ GREATEST_QUANTITY) quantities.now }
    ensures told { OnOk result (HoldsMore faults.old faults.new
        (fault_of (package_checks categories.now eligibility place quantities.now))) }
    ensures none { IfOk result (λ none. MatchBool none
        (fault_of (package_checks categories.now eligibility place quantities.now) ≡ [])
        (fault_of (package_checks categories.now eligibility place quantities.now) ≢ [])) }
{
    if is_empty_package(quantities) {
        let cause = Wording::Words("each quantity is 0");
        faults.add(FaultAt::of_whole(FormFault::EmptyPackage { place }, Some(cause)))?;
        return Ok(false);
    }
    let points = points_of(categories, quantities);
    if points <= eligibility {
        return Ok(true);
    }
    let cause = Wording::Numbers(
        "",
        points,
        " points, above the eligibility of ",
        eligibility,
    );
    faults.add(FaultAt::of_whole(FormFault::OverEligibility { place }, Some(cause)))?;
    Ok(false)
}

// Adds the fault of the amount of a record, where it is known and below the reserve of the package, and returns whether there is none.
fn check_reserve(
    faults: &mut All<FormFault>,
    entry: &Entry<'_>,
    quantities: &[u16],
    amount: Option<u64>,
) -> Result<bool, AllocError>
    requires sized { length quantities.now ≡ length entry.now.rules.now.categories }
    requires quantities { AllAre (λ quantity. quantity ≤ GREATEST_QUANTITY) quantities.now }
    requires amount { IsAmountOf entry.now.rules.now.step entry.now.place
        (fields_of entry.now.row.now) amount }
    ensures told { OnOk result (HoldsMore faults.old faults.new (reserve_faults
        entry.now.rules.now entry.now.place quantities.now (fields_of entry.now.row.now))) }
    ensures none { IfOk result (λ none. MatchBool none
        (reserve_faults entry.now.rules.now entry.now.place quantities.now
        (fields_of entry.now.row.now) ≡ [])
        (reserve_faults entry.now.rules.now entry.now.place quantities.now
        (fields_of entry.now.row.now) ≢ [])) }
{
    let Some(amount) = amount else {
        return Ok(true);
    };
    let reserve = reserve_of(entry.rules.categories(), quantities);
    if reserve <= amount {
        return Ok(true);
    }
    let fault = FormFault::BelowReserve { place: entry.place };
    let cause = Wording::Number("is below the reserve of ", reserve);
    faults.add(FaultAt::new(1, field(entry.row, 1), fault, cause))?;
    Ok(false)
}

// Adds the fault of a package that an earlier bid has, and returns whether there is none. The package is among those seen from now on.
fn check_new(
    faults: &mut All<FormFault>,
    seen: &mut Seen,
    place: u32,
    before: &[Bid],
    quantities: &[u16],
) -> Result<bool, AllocError>
    requires seen { AreSeen seen.old.multiplier seen.old.prints.keys before.now }
    requires few { length before.now ≤ MOST_BIDS }
    ensures told { OnOk result (HoldsMore faults.old faults.new
        (fault_of (repeat_checks place before.now quantities.now))) }
    ensures none { IfOk result (λ none. MatchBool none
        (fault_of (repeat_checks place before.now quantities.now) ≡ [])
        (fault_of (repeat_checks place before.now quantities.now) ≢ [])) }
    ensures seen { OnOk result ((bid : Bid) → bid.package ≡ quantities.now
        → AreSeen seen.new.multiplier seen.new.prints.keys (before.now ++ bid ∷ [])) }
{
    let Some(earlier) = earlier(seen, before, quantities)? else {
        return Ok(true);
    };
    let fault = FormFault::RepeatedPackage { place, earlier };
    faults.add(FaultAt::of_whole(fault, None))?;
    Ok(false)
}

// Adds the faults of the package of a record, by the bids before it, and returns whether there is none. The package is among those seen
// from now on.
fn check_package(
    faults: &mut All<FormFault>,
    entry: &Entry<'_>,
    seen: &mut Seen,
    before: &[Bid],
    quantities: &[u16],
    amount: Option<u64>,
) -> Result<bool, AllocError>
    requires seen { AreSeen seen.old.multiplier seen.old.prints.keys before.now }
    requires few { length before.now ≤ MOST_BIDS }
    requires sized { length quantities.now ≡ length entry.now.rules.now.categories }
    requires each { AllAre (λ quantity. quantity ≤ GREATEST_QUANTITY) quantities.now }
    requires quantities { quantities.now ≡ (parsed_bid (fields_of entry.now.row.now)).package }
    requires amount { IsAmountOf entry.now.rules.now.step entry.now.place
        (fields_of entry.now.row.now) amount }
    ensures told { OnOk result (HoldsMore faults.old faults.new
        (package_faults entry.now.rules.now entry.now.eligibility entry.now.place before.now
        (fields_of entry.now.row.now))) }
    ensures none { IfOk result (λ none. MatchBool none
        (package_faults entry.now.rules.now entry.now.eligibility entry.now.place before.now
        (fields_of entry.now.row.now) ≡ [])
        (package_faults entry.now.rules.now entry.now.eligibility entry.now.place before.now
        (fields_of entry.now.row.now) ≢ [])) }
    ensures seen { OnOk result ((bid : Bid) → bid.package ≡ quantities.now
        → AreSeen seen.new.multiplier seen.new.prints.keys (before.now ++ bid ∷ [])) }
{
    let categories = entry.rules.categories();
    let place = entry.place;
    let is_allowed = check_allowed(faults, categories, entry.eligibility, place, quantities)?;
    let is_enough = check_reserve(faults, entry, quantities, amount)?;
    let is_new = check_new(faults, seen, place, before, quantities)?;
    Ok(is_allowed & is_enough & is_new)
}

// Adds the faults of the quantities of a record, or of their package, or returns the quantities.
fn take_quantities(
    faults: &mut All<FormFault>,
    entry: &Entry<'_>,
    seen: &mut Seen,
    before: &[Bid],
    amount: Option<u64>,
) -> Result<Option<Quantities>, AllocError>
    requires seen { AreSeen seen.old.multiplier seen.old.prints.keys before.now }
    requires few { length before.now ≤ MOST_BIDS }
    requires sized { length (fields_of entry.now.row.now)
        ≡ length entry.now.rules.now.categories + 1 }
    requires amount { IsAmountOf entry.now.rules.now.step entry.now.place
        (fields_of entry.now.row.now) amount }
    ensures told { OnOk result (HoldsMore faults.old faults.new
        (or_else (quantity_faults entry.now.place (fields_of entry.now.row.now))
        (package_faults entry.now.rules.now entry.now.eligibility entry.now.place before.now
        (fields_of entry.now.row.now)))) }
    ensures none { IfOk result (λ quantities. MatchOption quantities
        (or_else (quantity_faults entry.now.place (fields_of entry.now.row.now))
        (package_faults entry.now.rules.now entry.now.eligibility entry.now.place before.now
        (fields_of entry.now.row.now)) ≢ [])
        (λ _. or_else (quantity_faults entry.now.place (fields_of entry.now.row.now))
        (package_faults entry.now.rules.now entry.now.eligibility entry.now.place before.now
        (fields_of entry.now.row.now)) ≡ [])) }
    ensures quantities { IfOk result (λ quantities. MatchOption quantities ⊤
        (λ quantities. (quantities.items ≡ (parsed_bid (fields_of entry.now.row.now)).package)
        × IsPackage quantities.items)) }
    ensures kept { OnOk result (AreSeen seen.new.multiplier seen.new.prints.keys before.now) }
    ensures seen { IfOk result (λ quantities. MatchOption quantities ⊤ (λ quantities. (bid : Bid)
        → bid.package ≡ quantities.items
        → AreSeen seen.new.multiplier seen.new.prints.keys (before.now ++ bid ∷ []))) }
{
    entry.rules.within_limits();
    match read_quantities(entry.place, entry.row) {
        None => {
            add_texts(faults, entry.place, entry.row)?;
            add_ranges(faults, entry.place, entry.row)?;
            Ok(None)
        }
        Some(quantities) => {
            let lots = quantities.as_slice();
            if !check_package(faults, entry, seen, before, lots, amount)? {
                return Ok(None);
            }
            Ok(Some(quantities))
        }
    }
}

/// Adds the faults of a record, or the bid that it describes to those before it.
pub(crate) fn take_bid(
    faults: &mut All<FormFault>,
    entry: &Entry<'_>,
    seen: &mut Seen,
    bids: &mut Vec<Bid>,
) -> Result<(), AllocError>
    requires seen { AreSeen seen.old.multiplier seen.old.prints.keys bids.old.items }
    requires few { length bids.old.items ≤ MOST_BIDS }
    ensures told { OnOk result (HoldsMore faults.old faults.new (bid_faults entry.now.rules.now
        entry.now.eligibility entry.now.place bids.old.items (fields_of entry.now.row.now))) }
    ensures bids { OnOk result (bids.new.items ≡ accepted_with (bid_faults entry.now.rules.now
        entry.now.eligibility entry.now.place bids.old.items (fields_of entry.now.row.now))
        bids.old.items (parsed_bid (fields_of entry.now.row.now))) }
    ensures seen { OnOk result (AreSeen seen.new.multiplier seen.new.prints.keys
        bids.new.items) }
{
    let place = entry.place;
    let wanted = entry.rules.categories().len() + 1;
    if entry.row.len() != wanted {
        let cause = count_cause(entry.row.len(), wanted);
        faults.add(FaultAt::of_whole(FormFault::FieldCount { place }, Some(cause)))?;
        return Ok(());
    }
    entry.rules.within_limits();
    let amount = take_amount(faults, entry.rules.step(), place, entry.row)?;
    let before = bids.as_slice();
    let quantities = take_quantities(faults, entry, seen, before, amount)?;
    if before.len() >= MOST_BIDS {
        let cause = most_cause(MOST_BIDS, " bids");
        faults.add(FaultAt::of_whole(FormFault::TooManyBids { place }, Some(cause)))?;
        return Ok(());
    }
    let Some(amount) = amount else {
        return Ok(());
    };
    let Some(quantities) = quantities else {
        return Ok(());
    };
    let package = Package::of(quantities);
    bids.push(Bid { package, amount })?;
    Ok(())
}
