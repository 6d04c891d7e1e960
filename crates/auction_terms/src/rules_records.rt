//! The records of the rules: the fault of each, or what it describes after those before it.

ghost use Rattle.std.specs.Prelude.{◌≡◌, ◌≤◌, ◌<◌, ◌+◌, ◌++◌, ◌∷◌, [], None, Some, Ok, Err, true, false, IfErr, IfOk, MatchOption, OnOk, IsTrue, codes, length, option_map};
ghost use Rattle.std.specs.List.{list_any};
ghost use Rattle.std.specs.Str.{bytes_eq};
ghost use Rattle.csv.specs.Records.{fields_of};
ghost use Rattle.auction_terms.specs.FirstFault.{first_failed};
ghost use Rattle.auction_terms.specs.Judged.{fault_at, fault_of_whole, kept_fault};
ghost use Rattle.auction_terms.specs.Names.{is_name};
ghost use Rattle.auction_terms.specs.Numbers.{number_of};
ghost use Rattle.auction_terms.specs.inside.Entries.{IsMember, IsNamedCap, both, entries};
ghost use Rattle.auction_terms.specs.Entries.{is_member_of};
ghost use Rattle.auction_terms.specs.RulesText.{category_of, count_check, entries_of, entry_checks, has_name, header_checks, is_between, kind_checks, field_number, name_check, no_kind, record_field};
ghost use Rattle.auction_terms.specs.Causes.{limits_cause, most_cause};
ghost use Rattle.auction_terms.specs.inside.RulesText.{bidder_numbers, bidder_of, category_numbers, checks_in_every_version, member_of, pool_of};
ghost use Rattle.auction_terms.specs.declared.record_kinds.RecordKind.TheVariants as kind;
ghost use Rattle.auction_terms.specs.inside.FirstFault.{Passes};
ghost use Rattle.auction_terms.specs.declared.rules_text.RulesFault.TheVariants as fault;

use crate::causes::{count_cause, limits_cause, most_cause};
use crate::draft::{Draft, Member, NamedCap};
use crate::judge::FaultAt;
use crate::limits::{
    GREATEST_AMOUNT, GREATEST_POINTS, GREATEST_QUANTITY, GREATEST_VALUE, GREATEST_WEIGHT,
    MOST_BIDDERS, MOST_CATEGORIES, MOST_POOLS, MOST_SESSIONS,
};
use crate::names::{Name, is_name};
use crate::numbers::number;
use crate::record_kinds::{RecordKind, Version, field, kind_of, value_text};
use crate::rules::{Bidder, Category};
use crate::rules_text::RulesFault;
use crate::wording::Wording;
use csv::ByteRecord;
use std::alloc::{AllocError, Global};

// The fault of a record with another number of fields than its version wants.
fn count_fault(version: Version, place: u32, row: &ByteRecord) -> FaultAt<RulesFault>
    ensures { kept_fault result ≡ (count_check version place (fields_of row.now)).1 }
{
    FaultAt::of_whole(
        RulesFault::FieldCount { place },
        Some(count_cause(row.len(), version.field_count())),
    )
}

// The fault of a field that is to be a name.
fn name_fault(place: u32, row: &ByteRecord, n: usize) -> FaultAt<RulesFault>
    requires { 0 < n }
    ensures { kept_fault result ≡ (name_check place (fields_of row.now) n).1 }
{
    FaultAt::new(
        n,
        field(row, n),
        RulesFault::NameText { place },
        Wording::Words("isn't a letter and then letters or digits, at most 16"),
    )
}

// The number in a field of this text.
fn number_in(place: u32, n: usize, text: &[u8]) -> Result<u64, FaultAt<RulesFault>>
    ensures number { IfOk result (λ value. number_of text.now ≡ Some value) }
    ensures none { IfErr result (λ at. (number_of text.now ≡ None) × (kept_fault at
        ≡ fault_at n text.now (fault.NumberText place) (codes "isn't 1 to 18 digits"))) }
{
    match number(text) {
        Some(value) => Ok(value),
        None => Err(FaultAt::new(
            n,
            text,
            RulesFault::NumberText { place },
            Wording::Words("isn't 1 to 18 digits"),
        )),
    }
}

// Tests that a number, in a field of this text, is within its limits.
fn check_range(
    place: u32,
    n: usize,
    text: &[u8],
    value: u64,
    least: u64,
    greatest: u64,
) -> Result<(), FaultAt<RulesFault>>
    ensures within { OnOk result (is_between least greatest value ≡ true) }
    ensures limits { OnOk result ((least ≤ value) × (value ≤ greatest)) }
    ensures outside { IfErr result (λ at. (is_between least greatest value ≡ false) × (kept_fault at
        ≡ fault_at n text.now (fault.NumberRange place) (limits_cause least greatest))) }
{
    if least <= value && value <= greatest {
        return Ok(());
    }
    Err(FaultAt::new(
        n,
        text,
        RulesFault::NumberRange { place },
        limits_cause(least, greatest),
    ))
}

// The step that a header gives.
pub(crate) fn read_step(version: Version, row: &ByteRecord) -> Result<u64, FaultAt<RulesFault>>
    ensures answer { Passes result (header_checks version (fields_of row.now))
        (field_number 3 (fields_of row.now)) }
    ensures limits { IfOk result (λ step. (1 ≤ step) × (step ≤ GREATEST_AMOUNT)) }
{
    refuse!(
        row.len() != version.field_count(),
        count_fault(version, 1, row)
    );
    let text = field(row, 3);
    let step = number_in(1, 3, text)?;
    check_range(1, 3, text, step, 1, GREATEST_AMOUNT)?;
    Ok(step)
}

fn has_category(categories: &[Category], name: &[u8]) -> bool
    ensures { result ≡ has_name (λ category. category.name) categories.now name.now }
{
    categories
        .iter()
        .any(|category| category.name.as_bytes() == name)
}

fn has_bidder(bidders: &[Bidder], name: &[u8]) -> bool
    ensures { result ≡ has_name (λ bidder. bidder.name) bidders.now name.now }
{
    bidders.iter().any(|bidder| bidder.name.as_bytes() == name)
}

fn has_pool(pools: &[NamedCap], name: &[u8]) -> bool
    ensures { result ≡ has_name (λ pool. pool.name) pools.now name.now }
{
    pools.iter().any(|pool| pool.name.as_bytes() == name)
}

fn has_member(members: &[Member], pool: &[u8], category: &[u8]) -> bool
    ensures { result ≡ list_any (is_member_of pool.now category.now) members.now }
{
    members.iter().any(|member| member.pool.as_bytes() == pool
        && member.category.as_bytes() == category)
}

// The fault of a record with the name of an earlier one of its kind.
fn repeated_fault(place: u32, row: &ByteRecord) -> FaultAt<RulesFault>
    ensures { kept_fault result ≡ fault_at 2 (record_field 2 (fields_of row.now))
        (fault.NameRepeated place) (codes "is the name of an earlier record of its kind") }
{
    FaultAt::new(
        2,
        field(row, 2),
        RulesFault::NameRepeated { place },
        Wording::Words("is the name of an earlier record of its kind"),
    )
}

// The fault of a record after the last one that may be of its kind.
fn room_fault(place: u32, most: usize, kinds: &'static str) -> FaultAt<RulesFault>
    ensures { kept_fault result ≡ fault_of_whole (fault.TooMany place)
        (Some (most_cause most kinds.now)) }
{
    FaultAt::of_whole(RulesFault::TooMany { place }, Some(most_cause(most, kinds)))
}

/// The numbers of a category.
#[derive(Clone, Copy)]
struct CategoryNumbers {
    supply: u64,
    reserve: u64,
    points: u64,
    value: u64,
}

// The numbers of the category that a record describes, after those before it.
fn check_category(
    version: Version,
    place: u32,
    before: &[Category],
    row: &ByteRecord,
) -> Result<CategoryNumbers, FaultAt<RulesFault>>
    ensures answer { Passes result
        (kind_checks version place (entries before.now [] [] []) (fields_of row.now) kind.Category)
        (category_numbers version (fields_of row.now)) }
    ensures limits { IfOk result (λ numbers. (numbers.supply ≤ GREATEST_QUANTITY)
        × (numbers.reserve ≤ GREATEST_AMOUNT) × (numbers.points ≤ GREATEST_POINTS)
        × (numbers.value ≤ GREATEST_VALUE)) }
    ensures name { OnOk result (IsTrue (is_name (record_field 2 (fields_of row.now)))) }
    ensures room { OnOk result (length before.now < MOST_CATEGORIES) }
    ensures new_name { OnOk result (has_name (λ other. other.name) before.now
        (record_field 2 (fields_of row.now)) ≡ false) }
{
    let name = field(row, 2);
    refuse!(!is_name(name), name_fault(place, row, 2));
    let value_text = value_text(version, row);
    let supply = number_in(place, 3, field(row, 3))?;
    let reserve = number_in(place, 4, field(row, 4))?;
    let points = number_in(place, 5, field(row, 5))?;
    let value = number_in(place, 6, value_text)?;
    check_range(place, 3, field(row, 3), supply, 0, GREATEST_QUANTITY)?;
    check_range(place, 4, field(row, 4), reserve, 0, GREATEST_AMOUNT)?;
    check_range(place, 5, field(row, 5), points, 0, GREATEST_POINTS)?;
    check_range(place, 6, value_text, value, 0, GREATEST_VALUE)?;
    refuse!(has_category(before, name), repeated_fault(place, row));
    refuse!(
        before.len() >= MOST_CATEGORIES,
        room_fault(place, MOST_CATEGORIES, " categories")
    );
    Ok(CategoryNumbers {
        supply,
        reserve,
        points,
        value,
    })
}

/// The numbers of a bidder.
#[derive(Clone, Copy)]
struct BidderNumbers {
    eligibility: u64,
    sessions: u64,
}

// The numbers of the bidder that a record describes, after those before it.
fn check_bidder(
    place: u32,
    before: &[Bidder],
    row: &ByteRecord,
) -> Result<BidderNumbers, FaultAt<RulesFault>>
    ensures answer { Passes result
        (checks_in_every_version place (entries [] before.now [] []) (fields_of row.now) kind.Bidder)
        (bidder_numbers (fields_of row.now)) }
    ensures limits { IfOk result (λ numbers. (numbers.eligibility ≤ GREATEST_AMOUNT)
        × (1 ≤ numbers.sessions) × (numbers.sessions ≤ MOST_SESSIONS)) }
    ensures name { OnOk result (IsTrue (is_name (record_field 2 (fields_of row.now)))) }
    ensures room { OnOk result (length before.now < MOST_BIDDERS) }
    ensures new_name { OnOk result (has_name (λ other. other.name) before.now
        (record_field 2 (fields_of row.now)) ≡ false) }
{
    let name = field(row, 2);
    refuse!(!is_name(name), name_fault(place, row, 2));
    let eligibility = number_in(place, 3, field(row, 3))?;
    let sessions = number_in(place, 4, field(row, 4))?;
    check_range(place, 3, field(row, 3), eligibility, 0, GREATEST_AMOUNT)?;
    check_range(place, 4, field(row, 4), sessions, 1, MOST_SESSIONS)?;
    refuse!(has_bidder(before, name), repeated_fault(place, row));
    refuse!(
        before.len() >= MOST_BIDDERS,
        room_fault(place, MOST_BIDDERS, " bidders")
    );
    Ok(BidderNumbers {
        eligibility,
        sessions,
    })
}

// The cap of the pool that a record describes, after those before it.
fn check_pool(place: u32, before: &[NamedCap], row: &ByteRecord) -> Result<u64, FaultAt<RulesFault>>
    ensures answer { Passes result
        (checks_in_every_version place (entries [] [] before.now []) (fields_of row.now) kind.Pool)
        (field_number 3 (fields_of row.now)) }
    ensures limits { IfOk result (λ cap. cap ≤ GREATEST_AMOUNT) }
    ensures name { OnOk result (IsTrue (is_name (record_field 2 (fields_of row.now)))) }
    ensures room { OnOk result (length before.now < MOST_POOLS) }
    ensures new_name { OnOk result (has_name (λ other. other.name) before.now
        (record_field 2 (fields_of row.now)) ≡ false) }
{
    let name = field(row, 2);
    refuse!(!is_name(name), name_fault(place, row, 2));
    let cap = number_in(place, 3, field(row, 3))?;
    check_range(place, 3, field(row, 3), cap, 0, GREATEST_AMOUNT)?;
    refuse!(has_pool(before, name), repeated_fault(place, row));
    refuse!(
        before.len() >= MOST_POOLS,
        room_fault(place, MOST_POOLS, " pools")
    );
    Ok(cap)
}

// The fault of a member whose category is in its pool already.
fn member_fault(place: u32, row: &ByteRecord) -> FaultAt<RulesFault>
    ensures { kept_fault result ≡ fault_at 3 (record_field 3 (fields_of row.now))
        (fault.NameRepeated place) (codes "is in that pool already") }
{
    FaultAt::new(
        3,
        field(row, 3),
        RulesFault::NameRepeated { place },
        Wording::Words("is in that pool already"),
    )
}

// The fault of a member of a pool that no earlier record describes.
fn pool_fault(place: u32, row: &ByteRecord) -> FaultAt<RulesFault>
    ensures { kept_fault result ≡ fault_at 2 (record_field 2 (fields_of row.now))
        (fault.NameUnknown place) (codes "is the name of no earlier pool") }
{
    FaultAt::new(
        2,
        field(row, 2),
        RulesFault::NameUnknown { place },
        Wording::Words("is the name of no earlier pool"),
    )
}

// The fault of a member with a category that no earlier record describes.
fn category_fault(place: u32, row: &ByteRecord) -> FaultAt<RulesFault>
    ensures { kept_fault result ≡ fault_at 3 (record_field 3 (fields_of row.now))
        (fault.NameUnknown place) (codes "is the name of no earlier category") }
{
    FaultAt::new(
        3,
        field(row, 3),
        RulesFault::NameUnknown { place },
        Wording::Words("is the name of no earlier category"),
    )
}

// The weight of the member that a record describes, after the entries before it.
fn check_member(place: u32, before: &Draft, row: &ByteRecord) -> Result<u64, FaultAt<RulesFault>>
    ensures answer { Passes result
        (checks_in_every_version place before.now (fields_of row.now) kind.Member)
        (field_number 4 (fields_of row.now)) }
    ensures limits { IfOk result (λ weight. (1 ≤ weight) × (weight ≤ GREATEST_WEIGHT)) }
    ensures pool { OnOk result (IsTrue (is_name (record_field 2 (fields_of row.now)))) }
    ensures category { OnOk result (IsTrue (is_name (record_field 3 (fields_of row.now)))) }
{
    let pool = field(row, 2);
    let category = field(row, 3);
    refuse!(!is_name(pool), name_fault(place, row, 2));
    refuse!(!is_name(category), name_fault(place, row, 3));
    let weight = number_in(place, 4, field(row, 4))?;
    check_range(place, 4, field(row, 4), weight, 1, GREATEST_WEIGHT)?;
    refuse!(
        has_member(before.members(), pool, category),
        member_fault(place, row)
    );
    refuse!(!has_pool(before.pools(), pool), pool_fault(place, row));
    refuse!(
        !has_category(before.categories(), category),
        category_fault(place, row)
    );
    Ok(weight)
}

// Adds the category that a record describes, or returns the fault of the record.
fn add_category(
    alloc: Global,
    version: Version,
    place: u32,
    draft: &mut Draft,
    row: &ByteRecord,
) -> Result<Option<FaultAt<RulesFault>>, AllocError>
    ensures fault { IfOk result (λ at. option_map kept_fault at
        ≡ first_failed (kind_checks version place draft.old (fields_of row.now) kind.Category)) }
    ensures draft { IfOk result (λ at. MatchOption at (draft.new ≡ entries
        (draft.old.categories ++ category_of version (fields_of row.now) ∷ []) draft.old.bidders
        draft.old.pools draft.old.members) (λ at. draft.new ≡ draft.old)) }
{
    match check_category(version, place, draft.categories(), row) {
        Ok(numbers) => {
            let name = Name::new(alloc, field(row, 2))?;
            draft.add_category(Category {
                name,
                supply: numbers.supply as u32,
                reserve: numbers.reserve,
                points: numbers.points as u32,
                value: numbers.value,
            })?;
            Ok(None)
        }
        Err(at) => Ok(Some(at)),
    }
}

// Adds the bidder that a record describes, or returns the fault of the record.
fn add_bidder(
    alloc: Global,
    place: u32,
    draft: &mut Draft,
    row: &ByteRecord,
) -> Result<Option<FaultAt<RulesFault>>, AllocError>
    ensures fault { IfOk result (λ at. option_map kept_fault at
        ≡ first_failed (checks_in_every_version place draft.old (fields_of row.now) kind.Bidder)) }
    ensures draft { IfOk result (λ at. MatchOption at (draft.new ≡ entries draft.old.categories
        (draft.old.bidders ++ bidder_of (fields_of row.now) ∷ []) draft.old.pools
        draft.old.members) (λ at. draft.new ≡ draft.old)) }
{
    match check_bidder(place, draft.bidders(), row) {
        Ok(numbers) => {
            let name = Name::new(alloc, field(row, 2))?;
            draft.add_bidder(Bidder {
                name,
                eligibility: numbers.eligibility,
                sessions: numbers.sessions as u8,
            })?;
            Ok(None)
        }
        Err(at) => Ok(Some(at)),
    }
}

// Adds the pool that a record describes, or returns the fault of the record.
fn add_pool(
    alloc: Global,
    place: u32,
    draft: &mut Draft,
    row: &ByteRecord,
) -> Result<Option<FaultAt<RulesFault>>, AllocError>
    ensures fault { IfOk result (λ at. option_map kept_fault at
        ≡ first_failed (checks_in_every_version place draft.old (fields_of row.now) kind.Pool)) }
    ensures draft { IfOk result (λ at. MatchOption at (draft.new ≡ entries draft.old.categories
        draft.old.bidders (draft.old.pools ++ pool_of (fields_of row.now) ∷ [])
        draft.old.members) (λ at. draft.new ≡ draft.old)) }
{
    match check_pool(place, draft.pools(), row) {
        Ok(cap) => {
            let name = Name::new(alloc, field(row, 2))?;
            draft.add_pool(NamedCap { name, cap })?;
            Ok(None)
        }
        Err(at) => Ok(Some(at)),
    }
}

// Adds the member that a record describes, or returns the fault of the record.
fn add_member(
    alloc: Global,
    place: u32,
    draft: &mut Draft,
    row: &ByteRecord,
) -> Result<Option<FaultAt<RulesFault>>, AllocError>
    ensures fault { IfOk result (λ at. option_map kept_fault at
        ≡ first_failed (checks_in_every_version place draft.old (fields_of row.now) kind.Member)) }
    ensures draft { IfOk result (λ at. MatchOption at (draft.new ≡ entries draft.old.categories
        draft.old.bidders draft.old.pools
        (draft.old.members ++ member_of (fields_of row.now) ∷ [])) (λ at. draft.new ≡ draft.old)) }
{
    match check_member(place, draft, row) {
        Ok(weight) => {
            let pool = Name::new(alloc, field(row, 2))?;
            let category = Name::new(alloc, field(row, 3))?;
            draft.add_member(Member {
                pool,
                category,
                weight: weight as u16,
            })?;
            Ok(None)
        }
        Err(at) => Ok(Some(at)),
    }
}

// The fault of a record of no kind.
fn kind_fault(place: u32, row: &ByteRecord) -> FaultAt<RulesFault>
    ensures { kept_fault result ≡ (no_kind place (fields_of row.now)).1 }
{
    FaultAt::new(
        1,
        field(row, 1),
        RulesFault::Kind { place },
        Wording::Words("is no kind of record"),
    )
}

// Adds the entry that a record describes, or returns the fault of the record.
pub(crate) fn add_entry(
    alloc: Global,
    version: Version,
    place: u32,
    draft: &mut Draft,
    row: &ByteRecord,
) -> Result<Option<FaultAt<RulesFault>>, AllocError>
    ensures fault { IfOk result (λ at. option_map kept_fault at
        ≡ first_failed (entry_checks version place draft.old (fields_of row.now))) }
    ensures draft { IfOk result (λ at. MatchOption at
        (draft.new ≡ both draft.old (entries_of version (fields_of row.now ∷ [])))
        (λ at. draft.new ≡ draft.old)) }
{
    if row.len() != version.field_count() {
        return Ok(Some(count_fault(version, place, row)));
    }
    match kind_of(version, row) {
        Some(RecordKind::Category) => add_category(alloc, version, place, draft, row),
        Some(RecordKind::Bidder) => add_bidder(alloc, place, draft, row),
        Some(RecordKind::Pool) => add_pool(alloc, place, draft, row),
        Some(RecordKind::Member) => add_member(alloc, place, draft, row),
        None => Ok(Some(kind_fault(place, row))),
    }
}
