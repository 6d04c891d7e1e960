//! The text of a form.

ghost use Rattle.std.specs.Prelude.{◌≡◌, ◌≢◌, ◌≤◌, ◌<◌, ◌+◌, ◌∷◌, [], None, Some, Err, IfOk, IsTrue, MatchOption, OnOk, ⊤, codes, length, map, option_map};
ghost use Rattle.auction_terms.specs.Judged.{Holds, IsReading, fault_of_whole};
ghost use Rattle.auction_terms.specs.Records.{records_of};
ghost use Rattle.auction_terms.specs.Stages.{Answers};
ghost use Rattle.auction_terms.specs.Wording.{code_seen, wording_text};
ghost use Rattle.bid_forms.specs.FormFaultText.{earlier_bid, form_code, form_fault_text, form_place};
ghost use Rattle.bid_forms.specs.FormText.{bids_faults, described_form, form_faults, form_of_records, is_form_memory, parsed_bid};
ghost use Rattle.bid_forms.specs.Offers.{Meets, eligibility_of};
ghost use Rattle.bid_forms.specs.declared.form_text.FormFault.TheVariants as fault;
ghost use Rattle.bid_forms.specs.inside.FormText.{AreBids, FindsEnough};

use crate::form::{Form, eligibility_of};
use crate::form_records::{Entry, header_fault, take_bid};
use crate::seen::Seen;
use auction_terms::{
    All, Bid, Code, FaultAt, GREATEST_AMOUNT, MOST_FAULTS, RecordReader, Rules, TEXT_LIMIT,
    Wording, field,
};
use csv::ByteRecord;
use std::alloc::{AllocError, Global};
use std::fmt;
use thiserror::Error;

/// Why a text isn't accepted as a form. A place is the number of a record, from 1. Words between backquotes are the
/// cause that `explain` prints.
#[derive(Clone, Copy, PartialEq, Eq, Error)]
pub enum FormFault {
    /// The text is above its limit.
    TooLarge,
    /// `there is no record`; or the header has `N fields in place of M`, or a field `in place of NAME`, which is the
    /// category's name.
    Header { place: u32 },
    /// Field 1 `is no bidder's name`.
    UnknownBidder { place: u32 },
    /// The record has `N fields in place of M`.
    FieldCount { place: u32 },
    /// Field 1 `isn't 1 to 18 digits`. A space isn't a digit.
    AmountText { place: u32 },
    /// Field 1 `isn't between L and H`.
    AmountRange { place: u32 },
    /// Field 1 `isn't a multiple of N`, which is the step.
    AmountStep { place: u32 },
    /// A quantity `isn't 1 to 18 digits`.
    QuantityText { place: u32 },
    /// A quantity `isn't between L and H`.
    QuantityRange { place: u32 },
    /// The package has no lot: `each quantity is 0`.
    EmptyPackage { place: u32 },
    /// The lots have `N points, above the eligibility of M`.
    OverEligibility { place: u32 },
    /// Field 1 `is below the reserve of N`, which is that of the lots.
    BelowReserve { place: u32 },
    /// The package is that of an earlier bid, which is numbered from 1.
    RepeatedPackage { place: u32, earlier: u32 },
    /// There are `more than N bids`.
    TooManyBids { place: u32 },
    /// Memory was refused.
    OutOfMemory,
}

// The number and the name of a fault that also has the number of an earlier bid.
fn repeated_package() -> Code
    ensures { code_seen result ≡ record { number = 13; name = codes "RepeatedPackage" } }
{
    Code::new(13, "RepeatedPackage")
}

impl FormFault {
    /// The number and the name of the fault; `None` where memory was refused, which is no fault of the text.
    pub fn code(self) -> Option<Code>
        ensures { option_map code_seen result ≡ form_code self }
    {
        match self {
            FormFault::TooLarge => Some(Code::new(1, "TooLarge")),
            FormFault::Header { .. } => Some(Code::new(2, "Header")),
            FormFault::UnknownBidder { .. } => Some(Code::new(3, "UnknownBidder")),
            FormFault::FieldCount { .. } => Some(Code::new(4, "FieldCount")),
            FormFault::AmountText { .. } => Some(Code::new(5, "AmountText")),
            FormFault::AmountRange { .. } => Some(Code::new(6, "AmountRange")),
            FormFault::AmountStep { .. } => Some(Code::new(7, "AmountStep")),
            FormFault::QuantityText { .. } => Some(Code::new(8, "QuantityText")),
            FormFault::QuantityRange { .. } => Some(Code::new(9, "QuantityRange")),
            FormFault::EmptyPackage { .. } => Some(Code::new(10, "EmptyPackage")),
            FormFault::OverEligibility { .. } => Some(Code::new(11, "OverEligibility")),
            FormFault::BelowReserve { .. } => Some(Code::new(12, "BelowReserve")),
            FormFault::RepeatedPackage { .. } => Some(repeated_package()),
            FormFault::TooManyBids { .. } => Some(Code::new(14, "TooManyBids")),
            FormFault::OutOfMemory => None,
        }
    }

    /// The number, from 1, of the earlier bid that has the same package, where the fault is that there is one.
    pub fn earlier(self) -> Option<u32>
        ensures { result ≡ earlier_bid self }
    {
        match self {
            FormFault::RepeatedPackage { place: _, earlier } => Some(earlier),
            FormFault::TooLarge
            | FormFault::Header { .. }
            | FormFault::UnknownBidder { .. }
            | FormFault::FieldCount { .. }
            | FormFault::AmountText { .. }
            | FormFault::AmountRange { .. }
            | FormFault::AmountStep { .. }
            | FormFault::QuantityText { .. }
            | FormFault::QuantityRange { .. }
            | FormFault::EmptyPackage { .. }
            | FormFault::OverEligibility { .. }
            | FormFault::BelowReserve { .. }
            | FormFault::TooManyBids { .. }
            | FormFault::OutOfMemory => None,
        }
    }

    /// What is reported of the fault: its number and name, in which record it is, and an earlier bid.
    pub fn wording(self) -> Wording
        ensures { wording_text result ≡ form_fault_text self }
    {
        if let FormFault::RepeatedPackage { place, earlier } = self {
            return Wording::NamedWith(
                repeated_package(),
                " at record ",
                place as u64,
                ", earlier bid ",
                earlier as u64,
            );
        }
        Wording::of_fault(self.code(), " at record ", self.place())
    }

    /// The number, from 1, of the record in which the fault is, 0 where the text has none; `None` where it is that of the whole
    /// text.
    pub fn place(self) -> Option<u32>
        ensures { result ≡ form_place self }
    {
        match self {
            FormFault::TooLarge | FormFault::OutOfMemory => None,
            FormFault::Header { place }
            | FormFault::UnknownBidder { place }
            | FormFault::FieldCount { place }
            | FormFault::AmountText { place }
            | FormFault::AmountRange { place }
            | FormFault::AmountStep { place }
            | FormFault::QuantityText { place }
            | FormFault::QuantityRange { place }
            | FormFault::EmptyPackage { place }
            | FormFault::OverEligibility { place }
            | FormFault::BelowReserve { place }
            | FormFault::RepeatedPackage { place, earlier: _ }
            | FormFault::TooManyBids { place } => Some(place),
        }
    }
}

impl fmt::Display for FormFault {
    ghost output = { λ fault. Some (form_fault_text fault) };

    fn fmt<W: fmt::Write>(&self, f: &mut fmt::Formatter<W>) -> fmt::Result {
        self.wording().fmt(f)
    }
}

// As it is displayed.
impl fmt::Debug for FormFault {
    fn fmt<W: fmt::Write>(&self, f: &mut fmt::Formatter<W>) -> fmt::Result {
        fmt::Display::fmt(self, f)
    }
}

impl From<AllocError> for FormFault {
    ghost from_gives = { λ _ e. e ≡ fault.OutOfMemory };

    fn from(_: AllocError) -> FormFault {
        FormFault::OutOfMemory
    }
}

// Whether one fault is wanted, and it is found.
fn has_enough(faults: &All<FormFault>) -> bool
    ensures { IsTrue result → (faults.now.most ≡ 1) × (1 ≤ length faults.now.kept.items) }
{
    faults.most == 1 && !faults.kept.is_empty()
}

// Adds the faults of the records after the header, of a bidder with this eligibility, and returns the bids of those without one.
fn read_bids(
    alloc: Global,
    faults: &mut All<FormFault>,
    rules: &Rules,
    eligibility: u64,
    reader: &mut RecordReader,
    text: &[u8],
) -> Result<Vec<Bid>, AllocError>
    requires short { length reader.old ≤ TEXT_LIMIT + 1 }
    ensures found { OnOk result (FindsEnough faults.old faults.new
        (bids_faults rules.now eligibility reader.old)) }
    ensures bids { IfOk result (λ bids. length faults.new.kept.items ≡ 0
        → bids_faults rules.now eligibility reader.old ≡ []
        → bids.items ≡ map parsed_bid reader.old) }
    ensures are { IfOk result (λ bids. AreBids rules.now eligibility bids.items) }
{
    let mut row = ByteRecord::new(alloc);
    let mut seen = Seen::of_text(alloc, text);
    let mut bids = Vec::new(alloc);
    let mut place = 2u32;
    while reader.next(&mut row)? {
        let entry = Entry {
            rules,
            eligibility,
            place,
            row: &row,
        };
        take_bid(faults, &entry, &mut seen, &mut bids)?;
        if has_enough(faults) {
            return Ok(bids);
        }
        place += 1;
    }
    Ok(bids)
}

// Adds the faults of the records after the header, or returns the form of the bidder.
fn read_form_of(
    alloc: Global,
    faults: &mut All<FormFault>,
    rules: &Rules,
    bidder: u16,
    reader: &mut RecordReader,
    text: &[u8],
) -> Result<Option<Form>, AllocError>
    requires some { 1 ≤ bidder }
    requires known { bidder ≤ length rules.now.bidders }
    requires short { length reader.old ≤ TEXT_LIMIT + 1 }
    requires none { Holds faults.old.most faults.old [] }
    requires room { 1 ≤ faults.old.most }
    ensures found { OnOk result (FindsEnough faults.old faults.new
        (bids_faults rules.now (eligibility_of rules.now bidder) reader.old)) }
    ensures none { IfOk result (λ form. MatchOption form
        (bids_faults rules.now (eligibility_of rules.now bidder) reader.old ≢ [])
        (λ _. bids_faults rules.now (eligibility_of rules.now bidder) reader.old ≡ [])) }
    ensures form { IfOk result (λ form. MatchOption form ⊤ (λ form. form ≡ record {
      bidder = bidder;
      bids = map parsed_bid reader.old;
    })) }
    ensures meets { IfOk result (λ form. MatchOption form ⊤ (Meets rules.now)) }
{
    let eligibility = eligibility_of(rules, bidder);
    let mut bids = read_bids(alloc, faults, rules, eligibility, reader, text)?;
    if !faults.kept.is_empty() {
        return Ok(None);
    }
    // The history keeps every form: room for further bids would be most of what a small one takes.
    bids.shrink_to_fit();
    Ok(Some(Form::new(bidder, bids)))
}

// Adds the faults of the records of a text, or returns the form that they describe.
fn judge_records(
    alloc: Global,
    faults: &mut All<FormFault>,
    rules: &Rules,
    reader: &mut RecordReader,
    text: &[u8],
) -> Result<Option<Form>, AllocError>
    requires short { length reader.old ≤ TEXT_LIMIT + 1 }
    requires none { Holds faults.old.most faults.old [] }
    requires room { 1 ≤ faults.old.most }
    ensures found { OnOk result (FindsEnough faults.old faults.new
        (form_faults rules.now reader.old)) }
    ensures none { IfOk result (λ form. MatchOption form (form_faults rules.now reader.old ≢ [])
        (λ _. form_faults rules.now reader.old ≡ [])) }
    ensures form { IfOk result (λ form. MatchOption form ⊤
        (λ form. form ≡ described_form rules.now reader.old)) }
    ensures meets { IfOk result (λ form. MatchOption form ⊤ (Meets rules.now)) }
{
    let mut header = ByteRecord::new(alloc);
    if !reader.next(&mut header)? {
        let cause = Wording::Words("there is no record");
        faults.add(FaultAt::of_whole(FormFault::Header { place: 1 }, Some(cause)))?;
        return Ok(None);
    }
    if let Some(at) = header_fault(rules.categories(), &header) {
        faults.add(at)?;
        return Ok(None);
    }
    let name = field(&header, 1);
    match rules.bidder_number(name) {
        Some(bidder) => read_form_of(alloc, faults, rules, bidder, reader, text),
        None => {
            let cause = Wording::Words("is no bidder's name");
            let fault = FormFault::UnknownBidder { place: 1 };
            faults.add(FaultAt::new(1, name, fault, cause))?;
            read_bids(alloc, faults, rules, GREATEST_AMOUNT, reader, text)?;
            Ok(None)
        }
    }
}

/// Reads a form, under rules.
pub fn read_form(alloc: Global, bytes: &[u8], rules: &Rules) -> Result<Form, FormFault>
    ensures too_large { TEXT_LIMIT < length bytes.now → result ≡ Err fault.TooLarge }
    ensures answer { length bytes.now ≤ TEXT_LIMIT
        → Answers is_form_memory result (form_of_records rules.now (records_of bytes.now)) }
    ensures meets { IfOk result (Meets rules.now) }
{
    if bytes.len() > TEXT_LIMIT {
        return Err(FormFault::TooLarge);
    }
    let mut faults = All::new(alloc, 1);
    let mut reader = RecordReader::new(alloc, bytes);
    match judge_records(alloc, &mut faults, rules, &mut reader, bytes)? {
        Some(form) => Ok(form),
        None => Err(faults.kept[0].fault),
    }
}

/// The form that a text describes, under rules, or all faults of the text if it has any.
pub fn judge_form(
    alloc: Global,
    bytes: &[u8],
    rules: &Rules,
) -> Result<Result<Form, All<FormFault>>, AllocError>
    ensures too_large { TEXT_LIMIT < length bytes.now
        → IfOk result (IsReading (Err fault.TooLarge) (fault_of_whole fault.TooLarge None ∷ [])) }
    ensures answer { length bytes.now ≤ TEXT_LIMIT
        → IfOk result (IsReading (form_of_records rules.now (records_of bytes.now))
        (form_faults rules.now (records_of bytes.now))) }
{
    let mut faults = All::new(alloc, MOST_FAULTS);
    if bytes.len() > TEXT_LIMIT {
        faults.add(FaultAt::of_whole(FormFault::TooLarge, None))?;
        return Ok(Err(faults));
    }
    let mut reader = RecordReader::new(alloc, bytes);
    match judge_records(alloc, &mut faults, rules, &mut reader, bytes)? {
        Some(form) => Ok(Ok(form)),
        None => Ok(Err(faults)),
    }
}
