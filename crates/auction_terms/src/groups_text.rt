//! The text of the bidder groups.

ghost use Rattle.std.specs.Prelude.{◌++◌, if◌then◌else◌, nat_le, ◌≡◌, ◌≤◌, ◌<◌, ◌∷◌, Err, [], IfErr, IfOk, OnOk, length, map, option_map, option_to_list, None, Some};
ghost use Rattle.std.specs.List.{list_any};
ghost use Rattle.std.specs.Str.{bytes_eq};
ghost use Rattle.auction_terms.specs.AllFaults.{accepted_with, all_faults};
ghost use Rattle.auction_terms.specs.FirstFault.{first_failed};
ghost use Rattle.auction_terms.specs.Judged.{HoldsMore, IsReading, fault_of_whole, kept_fault};
ghost use Rattle.auction_terms.specs.Lines.{bytes_of, lines_of};
ghost use Rattle.auction_terms.specs.GroupsText.{group_faults, group_of, groups_of, is_groups_memory, line_checks, line_faults, name_checks, name_faults, names_faults, room_checks};
ghost use Rattle.auction_terms.specs.inside.GroupsText.{numbers_from};
ghost use Rattle.auction_terms.specs.Stages.{Answers};
ghost use Rattle.auction_terms.specs.GroupNames.{names_in};
ghost use Rattle.auction_terms.specs.Groups.{AreGroups, IsGroup};
ghost use Rattle.auction_terms.specs.declared.limits.TheConstants.{MOST_BIDDERS, MOST_GROUPS};
ghost use Rattle.auction_terms.specs.GroupFaultText.{group_code, group_fault_text, group_place};
ghost use Rattle.auction_terms.specs.Wording.{code_seen, wording_text};
ghost use Rattle.auction_terms.specs.declared.groups_text.GroupFault.TheVariants as fault;

use crate::group_list::Groups;
use crate::group_names::NameReader;
use crate::groups::Group;
use crate::judge::{All, FaultAt};
use crate::limits::{MOST_FAULTS, MOST_GROUPS, TEXT_LIMIT};
use crate::lines::LineReader;
use crate::rules::{Bidder, Rules};
use crate::wording::{Code, Wording};
use std::alloc::{AllocError, Global};
use std::fmt;
use thiserror::Error;

/// Why a text isn't accepted as groups. A place is the number of a line, from 1. Words between backquotes are the cause
/// that `explain` prints.
#[derive(Clone, Copy, Debug, PartialEq, Eq, Error)]
pub enum GroupFault {
    /// The text is above its limit.
    TooLarge,
    /// The line is empty.
    EmptyLine { place: u32 },
    /// A name, possibly an empty one, `is no bidder's name`.
    UnknownBidder { place: u32 },
    /// A name `is in the line already`.
    RepeatedBidder { place: u32 },
    /// There are `more than N groups`.
    TooManyGroups { place: u32 },
    /// Memory was refused.
    OutOfMemory,
}

impl GroupFault {
    /// The number and the name of the fault; `None` where memory was refused, which is no fault of the text.
    pub fn code(self) -> Option<Code>
        ensures { option_map code_seen result ≡ group_code self }
    {
        match self {
            GroupFault::TooLarge => Some(Code::new(1, "TooLarge")),
            GroupFault::EmptyLine { .. } => Some(Code::new(2, "EmptyLine")),
            GroupFault::UnknownBidder { .. } => Some(Code::new(3, "UnknownBidder")),
            GroupFault::RepeatedBidder { .. } => Some(Code::new(4, "RepeatedBidder")),
            GroupFault::TooManyGroups { .. } => Some(Code::new(5, "TooManyGroups")),
            GroupFault::OutOfMemory => None,
        }
    }

    /// What is reported of the fault: its number and name, and in which line it is.
    pub fn wording(self) -> Wording
        ensures { wording_text result ≡ group_fault_text self }
    {
        Wording::of_fault(self.code(), " at line ", self.place())
    }

    /// The number, from 1, of the line in which the fault is, 0 where the text has none; `None` where it is that of the whole
    /// text.
    pub fn place(self) -> Option<u32>
        ensures { result ≡ group_place self }
    {
        match self {
            GroupFault::TooLarge | GroupFault::OutOfMemory => None,
            GroupFault::EmptyLine { place }
            | GroupFault::UnknownBidder { place }
            | GroupFault::RepeatedBidder { place }
            | GroupFault::TooManyGroups { place } => Some(place),
        }
    }
}

impl fmt::Display for GroupFault {
    ghost output = { λ fault. Some (group_fault_text fault) };

    fn fmt<W: fmt::Write>(&self, f: &mut fmt::Formatter<W>) -> fmt::Result {
        self.wording().fmt(f)
    }
}

impl From<AllocError> for GroupFault {
    ghost from_gives = { λ _ e. e ≡ fault.OutOfMemory };

    fn from(_: AllocError) -> GroupFault {
        GroupFault::OutOfMemory
    }
}

fn is_known(bidders: &[Bidder], name: &[u8]) -> bool
    ensures { result ≡ list_any (λ bidder. bytes_eq bidder.name name.now) bidders.now }
{
    bidders.iter().any(|bidder| bidder.name.as_bytes() == name)
}

fn is_among(names: &[&[u8]], name: &[u8]) -> bool
    ensures { result ≡ list_any (λ other. bytes_eq other.now name.now) names.now }
{
    names.iter().any(|other| *other == name)
}

// The fault of a name that no bidder has, or that stood before.
fn name_fault(
    place: u32,
    number: usize,
    bidders: &[Bidder],
    before: &[&[u8]],
    name: &[u8],
) -> Option<FaultAt<GroupFault>>
    ensures { option_map kept_fault result
        ≡ first_failed (name_checks bidders.now place number (bytes_of before.now) name.now) }
{
    if !is_known(bidders, name) {
        return Some(FaultAt::new(
            number,
            name,
            GroupFault::UnknownBidder { place },
            Wording::Words("is no bidder's name"),
        ));
    }
    if is_among(before, name) {
        return Some(FaultAt::new(
            number,
            name,
            GroupFault::RepeatedBidder { place },
            Wording::Words("is in the line already"),
        ));
    }
    None
}

// The fault of a line without a byte.
fn empty_fault(place: u32, line: &[u8]) -> Option<FaultAt<GroupFault>>
    ensures { option_map kept_fault result ≡ first_failed (line_checks place line.now) }
{
    if line.is_empty() {
        return Some(FaultAt::of_whole(GroupFault::EmptyLine { place }, None));
    }
    None
}

// The fault of a line after the last one that may be.
fn room_fault(place: u32) -> Option<FaultAt<GroupFault>>
    ensures { option_map kept_fault result ≡ first_failed (room_checks place) }
{
    if place > MOST_GROUPS {
        return Some(FaultAt::of_whole(
            GroupFault::TooManyGroups { place },
            Some(Wording::Between("more than ", u64::from(MOST_GROUPS), " groups")),
        ));
    }
    None
}

// Adds the fault of a name, or adds the name to the accepted ones.
fn read_name<'t>(
    faults: &mut All<GroupFault>,
    accepted: &mut Vec<&'t [u8]>,
    place: u32,
    number: usize,
    bidders: &[Bidder],
    name: &'t [u8],
) -> Result<(), AllocError>
    ensures told { OnOk result (HoldsMore faults.old faults.new
        (name_faults bidders.now place number (bytes_of accepted.old.items) name.now)) }
    ensures accepted { OnOk result (bytes_of accepted.new.items
        ≡ accepted_with (name_faults bidders.now place number (bytes_of accepted.old.items)
        name.now) (bytes_of accepted.old.items) name.now) }
{
    if let Some(fault) = name_fault(place, number, bidders, accepted, name) {
        return faults.add(fault);
    }
    if accepted.push(name).is_err() {
        return Err(AllocError);
    }
    Ok(())
}

// The accepted names of a line.
fn read_names<'t>(
    alloc: Global,
    faults: &mut All<GroupFault>,
    place: u32,
    bidders: &[Bidder],
    line: &'t [u8],
) -> Result<Vec<&'t [u8]>, AllocError>
    ensures told { OnOk result (HoldsMore faults.old faults.new
        (all_faults (name_faults bidders.now place) 1 [] (names_in line.now))) }
    ensures names { IfOk result (λ names.
        all_faults (name_faults bidders.now place) 1 [] (names_in line.now) ≡ []
        → bytes_of names.items ≡ names_in line.now) }
{
    let mut accepted = Vec::new(alloc);
    let mut reader = NameReader::new(line);
    let mut number = 1;
    while let Some(name) = reader.next() {
        read_name(faults, &mut accepted, place, number, bidders, name)?;
        number += 1;
    }
    Ok(accepted)
}

// The same, of a line that may be empty.
fn read_some<'t>(
    alloc: Global,
    faults: &mut All<GroupFault>,
    place: u32,
    bidders: &[Bidder],
    line: &'t [u8],
) -> Result<Vec<&'t [u8]>, AllocError>
    ensures told { OnOk result (HoldsMore faults.old faults.new
        (names_faults bidders.now place line.now)) }
    ensures names { IfOk result (λ names. names_faults bidders.now place line.now ≡ []
        → bytes_of names.items ≡ names_in line.now) }
{
    match empty_fault(place, line) {
        Some(fault) => {
            faults.add(fault)?;
            Ok(Vec::new(alloc))
        }
        None => read_names(alloc, faults, place, bidders, line),
    }
}

// The numbers of the bidders that the names name.
fn numbers_of(alloc: Global, bidders: &[Bidder], names: &[&[u8]]) -> Result<Vec<u16>, AllocError>
    requires { length bidders.now ≤ MOST_BIDDERS }
    ensures numbers { IfOk result (λ numbers. numbers.items
        ≡ numbers_from 1 bidders.now (map (λ name. name.now) names.now)) }
    ensures group { IfOk result (λ numbers. IsGroup numbers.items) }
{
    let mut numbers = Vec::new(alloc);
    for (place, bidder) in bidders.iter().enumerate() {
        if is_among(names, bidder.name.as_bytes()) {
            numbers.push(place as u16 + 1)?;
        }
    }
    Ok(numbers)
}

// The group of a line.
fn read_group(
    alloc: Global,
    faults: &mut All<GroupFault>,
    place: u32,
    bidders: &[Bidder],
    line: &[u8],
) -> Result<Group, AllocError>
    requires { length bidders.now ≤ MOST_BIDDERS }
    ensures told { OnOk result (HoldsMore faults.old faults.new
        (line_faults bidders.now place line.now)) }
    ensures group { IfOk result (λ group. line_faults bidders.now place line.now ≡ []
        → group ≡ group_of bidders.now line.now) }
    ensures numbers { IfOk result IsGroup }
{
    let names = read_some(alloc, faults, place, bidders, line)?;
    faults.add_any(room_fault(place))?;
    let numbers = numbers_of(alloc, bidders, &names)?;
    Ok(Group::new(numbers))
}

// Adds a group, if there may be one more.
fn add_group(groups: &mut Vec<Group>, place: u32, group: Group) -> Result<(), AllocError>
    ensures { OnOk result (groups.new.items ≡ (if nat_le place MOST_GROUPS
        then groups.old.items ++ group ∷ [] else groups.old.items)) }
{
    if place <= MOST_GROUPS {
        groups.push(group)?;
    }
    Ok(())
}

// Adds each fault of a text. Where there is none, these are its groups.
fn judge_lines(
    alloc: Global,
    faults: &mut All<GroupFault>,
    bytes: &[u8],
    bidders: &[Bidder],
) -> Result<Vec<Group>, AllocError>
    requires few { length bidders.now ≤ MOST_BIDDERS }
    requires short { length bytes.now ≤ TEXT_LIMIT }
    ensures told { OnOk result (HoldsMore faults.old faults.new
        (group_faults bidders.now bytes.now)) }
    ensures groups { IfOk result (λ groups. group_faults bidders.now bytes.now ≡ []
        → groups.items ≡ map (group_of bidders.now) (lines_of bytes.now)) }
    ensures limits { IfOk result (λ groups. AreGroups groups.items) }
{
    let mut groups = Vec::new(alloc);
    let mut lines = LineReader::new(bytes);
    let mut place = 1u32;
    while let Some(line) = lines.next() {
        let group = read_group(alloc, faults, place, bidders, line)?;
        add_group(&mut groups, place, group)?;
        place += 1;
    }
    Ok(groups)
}

/// Reads bidder groups, under rules.
pub fn read_groups(alloc: Global, bytes: &[u8], rules: &Rules) -> Result<Groups, GroupFault>
    ensures too_large { TEXT_LIMIT < length bytes.now → result ≡ Err fault.TooLarge }
    ensures answer { length bytes.now ≤ TEXT_LIMIT
        → Answers is_groups_memory result (groups_of rules.now.bidders bytes.now) }
{
    if bytes.len() > TEXT_LIMIT {
        return Err(GroupFault::TooLarge);
    }
    let mut faults = All::new(alloc, 1);
    let groups = judge_lines(alloc, &mut faults, bytes, rules.bidders())?;
    match faults.kept.as_slice() {
        [] => Ok(Groups::new(groups)),
        [first, ..] => Err(first.fault),
    }
}

/// The groups that a text describes, under rules, or all faults of the text if it has any.
pub fn judge_groups(
    alloc: Global,
    bytes: &[u8],
    rules: &Rules,
) -> Result<Result<Groups, All<GroupFault>>, AllocError>
    ensures too_large { TEXT_LIMIT < length bytes.now
        → IfOk result (IsReading (Err fault.TooLarge) (fault_of_whole fault.TooLarge None ∷ [])) }
    ensures answer { length bytes.now ≤ TEXT_LIMIT
        → IfOk result (IsReading (groups_of rules.now.bidders bytes.now)
        (group_faults rules.now.bidders bytes.now)) }
{
    let mut faults = All::new(alloc, MOST_FAULTS);
    if bytes.len() > TEXT_LIMIT {
        faults.add(FaultAt::of_whole(GroupFault::TooLarge, None))?;
        return Ok(Err(faults));
    }
    let groups = judge_lines(alloc, &mut faults, bytes, rules.bidders())?;
    if !faults.kept.is_empty() {
        return Ok(Err(faults));
    }
    Ok(Ok(Groups::new(groups)))
}
