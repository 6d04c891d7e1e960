//! Finding all faults of an input.

ghost use Rattle.std.specs.Prelude.{◌≡◌, ◌≢◌, ◌∷◌, [], IfOk, List, MatchOption, Ok, OnOk, Some, codes};
ghost use Rattle.auction_input.specs.Parts.{parts_held, parts_named, input_parts, text_numbers};
ghost use Rattle.auction_input.specs.ParsedParts.{only_text};
ghost use Rattle.auction_input.specs.ParsedTexts.{parsed_form};
ghost use Rattle.auction_terms.specs.Judged.{Fault as Judged, Holds};
ghost use Rattle.auction_terms.specs.declared.limits.TheConstants.{MOST_FAULTS};
ghost use Rattle.auction_terms.specs.Stages.{each_in_turn};
ghost use Rattle.input_faults.specs.inside.Finding.{AreGroupsOf, FindsMore, unmet_with};
ghost use Rattle.input_faults.specs.InputFaults.{call_fault, faults_in_parts, faults_of_forms, faults_of_parts};
ghost use Rattle.input_faults.specs.InputFaults.{faults_under, input_faults, text_fault, unmet_faults};
ghost use Rattle.input_faults.specs.declared.fault.Fault as declared;

use crate::fault::Fault;
use crate::merging::{add_another, add_call, add_unmet};
use crate::part_faults::{uncounted_fault, uncut_fault};
use crate::reading::{Together, take_forms, take_groups, take_rules};
use auction_input::{
    Input, Numbers, Part, PartFault, PartKind, Request, Target, miscounted, proof_wants,
    solution_wants, split_parts, text_numbers_of, text_of, texts_of,
};
use auction_terms::{All, Groups, MOST_FAULTS, Rules};
use std::alloc::{AllocError, Global};

// Tests that a fault of parts isn't that memory was refused.
fn check_part_fault(fault: PartFault) -> Result<(), AllocError>
    ensures { OnOk result (fault ≢ PartFault.OutOfMemory) }
{
    match fault {
        PartFault::OutOfMemory => Err(AllocError),
        PartFault::BeforeFirst | PartFault::PartName { .. } | PartFault::OfVersion1 { .. } => Ok(
            (),
        ),
    }
}

// Adds the fault of the parts, or returns them.
fn take_parts<'t>(
    alloc: Global,
    faults: &mut All<Fault>,
    request: &Request,
    input: &'t Input,
) -> Result<Option<Vec<Part<'t>>>, AllocError>
    ensures faults { OnOk result (FindsMore faults.old faults.new
        (faults_of_parts request.now input.now)) }
    ensures parts { IfOk result (λ parts. MatchOption parts
        ((at : Judged declared.Fault) × (faults_of_parts request.now input.now ≡ at ∷ []))
        (λ held. (faults_of_parts request.now input.now ≡ [])
        × (parts_held held.items ≡ input_parts input.now))) }
{
    let parts = match split_parts(alloc, request, input) {
        Ok(parts) => parts,
        Err(fault) => {
            check_part_fault(fault)?;
            faults.add(uncut_fault(input.texts(), fault))?;
            return Ok(None);
        }
    };
    match miscounted(request, parts.as_slice()) {
        None => Ok(Some(parts)),
        Some(kind) => {
            faults.add(uncounted_fault(request, parts.as_slice(), kind))?;
            Ok(None)
        }
    }
}

// Adds the faults of all forms, and returns what is wrong with them together.
fn take_form_parts(
    alloc: Global,
    faults: &mut All<Fault>,
    parts: &[Part<'_>],
    rules: &Rules,
    last_wins: bool,
) -> Result<Together, AllocError>
    ensures faults { OnOk result (FindsMore faults.old faults.new
        (faults_of_forms rules.now (parts_named (codes "%form") (parts_held parts.now)))) }
    ensures another { IfOk result (λ together. together.another
        ≡ text_fault last_wins rules.now (text_numbers (codes "%form") (parts_held parts.now))
        (each_in_turn (parsed_form rules.now) 1
        (parts_named (codes "%form") (parts_held parts.now)))) }
    ensures call { IfOk result (λ together. together.beyond_limit
        ≡ call_fault (each_in_turn (parsed_form rules.now) 1
        (parts_named (codes "%form") (parts_held parts.now)))) }
{
    let texts = texts_of(alloc, parts, PartKind::Form)?;
    let numbers = text_numbers_of(alloc, parts, PartKind::Form)?;
    let together = take_forms(
        alloc,
        faults,
        texts.as_slice(),
        numbers.as_slice(),
        rules,
        last_wins,
    )?;
    Ok(together)
}

// Adds the faults of forms and groups under the rules, and returns the groups, if they have none.
fn take_under(
    alloc: Global,
    faults: &mut All<Fault>,
    parts: &[Part<'_>],
    rules: &Rules,
    last_wins: bool,
) -> Result<Option<Groups>, AllocError>
    ensures faults { OnOk result (FindsMore faults.old faults.new
        (faults_under last_wins (text_numbers (codes "%form") (parts_held parts.now))
        (parts_named (codes "%form") (parts_held parts.now))
        (only_text (parts_named (codes "%groups") (parts_held parts.now))) rules.now)) }
    ensures groups { IfOk result (AreGroupsOf rules.now (parts_held parts.now)) }
{
    let together = take_form_parts(alloc, faults, parts, rules, last_wins)?;
    add_another(faults, together.another)?;
    let groups = take_groups(alloc, faults, text_of(parts, PartKind::Groups), rules)?;
    add_call(faults, together.beyond_limit)?;
    Ok(groups)
}

// Adds what a command wants of parts with these groups, and they haven't got.
fn add_wanted(
    faults: &mut All<Fault>,
    command: Target,
    parts: &[Part<'_>],
    groups: &Groups,
) -> Result<(), AllocError>
    ensures { OnOk result (FindsMore faults.old faults.new
        (unmet_faults (Some command) (parts_held parts.now) (Ok groups.now))) }
{
    let numbers = Numbers::of_parts(parts, groups);
    match command {
        Target::Report => add_unmet(faults, &solution_wants(&numbers)),
        Target::Verify => {
            add_unmet(faults, &solution_wants(&numbers))?;
            add_unmet(faults, &proof_wants(&numbers))
        }
        Target::Text | Target::Compile | Target::Map => Ok(()),
    }
}

// Adds what the command that is named, if one is, wants of parts with these groups, if there are any, and they haven't got.
fn take_wanted(
    faults: &mut All<Fault>,
    command: Option<Target>,
    parts: &[Part<'_>],
    groups: Option<Groups>,
) -> Result<(), AllocError>
    ensures { OnOk result (FindsMore faults.old faults.new
        (unmet_with command (parts_held parts.now) groups)) }
{
    let Some(groups) = groups else {
        return Ok(());
    };
    match command {
        Some(command) => add_wanted(faults, command, parts, &groups),
        None => Ok(()),
    }
}

// Adds the faults of the texts of rules, forms and groups, and of what a command wants of the parts.
fn take_texts(
    alloc: Global,
    faults: &mut All<Fault>,
    command: Option<Target>,
    parts: &[Part<'_>],
    last_wins: bool,
) -> Result<(), AllocError>
    ensures { OnOk result (FindsMore faults.old faults.new
        (faults_in_parts command last_wins (parts_held parts.now))) }
{
    let rules = text_of(parts, PartKind::Rules);
    let Some(rules) = take_rules(alloc, faults, rules)? else {
        return Ok(());
    };
    let groups = take_under(alloc, faults, parts, &rules, last_wins)?;
    take_wanted(faults, command, parts, groups)
}

/// All faults of the input of a request.
pub fn input_faults(
    alloc: Global,
    request: &Request,
    input: &Input,
) -> Result<All<Fault>, AllocError>
    ensures { IfOk result (λ faults. Holds MOST_FAULTS faults
        (input_faults request.now input.now)) }
{
    let mut faults = All::new(alloc, MOST_FAULTS);
    let Some(parts) = take_parts(alloc, &mut faults, request, input)? else {
        return Ok(faults);
    };
    let command = request.target();
    take_texts(
        alloc,
        &mut faults,
        command,
        parts.as_slice(),
        input.last_wins(),
    )?;
    Ok(faults)
}
