//! Reading the parts of the input.

ghost use Rattle.std.specs.Prelude.{◌≡◌, All, IfErr, IfOk, Ok, OnOk, length};
ghost use Rattle.std.specs.List.{AllZip};
ghost use Rattle.bid_forms.specs.Offers.{Meets};
ghost use Rattle.auction_input.specs.Refused.{Refuses};
ghost use Rattle.auction_input.specs.inside.InputTexts.{AreAdded, IsAnswer, IsFirstErr};
ghost use Rattle.auction_terms.specs.Lines.{bytes_of};
ghost use Rattle.auction_input.specs.Parts.{parts_held};
ghost use Rattle.auction_input.specs.ParsedParts.{only_text};
ghost use Rattle.auction_input.specs.Plan.{miscounted, taken_by, takes};
ghost use Rattle.auction_input.specs.inside.ParsedTexts.{HaveMore, parsed_more};
ghost use Rattle.auction_input.specs.ParsedTexts.{parsed_form};
ghost use Rattle.auction_terms.specs.Stages.{each_in_turn};

use crate::part_kind::PartKind;
use crate::parts::{Part, count_of};
use crate::refusal::Refusal;
use crate::request::{Request, Target};
use auction_terms::Rules;
use bid_forms::{Form, FormFault, read_form};
use rayon::prelude::*;
use std::alloc::{AllocError, Global};
use std::thread::{Threads, join};

// Whether a command takes so many parts of groups, and so many of solutions. Whether there is a solution for each group is tested once these are read.
fn takes(command: Option<Target>, groups: usize, solutions: usize) -> (bool, bool)
    ensures { result ≡ takes command groups solutions }
{
    match command {
        Some(Target::Text) => (groups == 0, solutions == 0),
        Some(Target::Compile) => (groups == 1, solutions == 0),
        Some(Target::Map) => (groups == 1, solutions == 1),
        Some(Target::Report | Target::Verify) => (groups == 1, true),
        None => (groups <= 1, true),
    }
}

// Whether a request does: any number, if it ignores them.
fn taken_by(request: &Request, groups: usize, solutions: usize) -> (bool, bool)
    ensures { result ≡ taken_by request.now groups solutions }
{
    if request.ignores_others() {
        return (true, true);
    }
    takes(request.target(), groups, solutions)
}

/// The first kind of which there are too few parts or too many: one with rules, and as many with groups and with solutions as the command takes.
pub fn miscounted(request: &Request, parts: &[Part<'_>]) -> Option<PartKind>
    ensures { result ≡ miscounted request.now (parts_held parts.now) }
{
    let groups = count_of(parts, PartKind::Groups);
    let solutions = count_of(parts, PartKind::Solution);
    let (takes_groups, takes_solutions) = taken_by(request, groups, solutions);
    if count_of(parts, PartKind::Rules) != 1 {
        return Some(PartKind::Rules);
    }
    if !takes_groups {
        return Some(PartKind::Groups);
    }
    if !takes_solutions {
        return Some(PartKind::Solution);
    }
    None
}

/// The text of the one part of a kind; where there is none, no text.
pub fn only_text<'t>(texts: &[&'t [u8]]) -> &'t [u8]
    ensures { result.now ≡ only_text (bytes_of texts.now) }
{
    match texts.first() {
        Some(text) => *text,
        None => b"".as_slice(),
    }
}

// How many forms are read side by side before the first fault among them is reported: enough that the threads of a stage are
// worth their start, and few enough that no more than a moment's work is done on forms after a faulty one.
const STAGE_LEN: usize = 4_096;

/// Reads forms, side by side in stages, up to the first stage with a faulty one.
pub fn read_forms(
    rt: &(impl Threads + Sync),
    alloc: Global,
    texts: &[&[u8]],
    rules: &Rules,
) -> Result<Vec<Form>, Refusal>
    ensures parsed { IfOk result (λ forms. each_in_turn (parsed_form rules.now) 1 (bytes_of texts.now)
        ≡ Ok forms.items) }
    ensures meet { IfOk result (λ forms. All (Meets rules.now) forms.items) }
    ensures refuses { IfErr result (Refuses (each_in_turn (parsed_form rules.now) 1
        (bytes_of texts.now))) }
{
    let mut forms = Vec::new(alloc);
    let mut start = 0;
    while start < texts.len() {
        let end = start + STAGE_LEN.min(texts.len() - start);
        read_more(rt, alloc, &mut forms, &texts[start..end], rules)?;
        start = end;
    }
    Ok(forms)
}

// Reads the forms of a stage, after those that are read.
fn read_more(
    rt: &(impl Threads + Sync),
    alloc: Global,
    forms: &mut Vec<Form>,
    texts: &[&[u8]],
    rules: &Rules,
) -> Result<(), Refusal>
    ensures parsed { OnOk result (HaveMore rules.now (bytes_of texts.now) forms.old.items
        forms.new.items) }
    ensures refuses { IfErr result (Refuses (parsed_more rules.now (length forms.old.items)
        (bytes_of texts.now))) }
{
    let answers = read_each(rt, alloc, texts, rules)?;
    add_forms(forms, answers)
}

// With fewer bytes of forms than this they are read by one thread: others would cost more time than they save.
const FEW_BYTES: usize = 131_072;

// How many bytes the texts have together.
fn byte_count(texts: &[&[u8]]) -> usize {
    let mut count: usize = 0;
    for text in texts {
        count = count.saturating_add(text.len());
    }
    count
}

// What each text describes. Both halves of the texts are read side by side, each by as many threads as `rayon` takes: with
// fewer, longer pieces more processors would be without work at the end. Few bytes take one thread.
fn read_each(
    rt: &(impl Threads + Sync),
    alloc: Global,
    texts: &[&[u8]],
    rules: &Rules,
) -> Result<Vec<Result<Form, FormFault>>, AllocError>
    ensures { IfOk result (λ answers. AllZip (IsAnswer rules.now) texts.now answers.items) }
{
    if byte_count(texts) < FEW_BYTES {
        return read_half(rt, alloc, texts, rules, texts.len());
    }
    let (first, second) = texts.split_at(texts.len() / 2);
    let (front, back) = join(
        rt,
        move || -> Result<Vec<Result<Form, FormFault>>, AllocError>
            ensures { IfOk result (λ answers. AllZip (IsAnswer rules.entry.now) first.entry.now
                answers.items) }
        { read_half(rt, alloc, first, rules, 1) },
        move || -> Result<Vec<Result<Form, FormFault>>, AllocError>
            ensures { IfOk result (λ answers. AllZip (IsAnswer rules.entry.now) second.entry.now
                answers.items) }
        { read_half(rt, alloc, second, rules, 1) },
    );
    let mut answers = front?;
    let mut others = back?;
    answers.append(&mut others)?;
    Ok(answers)
}

// What each of these texts describes, by threads that take at least so many texts each.
fn read_half(
    rt: &(impl Threads + Sync),
    alloc: Global,
    texts: &[&[u8]],
    rules: &Rules,
    least: usize,
) -> Result<Vec<Result<Form, FormFault>>, AllocError>
    ensures { IfOk result (λ answers. AllZip (IsAnswer rules.now) texts.now answers.items) }
{
    texts
        .par_iter()
        .with_min_len(least)
        .map(
            |text: &&[u8]| -> Result<Form, FormFault>
                ensures { IsAnswer rules.entry.now text.now result }
            { read_form(alloc, *text, rules) },
        )
        .collect(rt, alloc)
}

// Adds the forms, where each answer is one, or returns the first fault.
fn add_forms(forms: &mut Vec<Form>, answers: Vec<Result<Form, FormFault>>) -> Result<(), Refusal>
    ensures added { OnOk result (AreAdded answers.items forms.old.items forms.new.items) }
    ensures first { IfErr result (IsFirstErr (length forms.old.items) answers.items) }
{
    for answer in answers {
        match answer {
            Ok(form) => {
                if forms.push(form).is_err() {
                    return Err(Refusal::OutOfMemory);
                }
            }
            Err(fault) => {
                let form = forms.len() + 1;
                return Err(Refusal::Form { form, fault });
            }
        }
    }
    Ok(())
}
