//! Reading texts, with all faults of each that is refused.

ghost use Rattle.std.specs.Prelude.{◌≡◌, Err, IfOk, MatchOption, Ok, OnOk, length};
ghost use Rattle.auction_input.specs.ParsedTexts.{parsed_form, parsed_groups, parsed_terms};
ghost use Rattle.auction_input.specs.declared.refusal.Refusal.{Refusal};
ghost use Rattle.auction_terms.specs.Lines.{bytes_of};
ghost use Rattle.auction_terms.specs.Stages.{each_in_turn};
ghost use Rattle.input_faults.specs.inside.Finding.{FindsMore};
ghost use Rattle.input_faults.specs.InputFaults.{call_fault, faults_of_form, faults_of_forms, faults_of_groups, faults_of_rules, text_fault};

use crate::fault::Fault;
use crate::merging::{add_form, add_groups, add_rules};
use auction_input::{AnotherForm, Calls, FormTexts};
use auction_terms::{All, Groups, Rules, judge_groups, judge_rules};
use bid_forms::{Form, judge_form};
use std::alloc::{AllocError, Global};

/// Adds the faults of a text of rules, or returns the rules.
pub fn take_rules(
    alloc: Global,
    faults: &mut All<Fault>,
    text: &[u8],
) -> Result<Option<Rules>, AllocError>
    ensures faults { OnOk result (FindsMore faults.old faults.new (faults_of_rules text.now)) }
    ensures rules { IfOk result (λ rules. MatchOption rules
        ((r : Refusal) × (parsed_terms text.now ≡ Err r)) (λ t. parsed_terms text.now ≡ Ok t)) }
{
    match judge_rules(alloc, text)? {
        Ok(rules) => Ok(Some(rules)),
        Err(found) => {
            add_rules(faults, found)?;
            Ok(None)
        }
    }
}

// Adds the faults of the form of that number, or returns the form.
fn take_form(
    alloc: Global,
    faults: &mut All<Fault>,
    number: usize,
    text: &[u8],
    rules: &Rules,
) -> Result<Option<Form>, AllocError>
    ensures faults { OnOk result (FindsMore faults.old faults.new
        (faults_of_form rules.now number text.now)) }
    ensures form { IfOk result (λ form. MatchOption form
        ((r : Refusal) × (parsed_form rules.now number text.now ≡ Err r))
        (λ form. parsed_form rules.now number text.now ≡ Ok form)) }
{
    match judge_form(alloc, text, rules)? {
        Ok(form) => Ok(Some(form)),
        Err(found) => {
            add_form(faults, number, found)?;
            Ok(None)
        }
    }
}

/// What is wrong with forms together, where each is read.
#[derive(Clone, Copy)]
pub struct Together {
    /// The first form that is in another text than its bidder's first form.
    pub another: Option<AnotherForm>,
    /// The number of the first form without a call.
    pub beyond_limit: Option<usize>,
}

/// Adds the faults of all forms, each in the text of its number, and returns what is wrong with them together, where each is
/// read.
pub fn take_forms(
    alloc: Global,
    faults: &mut All<Fault>,
    texts: &[&[u8]],
    numbers: &[usize],
    rules: &Rules,
    last_wins: bool,
) -> Result<Together, AllocError>
    requires { length numbers.now ≡ length texts.now }
    ensures faults { OnOk result (FindsMore faults.old faults.new
        (faults_of_forms rules.now (bytes_of texts.now))) }
    ensures another { IfOk result (λ together. together.another
        ≡ text_fault last_wins rules.now numbers.now
        (each_in_turn (parsed_form rules.now) 1 (bytes_of texts.now))) }
    ensures call { IfOk result (λ together. together.beyond_limit
        ≡ call_fault (each_in_turn (parsed_form rules.now) 1 (bytes_of texts.now))) }
{
    let mut calls = Calls::new();
    let mut known = FormTexts::new();
    let mut all_read = true;
    for place in 0..texts.len() {
        match take_form(alloc, faults, place + 1, texts[place], rules)? {
            Some(form) => {
                calls.count(place + 1, &form);
                known.add(rules, place + 1, &form, numbers[place]);
            }
            None => all_read = false,
        }
    }
    if !all_read {
        return Ok(Together {
            another: None,
            beyond_limit: None,
        });
    }
    Ok(Together {
        another: if last_wins { None } else { known.refused },
        beyond_limit: calls.refused,
    })
}

/// Adds the faults of a text of groups, or returns the groups.
pub fn take_groups(
    alloc: Global,
    faults: &mut All<Fault>,
    text: &[u8],
    rules: &Rules,
) -> Result<Option<Groups>, AllocError>
    ensures faults { OnOk result (FindsMore faults.old faults.new
        (faults_of_groups rules.now text.now)) }
    ensures groups { IfOk result (λ groups. MatchOption groups
        ((r : Refusal) × (parsed_groups rules.now text.now ≡ Err r))
        (λ lists. parsed_groups rules.now text.now ≡ Ok lists)) }
{
    match judge_groups(alloc, text, rules)? {
        Ok(groups) => Ok(Some(groups)),
        Err(found) => {
            add_groups(faults, found)?;
            Ok(None)
        }
    }
}
