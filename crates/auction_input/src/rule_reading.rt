//! Reading the rule's weights, a line at a time.

ghost use Rattle.std.specs.Prelude.{◌≡◌, ◌⊎◌, Err, IfErr, IfOk, Ok, OnOk, ◌∷◌, []};
ghost use Rattle.auction_input.specs.PriceTexts.{number_in_field, parsed_rule_lines, parsed_scales, parsed_weights, rule_in_fields, with_given};
ghost use Rattle.auction_input.specs.declared.price_fault.PriceFault.TheVariants.{OutOfMemory};
ghost use Rattle.auction_terms.specs.LineFields.{fields};

use crate::price_fault::PriceFault;
use crate::price_names::Known;
use crate::price_reading::given_line;
use crate::rule_weights::{GivenWeights, RuleLine, Scales, has_weights};
use auction_terms::{LineReader, next_field, number};
use std::alloc::{AllocError, Global};

// The number in a field.
fn number_in_field(place: usize, text: &[u8]) -> Result<u64, PriceFault>
    ensures { result ≡ number_in_field place text.now }
{
    match number(text) {
        Some(number) => Ok(number),
        None => Err(PriceFault::NumberText { place }),
    }
}

// What the first line gives.
fn scales_in(
    place: usize,
    least: &[u8],
    nearest: &[u8],
    push: &[u8],
) -> Result<RuleLine, PriceFault>
    ensures { result ≡ parsed_scales place least.now nearest.now push.now }
{
    Ok(RuleLine::Scaled(Scales {
        least: number_in_field(place, least)?,
        nearest: number_in_field(place, nearest)?,
        push: number_in_field(place, push)?,
    }))
}

// What a further line gives, after lines that gave these.
fn weights_in(
    known: &Known<'_>,
    before: &[RuleLine],
    place: usize,
    name: &[u8],
    least: &[u8],
    nearest: &[u8],
) -> Result<RuleLine, PriceFault>
    ensures { result ≡ parsed_weights known.now before.now place name.now least.now nearest.now }
{
    let subject = known.subject(place, name)?;
    if has_weights(before, subject) {
        return Err(PriceFault::RepeatedName { place });
    }
    Ok(RuleLine::Weighted(GivenWeights {
        subject,
        least: number_in_field(place, least)?,
        nearest: number_in_field(place, nearest)?,
    }))
}

// What a line of three fields gives.
fn rule_in_three(
    known: &Known<'_>,
    before: &[RuleLine],
    place: usize,
    one: &[u8],
    two: &[u8],
    three: &[u8],
) -> Result<Option<RuleLine>, PriceFault>
    ensures { result ≡ rule_in_fields known.now before.now place
        (one.now ∷ two.now ∷ three.now ∷ []) }
{
    if before.is_empty() {
        Ok(Some(scales_in(place, one, two, three)?))
    } else {
        Ok(Some(weights_in(known, before, place, one, two, three)?))
    }
}

// What a line gives.
fn rule_in_line(
    known: &Known<'_>,
    before: &[RuleLine],
    place: usize,
    line: &[u8],
) -> Result<Option<RuleLine>, PriceFault>
    ensures { result ≡ rule_in_fields known.now before.now place (fields line.now) }
{
    let Some(one) = next_field(line) else {
        return Ok(None);
    };
    let Some(two) = next_field(one.rest) else {
        return Err(PriceFault::Fields { place });
    };
    let Some(three) = next_field(two.rest) else {
        return Err(PriceFault::Fields { place });
    };
    if next_field(three.rest).is_some() {
        return Err(PriceFault::Fields { place });
    }
    rule_in_three(known, before, place, one.text, two.text, three.text)
}

fn add(given: &mut Vec<RuleLine>, more: Option<RuleLine>) -> Result<(), AllocError>
    ensures { OnOk result (given.new.items ≡ with_given given.old.items more) }
{
    if let Some(it) = more {
        given.push(it)?;
    }
    Ok(())
}

/// Reads what the lines of the rule give: first the scales and the push, then weights.
pub fn read_rule_lines(
    alloc: Global,
    text: &[u8],
    known: &Known<'_>,
) -> Result<Vec<RuleLine>, PriceFault>
    ensures given { IfOk result (λ given. parsed_rule_lines known.now text.now ≡ Ok given.items) }
    ensures refuses { IfErr result (λ f. (f ≡ OutOfMemory)
        ⊎ (parsed_rule_lines known.now text.now ≡ Err f)) }
{
    let mut given = Vec::new(alloc);
    let mut lines = LineReader::new(text);
    let mut place = 0;
    while let Some(line) = lines.next() {
        place += 1;
        let found = rule_in_line(known, &given, place, given_line(line))?;
        add(&mut given, found)?;
    }
    Ok(given)
}
