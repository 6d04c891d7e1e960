//! What the lines of the rule give: the scales, and the weights of groups and winners.

ghost use Rattle.std.specs.Prelude.{◌≡◌, ◌<◌, ◌^◌, IfOk};
ghost use Rattle.std.specs.Option.{option_map_or};
ghost use Rattle.std.specs.List.{list_any};
ghost use Rattle.std.specs.Prelude.{find};
ghost use Rattle.auction_input.specs.PriceTexts as of_texts;
ghost use Rattle.auction_input.specs.PriceTexts.{is_of, same_subject, weight_for, weights_in};

use std::alloc::{AllocError, Global};

/// What has weights. Groups and bidders count from 1.
#[derive(Clone, Copy)]
pub enum Subject {
    Group(usize),
    Bidder(u16),
}

/// What weights show: that the sum of the prices is the least, or that the prices are the nearest.
#[derive(Clone, Copy)]
pub enum Aim {
    Least,
    Nearest,
}

/// The scale of the weights for each aim, and the push, by which the nearest prices are moved down.
#[derive(Clone, Copy)]
pub struct Scales {
    pub least: u64,
    pub nearest: u64,
    pub push: u64,
}

/// A group's weights or a winner's own, one for each aim.
#[derive(Clone, Copy)]
pub struct GivenWeights {
    pub subject: Subject,
    pub least: u64,
    pub nearest: u64,
}

/// What a line of the rule gives.
#[derive(Clone, Copy)]
pub enum RuleLine {
    Scaled(Scales),
    Weighted(GivenWeights),
}

fn same_subject(one: Subject, other: Subject) -> bool
    ensures { result ≡ same_subject one other }
{
    match (one, other) {
        (Subject::Group(k), Subject::Group(l)) => k == l,
        (Subject::Bidder(b), Subject::Bidder(c)) => b == c,
        (Subject::Group(_), Subject::Bidder(_)) | (Subject::Bidder(_), Subject::Group(_)) => false,
    }
}

fn is_of(subject: Subject, line: RuleLine) -> bool
    ensures { result ≡ is_of subject line }
{
    match line {
        RuleLine::Scaled(_) => false,
        RuleLine::Weighted(weights) => same_subject(weights.subject, subject),
    }
}

/// Whether it has weights.
pub(crate) fn has_weights(given: &[RuleLine], subject: Subject) -> bool
    ensures { result ≡ list_any (is_of subject) given.now }
{
    given.iter().any(|line| is_of(subject, *line))
}

// The line that gives it weights.
fn line_of(given: &[RuleLine], subject: Subject) -> Option<RuleLine>
    ensures { result ≡ find (is_of subject) given.now }
{
    given.iter().copied().find(|line| is_of(subject, *line))
}

// The weight of a line for an aim.
fn weight_in(aim: Aim, line: RuleLine) -> u64
    ensures { result ≡ option_map_or (weight_for aim) (weights_in line) 0 }
{
    match (line, aim) {
        (RuleLine::Scaled(_), _) => 0,
        (RuleLine::Weighted(weights), Aim::Least) => weights.least,
        (RuleLine::Weighted(weights), Aim::Nearest) => weights.nearest,
    }
}

/// Its weight for an aim; 0 if it is given none.
pub fn weight_given(aim: Aim, given: &[RuleLine], subject: Subject) -> u64
    ensures { result ≡ of_texts.weight_given aim given.now subject }
{
    match line_of(given, subject) {
        Some(line) => weight_in(aim, line),
        None => 0,
    }
}

/// The weights of the groups up to this one, for an aim.
pub fn weights_of_groups(
    alloc: Global,
    aim: Aim,
    given: &[RuleLine],
    count: usize,
) -> Result<Vec<u64>, AllocError>
    requires { count < 2 ^ 32 }
    ensures { IfOk result (λ weights. weights.items
        ≡ of_texts.weights_of_groups aim given.now count) }
{
    let mut weights = Vec::new(alloc);
    for place in 0..count {
        weights.push(weight_given(aim, given, Subject::Group(place + 1)))?;
    }
    Ok(weights)
}

/// The weights of that many bidders, for an aim.
pub fn weights_of_bidders(
    alloc: Global,
    aim: Aim,
    given: &[RuleLine],
    count: u16,
) -> Result<Vec<u64>, AllocError>
    requires { count < 2 ^ 15 }
    ensures { IfOk result (λ weights. weights.items
        ≡ of_texts.weights_of_bidders aim given.now count) }
{
    let mut weights = Vec::new(alloc);
    for place in 0..count {
        weights.push(weight_given(aim, given, Subject::Bidder(place + 1)))?;
    }
    Ok(weights)
}
