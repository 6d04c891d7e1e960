//! What is found of one program: its best point as the lines of a solution, and a certificate.

use crate::known::{choices_of, columns_of};
use crate::losers::without_names;
use crate::parts::solution_of;
use auction_terms::{Choice, Group};
use leaves::{Aim, Answer, Proof, Task, prove};
use optimality::check_selection;
use program_rows::Selection;
use std::alloc::{AllocError, Global};

/// What was found of a program.
#[derive(Drop)]
pub struct Found {
    /// The bids that win.
    pub choices: Vec<Choice>,
    pub objective: i128,
    /// The lines of the solution.
    pub solution: Vec<u8>,
    /// The text that shows that nobody wins more, if there is one.
    pub certificate: Option<Vec<u8>>,
}

/// What was found, with the columns at 1 of a point.
fn found_of(
    alloc: Global,
    program: &Selection<'_>,
    ones: &[usize],
    objective: i128,
    certificate: Option<Vec<u8>>,
) -> Result<Found, AllocError> {
    Ok(Found {
        choices: choices_of(alloc, program, ones)?,
        objective,
        solution: solution_of(alloc, program, ones)?,
        certificate,
    })
}

/// Searches a program, from a point with these bids, in at most so many steps.
pub fn search(
    alloc: Global,
    program: &Selection<'_>,
    known: &[Choice],
    most_steps: u64,
) -> Result<Found, AllocError> {
    let known = columns_of(alloc, program, known)?;
    let task = Task {
        known: known.as_slice(),
        least: None,
        left_out: &[],
        aim: Aim::Better,
        most_steps,
    };
    match prove(alloc, program, task)? {
        Answer::Proved(
            Proof {
                ones,
                objective,
                certificate,
                ..
            },
        ) => found_of(
            alloc,
            program,
            ones.as_slice(),
            objective,
            Some(certificate),
        ),
        Answer::NotProved { ones, objective } => {
            found_of(alloc, program, ones.as_slice(), objective, None)
        }
        Answer::TooMany(_) => found_of(alloc, program, known.as_slice(), 0, None),
    }
}

/// Whether a bidder of a group wins.
fn has_winner(group: &Group, choices: &[Choice]) -> bool {
    choices.iter().any(|choice| group.has(choice.bidder))
}

/// What was found with nobody left out, for a group none of whose bidders wins: nothing if its certificate isn't accepted.
pub fn found_alike(
    alloc: Global,
    program: &Selection<'_>,
    group: &Group,
    first: &Found,
) -> Result<Option<Found>, AllocError> {
    let Some(certificate) = &first.certificate else {
        return Ok(None);
    };
    if has_winner(group, first.choices.as_slice()) {
        return Ok(None);
    }
    let text = without_names(alloc, certificate.as_slice(), group)?;
    if check_selection(alloc, text.as_slice(), program, first.objective).is_err() {
        return Ok(None);
    }
    let ones = columns_of(alloc, program, first.choices.as_slice())?;
    Ok(Some(found_of(alloc, program, ones.as_slice(), first.objective, Some(text))?))
}
