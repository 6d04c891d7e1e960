//! Every award of a tie, and the text that shows that there are no others.

use crate::found::Found;
use crate::known::columns_of;
use crate::parts::{add_part, solution_of};
use leaves::{Aim, Answer, Proof, Task, prove};
use program_rows::Selection;
use std::alloc::{AllocError, Global};

/// The most ties that an audit has.
const MOST_TIES: usize = 64;

/// The points of a program as good as the best one, which is the first of them.
#[derive(Drop)]
struct Ties<'p> {
    alloc: Global,
    program: &'p Selection<'p>,
    points: Vec<Vec<usize>>,
    objective: i128,
    most_steps: u64,
}

/// What a search for one more point came to.
#[derive(Drop)]
enum Sought {
    /// There is none, as this text shows.
    Unique(Vec<u8>),
    /// The columns at 1 of one that was missed.
    Another(Vec<usize>),
    /// The steps were used up.
    NotProved,
}

impl<'p> Ties<'p> {
    fn task(&self, aim: Aim) -> Task<'_> {
        let known = match self.points.first() {
            Some(ones) => ones.as_slice(),
            None => &[],
        };
        Task {
            known,
            least: None,
            left_out: &[],
            aim,
            most_steps: self.most_steps,
        }
    }

    /// Looks for all of them. Whether the search came to its end.
    fn find(&mut self) -> Result<bool, AllocError> {
        match prove(
            self.alloc,
            self.program,
            self.task(Aim::Ties(MOST_TIES + 1)),
        )? {
            Answer::Proved(proof) => {
                self.points = proof.ties;
                Ok(true)
            }
            Answer::TooMany(points) => {
                self.points = points;
                Ok(true)
            }
            Answer::NotProved { .. } => Ok(false),
        }
    }

    /// Looks for one more point.
    fn seek(&self) -> Result<Sought, AllocError> {
        if self.points.len() > MOST_TIES + 1 {
            return Ok(Sought::NotProved);
        }
        let least = self.objective.saturating_add(1);
        let task = Task {
            known: &[],
            least: Some(least),
            left_out: self.points.as_slice(),
            aim: Aim::Better,
            most_steps: self.most_steps,
        };
        Ok(match prove(self.alloc, self.program, task)? {
            Answer::Proved(proof) => sought_of(proof, least),
            Answer::NotProved { .. } | Answer::TooMany(_) => Sought::NotProved,
        })
    }

    /// The text that shows that there are no others; nothing where the steps are used up. A point that was missed is added.
    fn prove_unique(&mut self) -> Result<Option<Vec<u8>>, AllocError> {
        for _ in 0..MOST_TIES {
            match self.seek()? {
                Sought::Unique(certificate) => return Ok(Some(certificate)),
                Sought::Another(ones) => self.points.push(ones)?,
                Sought::NotProved => return Ok(None),
            }
        }
        Ok(None)
    }

    /// Adds the parts of the points but the first one.
    fn add_points(&self, text: &mut Vec<u8>) -> Result<(), AllocError> {
        for ones in self.points.iter().skip(1).take(MOST_TIES) {
            let solution = solution_of(self.alloc, self.program, ones.as_slice())?;
            add_part(text, b"%tie", solution.as_slice())?;
        }
        Ok(())
    }

    /// Adds the parts of all points that were found. Whether the steps suffice to show that there are no more, if they are few enough.
    fn add_parts(&mut self, text: &mut Vec<u8>) -> Result<bool, AllocError> {
        if self.points.len() > MOST_TIES + 1 {
            self.add_points(text)?;
            return Ok(true);
        }
        let Some(unique) = self.prove_unique()? else {
            return Ok(false);
        };
        self.add_points(text)?;
        add_part(text, b"%unique", unique.as_slice())?;
        Ok(true)
    }
}

/// What a search for a point below this objective came to.
fn sought_of(proof: Proof, least: i128) -> Sought {
    let Proof {
        ones,
        objective,
        certificate,
        ..
    } = proof;
    if objective == least {
        Sought::Unique(certificate)
    } else {
        Sought::Another(ones)
    }
}

/// Adds the parts `%tie` of every award as good as the best one of group 1's program, and `%unique` if there are few enough. Whether the
/// steps sufficed.
pub fn add_ties<'p>(
    alloc: Global,
    program: &'p Selection<'p>,
    first: &Found,
    most_steps: u64,
    text: &mut Vec<u8>,
) -> Result<bool, AllocError> {
    let mut points = Vec::new(alloc);
    points.push(columns_of(alloc, program, first.choices.as_slice())?)?;
    let mut ties = Ties {
        alloc,
        program,
        points,
        objective: first.objective,
        most_steps,
    };
    Ok(ties.find()? && ties.add_parts(text)?)
}
