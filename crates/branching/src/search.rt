//! What a search asks at each node: how high its bound is, and where to split it.

use crate::problem::Problem;
use crate::split::{Candidate, Measure, Split, find_candidates};
use simplex::{End, Ray, Standing, Tableau};
use std::alloc::{AllocError, Global};
use std::cmp::OrderedFloat;

/// The most pivots of a node.
const NODE_PIVOTS: usize = 5_000;
/// Splits that are tried, the pivots of a try, and the tries without a better one.
const TRIES: usize = 32;

const TRY_PIVOTS: usize = 40;

const IDLE_TRIES: usize = 6;

/// A split that raises both sides by this part of what is missing is good enough.
const ENOUGH: f64 = 0.9998;

/// What is known of a node.
#[derive(Clone, Copy, Debug)]
pub enum Node {
    /// The objective of all its points is above the goal.
    Above,
    /// It has no points, which moving prices along the ray shows.
    Empty(Ray),
    /// It may have a point that reaches the goal.
    Open,
}

/// The questions of a search, and the steps that answers took.
#[derive(Drop)]
pub struct Search<'p> {
    pub alloc: Global,
    pub problem: &'p Problem,
    /// A point is looked for whose objective is this or less.
    pub goal: f64,
    trial: Tableau,
    steps: u64,
}

impl<'p> Search<'p> {
    /// A search of a problem, one of whose tableaus this is.
    pub fn new(
        alloc: Global,
        problem: &'p Problem,
        goal: f64,
        tableau: &Tableau,
    ) -> Result<Search<'p>, AllocError> {
        Ok(Search {
            alloc,
            problem,
            goal,
            trial: tableau.copied(alloc)?,
            steps: 0,
        })
    }

    fn count(&mut self, steps: u64) {
        self.steps = self.steps.saturating_add(steps);
    }

    /// The steps since the last call.
    pub fn take_steps(&mut self) -> u64 {
        let steps = self.steps;
        self.steps = 0;
        steps
    }

    /// Finds the bound of a node.
    pub fn bound(&mut self, tableau: &mut Tableau) -> Result<Node, AllocError> {
        let end = tableau.reoptimise(NODE_PIVOTS, self.goal)?;
        let steps = tableau.take_steps().saturating_add(tableau.size() as u64);
        self.count(steps);
        Ok(match end {
            End::Infeasible(ray) => Node::Empty(ray),
            End::Optimal | End::Above | End::Stopped => {
                if tableau.objective() > self.goal {
                    Node::Above
                } else {
                    Node::Open
                }
            }
        })
    }

    /// By how much a side of a split raises the objective, at most by what is needed.
    fn raise(
        &mut self,
        tableau: &Tableau,
        split: Split,
        is_high: bool,
        need: f64,
    ) -> Result<f64, AllocError> {
        self.trial.restore(tableau);
        split.apply(self.problem, &mut self.trial, is_high);
        let raised = match self.trial.reoptimise(TRY_PIVOTS, self.goal)? {
            End::Infeasible(_) => need,
            _ => self.trial.objective() - tableau.objective(),
        };
        Ok(raised.max(0.0).min(need))
    }

    /// The split whose sides raise the objective most.
    fn strongest(
        &mut self,
        tableau: &Tableau,
        candidates: &[Candidate],
    ) -> Result<Option<Candidate>, AllocError> {
        let need = self.goal - tableau.objective();
        let mut strongest = match candidates.first() {
            Some(first) => Some(*first),
            None => None,
        };
        let mut most = -1.0;
        let mut idle: usize = 0;
        for candidate in candidates.iter().take(TRIES) {
            if idle >= IDLE_TRIES || most >= need * need * ENOUGH {
                break;
            }
            idle = idle.saturating_add(1);
            let low = self.raise(tableau, candidate.split, false, need)?;
            if low * need <= most {
                continue;
            }
            let high = self.raise(tableau, candidate.split, true, need)?;
            if low * high > most {
                most = low * high;
                strongest = Some(*candidate);
                idle = 0;
            }
        }
        Ok(strongest)
    }

    /// The splits that part the point of a node, those first that halve a block; none where its point is whole.
    pub fn candidates(&self, values: &[f64]) -> Result<Vec<Candidate>, AllocError> {
        let mut candidates = find_candidates(self.alloc, self.problem, values)?;
        candidates.sort_by_key(|candidate| OrderedFloat((candidate.part - 0.5).abs()))?;
        Ok(candidates)
    }

    /// By which of these to split a node; nothing where there are none.
    pub fn choose(
        &mut self,
        tableau: &Tableau,
        candidates: &[Candidate],
    ) -> Result<Option<Candidate>, AllocError> {
        self.trial.copy_from(tableau);
        let chosen = self.strongest(tableau, candidates)?;
        let steps = self.trial.take_steps();
        self.count(steps);
        Ok(chosen)
    }

    /// A split at the first block of which a node leaves more than one choice: the chosen column, if there is one, is on the high side.
    /// Nothing where the node has one point at most.
    pub fn part_off(&self, tableau: &Tableau, ones: &[usize]) -> Option<Split> {
        for place in 0..self.problem.blocks.len() {
            if let Some(measure) = self.measure_of(tableau, place, ones) {
                return Some(Split {
                    block: place,
                    measure,
                });
            }
        }
        None
    }

    /// How a block is split that has more than one choice left.
    fn measure_of(&self, tableau: &Tableau, place: usize, ones: &[usize]) -> Option<Measure> {
        let block = self.problem.blocks.get(place)?;
        let mut first = None;
        let mut chosen = None;
        let mut choices: usize = 0;
        let columns = tableau.columns.iter().enumerate();
        for (column, bounds) in columns.skip(block.start).take(block.len) {
            if bounds.high > 0.0 {
                choices = choices.saturating_add(1);
                if first.is_none() {
                    first = Some(column);
                }
                if ones.contains(&column) {
                    chosen = Some(column);
                }
            }
        }
        if self.may_lose(tableau, place) {
            choices = choices.saturating_add(1);
        } else if chosen.is_none() {
            chosen = first;
        }
        if choices < 2 {
            return None;
        }
        Some(match chosen {
            Some(column) => Measure::Only(column),
            None => Measure::Any,
        })
    }

    /// Whether a node leaves it to a block to have no column at 1.
    fn may_lose(&self, tableau: &Tableau, block: usize) -> bool {
        match tableau.columns.get(self.problem.block_slack(block)) {
            Some(bounds) => bounds.high > 0.0,
            None => false,
        }
    }

    /// The columns whose reduced costs are above what is missing of the goal.
    pub fn costly(&self, tableau: &Tableau) -> Result<Vec<usize>, AllocError> {
        let gap = self.goal - tableau.objective();
        let mut costly = Vec::new(self.alloc);
        let columns = tableau.columns.iter().zip(&tableau.objective.cells);
        for (place, (column, reduced)) in columns.enumerate().take(self.problem.columns.len()) {
            let is_low = column.high > 0.0 && column.standing == Standing::Low;
            if is_low && *reduced > gap {
                costly.push(place)?;
            }
        }
        Ok(costly)
    }
}
