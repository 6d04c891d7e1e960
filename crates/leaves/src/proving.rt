//! A search for the best point of a program, begun again where a better point leaves far fewer columns.

ghost use Rattle.std.specs.Prelude.{IfOk};
ghost use Rattle.optimality.specs.Checking.{IsPrepared};

use crate::layout::{Layout, lay_out};
use crate::point::{Best, is_feasible};
use crate::root::{Root, solve_root};
use crate::text::certificate_of;
use crate::tree::{Aim, Ground, Stop, Tree};
use branching::{Problem, Search};
use optimality::{Checker, Limit, new_checker};
use program_rows::Selection;
use std::alloc::{AllocError, Global};

/// The most cells of a tableau.
const LARGEST_TABLE: usize = 8_000_000;

/// Reduced costs may be above a gap by so much before their columns are fixed.
const MARGIN: f64 = 1e-7;

/// A search begins again where a better point leaves a part of the columns less than so many fifths.
const LEFT_FIFTHS: usize = 4;

/// What is to be proved of a program, in at most so many steps.
#[derive(Clone, Copy)]
pub struct Task<'t> {
    /// The columns at 1 of a point that is known.
    pub known: &'t [usize],
    /// The objective below which a point is looked for; that of the known point if there is none.
    pub least: Option<i128>,
    /// The columns at 1 of points that are left out.
    pub left_out: &'t [Vec<usize>],
    pub aim: Aim,
    pub most_steps: u64,
}

/// What a search came to.
#[derive(Drop)]
pub struct Proof {
    /// The columns at 1 of the best point.
    pub ones: Vec<usize>,
    pub objective: i128,
    /// Those of all points as good, if they were looked for.
    pub ties: Vec<Vec<usize>>,
    /// The text that shows that no point is better.
    pub certificate: Vec<u8>,
}

/// How a search ended.
#[derive(Drop)]
pub enum Answer {
    Proved(Proof),
    /// The steps were used up; the columns at 1 of the best point that was found, and its objective.
    NotProved { ones: Vec<usize>, objective: i128 },
    /// There are more points as good than are wanted.
    TooMany(Vec<Vec<usize>>),
}

/// A search under way.
#[derive(Drop)]
struct Proving<'p> {
    alloc: Global,
    program: &'p Selection<'p>,
    layout: Layout,
    left_out: Vec<Vec<usize>>,
    aim: Aim,
    root: Root,
    best: Best,
    steps: u64,
    most_steps: u64,
}

/// How the tree of a round ended.
#[derive(Drop)]
enum End {
    Over(Answer),
    /// A better point leaves far fewer columns.
    Again,
    /// The checker doesn't take the leaf by which columns are fixed.
    NotFixed,
}

/// What a round of a search came to.
#[derive(Drop)]
struct Round {
    best: Best,
    steps: u64,
    end: End,
}

fn places_of(alloc: Global, layout: &Layout, columns: &[usize]) -> Result<Vec<usize>, AllocError> {
    Ok(Best::of_columns(alloc, layout, columns)?.ones)
}

fn columns_of(
    alloc: Global,
    layout: &Layout,
    points: &[Vec<usize>],
) -> Result<Vec<Vec<usize>>, AllocError> {
    let mut all = Vec::new(alloc);
    for ones in points {
        let point = Best::of_ones(layout, ones.clone()?);
        all.push(point.columns(alloc, layout)?)?;
    }
    Ok(all)
}

/// The places that aren't in the core, which rises.
fn outside(alloc: Global, count: usize, core: &[usize]) -> Result<Vec<usize>, AllocError> {
    let mut others = Vec::new(alloc);
    for place in 0..count {
        if core.binary_search(&place).is_err() {
            others.push(place)?;
        }
    }
    Ok(others)
}

impl<'p> Proving<'p> {
    fn checker(&self, least: i128) -> Result<Checker<'p>, AllocError>
        ensures { IfOk result (λ checker. IsPrepared checker) }
    {
        new_checker(self.alloc, b"\n\n\n\n", self.program, least)
    }

    /// The end of a search that came to a limit.
    fn not_proved(&self) -> Result<Answer, AllocError> {
        Ok(Answer::NotProved {
            ones: self.best.columns(self.alloc, &self.layout)?,
            objective: self.best.objective,
        })
    }

    /// Takes the point that was found at the root, if it is better.
    fn take_first(&mut self) -> Result<(), AllocError> {
        let ones = self.root.ones.clone()?;
        if self.aim == Aim::Better && is_feasible(&self.layout, ones.as_slice()) {
            let point = Best::of_ones(&self.layout, ones);
            if point.objective < self.best.objective {
                self.best = point;
            }
        }
        Ok(())
    }
}

impl<'p> Proving<'p> {
    /// The columns that may be in a point that is looked for.
    fn core(&self) -> Result<Vec<usize>, AllocError> {
        let goal = match self.aim {
            Aim::Better => self.best.objective.saturating_sub(1),
            Aim::Ties(_) => self.best.objective.saturating_add(1),
        };
        let gap = self.layout.in_units(goal) - self.root.bound + MARGIN;
        self.root.core(self.alloc, gap)
    }

    /// Grows the tree of these columns, where others are fixed. The answer, if the search is over.
    fn try_core(&mut self, core: &[usize], others: Vec<usize>) -> Result<End, Limit> {
        if self.layout.table_size(core.len()) > LARGEST_TABLE {
            return Ok(End::Over(self.not_proved()?));
        }
        let problem = self.layout.problem(self.alloc, core)?;
        let Round { best, steps, end } = grown(self, core, &problem, others)?;
        self.best = best;
        self.steps = self.steps.saturating_add(steps);
        Ok(end)
    }

    /// One round: a tree over the columns that may be in a point that is looked for. The answer, if the search is over.
    fn round(&mut self) -> Result<Option<Answer>, Limit> {
        let core = self.core()?;
        let others = outside(self.alloc, self.layout.columns.len(), core.as_slice())?;
        match self.try_core(core.as_slice(), others)? {
            End::Over(answer) => return Ok(Some(answer)),
            End::Again => return Ok(None),
            End::NotFixed => {}
        }
        let all = outside(self.alloc, self.layout.columns.len(), &[])?;
        let nothing = Vec::new(self.alloc);
        match self.try_core(all.as_slice(), nothing)? {
            End::Over(answer) => Ok(Some(answer)),
            End::Again | End::NotFixed => Ok(None),
        }
    }
}

/// A tree of one node over a problem of these columns.
fn planted<'a>(
    proving: &'a Proving<'_>,
    core: &'a [usize],
    problem: &'a Problem,
) -> Result<Tree<'a>, AllocError> {
    let alloc = proving.alloc;
    let tableau = problem.root(alloc)?;
    let search = Search::new(alloc, problem, 0.0, &tableau)?;
    let ground = Ground {
        alloc,
        layout: &proving.layout,
        core,
        aim: proving.aim,
    };
    let best = proving.best.copied()?;
    Tree::new(ground, search, tableau, best, proving.left_out.as_slice())
}

/// Fixes columns at the root of a tree. Whether the checker takes that.
fn fix_others(
    proving: &Proving<'_>,
    tree: &mut Tree<'_>,
    others: Vec<usize>,
) -> Result<bool, Limit> {
    if others.is_empty() || proving.aim != Aim::Better {
        return Ok(true);
    }
    let checker = proving.checker(tree.best.objective)?;
    tree.fix_root(&checker, others, proving.root.prices.as_slice())
}

/// Grows a tree to where it stops.
fn grow_once(proving: &Proving<'_>, tree: &mut Tree<'_>) -> Result<Stop, Limit> {
    let left = proving.most_steps.saturating_sub(proving.steps);
    let checker = proving.checker(tree.best.objective)?;
    tree.grow(&checker, left)
}

/// Grows a tree from one better point to the next, until it is over or far fewer than so many columns are left.
fn grow(proving: &Proving<'_>, tree: &mut Tree<'_>, columns: usize) -> Result<End, Limit> {
    for _ in 0..u64::MAX {
        let stop = grow_once(proving, tree)?;
        if stop != Stop::Better {
            return Ok(End::Over(ended(proving, tree, stop)?));
        }
        let count = proving.root.count(tree.gap(proving.root.bound));
        if count.saturating_mul(5) < columns.saturating_mul(LEFT_FIFTHS) {
            return Ok(End::Again);
        }
    }
    Ok(End::Again)
}

/// Grows the tree of a problem of these columns, where others are fixed.
fn grown<'a>(
    proving: &'a Proving<'_>,
    core: &'a [usize],
    problem: &'a Problem,
    others: Vec<usize>,
) -> Result<Round, Limit> {
    let mut tree = planted(proving, core, problem)?;
    if !fix_others(proving, &mut tree, others)? {
        return round_of(tree, End::NotFixed);
    }
    let end = grow(proving, &mut tree, core.len())?;
    round_of(tree, end)
}

/// What a round came to whose tree ended so.
fn round_of(tree: Tree<'_>, end: End) -> Result<Round, Limit> {
    Ok(Round {
        best: tree.best.copied()?,
        steps: tree.steps,
        end,
    })
}

/// What a tree came to.
fn ended(proving: &Proving<'_>, tree: &Tree<'_>, stop: Stop) -> Result<Answer, Limit> {
    let alloc = proving.alloc;
    let layout = &proving.layout;
    let ones = tree.best.columns(alloc, layout)?;
    let objective = tree.best.objective;
    let ties = columns_of(alloc, layout, tree.ties.as_slice())?;
    match stop {
        Stop::TooMany => Ok(Answer::TooMany(ties)),
        Stop::Better | Stop::Limit => Ok(Answer::NotProved { ones, objective }),
        Stop::Done => {
            let text = certificate_of(alloc, proving.program, layout, tree.nodes.as_slice())?;
            Ok(match text {
                Some(certificate) => Answer::Proved(Proof {
                    ones,
                    objective,
                    ties,
                    certificate,
                }),
                None => Answer::NotProved { ones, objective },
            })
        }
    }
}

/// Searches a program for what is to be proved of it. Numbers that are too large for a certificate end it without one.
pub fn prove(alloc: Global, program: &Selection<'_>, task: Task<'_>) -> Result<Answer, AllocError> {
    match search(alloc, program, task) {
        Ok(answer) => Ok(answer),
        Err(Limit::Memory) => Err(AllocError),
        Err(Limit::TooLarge) => Ok(Answer::NotProved {
            ones: task.known.to_vec(alloc)?,
            objective: 0,
        }),
    }
}

/// The points that are left out, by the places of their columns.
fn places_left_out(
    alloc: Global,
    layout: &Layout,
    points: &[Vec<usize>],
) -> Result<Vec<Vec<usize>>, AllocError> {
    let mut left_out = Vec::new(alloc);
    for columns in points {
        left_out.push(places_of(alloc, layout, columns.as_slice())?)?;
    }
    Ok(left_out)
}

/// Leaves points out of a layout.
fn leave_out(layout: &mut Layout, points: &[Vec<usize>]) -> Result<(), AllocError> {
    for ones in points {
        layout.leave_out(ones.as_slice())?;
    }
    Ok(())
}

/// The point that a search begins at.
fn first_best(alloc: Global, layout: &Layout, task: &Task<'_>) -> Result<Best, AllocError> {
    let mut best = Best::of_columns(alloc, layout, task.known)?;
    if let Some(least) = task.least {
        best.objective = least;
    }
    Ok(best)
}

/// A search that is about to begin.
fn begun<'p>(
    alloc: Global,
    program: &'p Selection<'p>,
    task: &Task<'_>,
    mut layout: Layout,
) -> Result<Proving<'p>, AllocError> {
    let left_out = places_left_out(alloc, &layout, task.left_out)?;
    let best = first_best(alloc, &layout, task)?;
    leave_out(&mut layout, left_out.as_slice())?;
    let root = solve_root(alloc, &layout)?;
    Ok(Proving {
        alloc,
        program,
        layout,
        left_out,
        aim: task.aim,
        steps: root.steps,
        root,
        best,
        most_steps: task.most_steps,
    })
}

/// Searches round after round.
fn search_on(proving: &mut Proving<'_>) -> Result<Answer, Limit> {
    proving.take_first()?;
    for _ in 0..u64::MAX {
        if let Some(answer) = proving.round()? {
            return Ok(answer);
        }
    }
    Ok(proving.not_proved()?)
}

fn search<'p>(alloc: Global, program: &'p Selection<'p>, task: Task<'_>) -> Result<Answer, Limit> {
    let Some(layout) = lay_out(alloc, program)? else {
        return Ok(Answer::NotProved {
            ones: task.known.to_vec(alloc)?,
            objective: 0,
        });
    };
    let mut proving = begun(alloc, program, &task, layout)?;
    search_on(&mut proving)
}
