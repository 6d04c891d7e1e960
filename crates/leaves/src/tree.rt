//! The tree of a search. It goes down the side of a split first that has more of the point; the text has the low sides first.

ghost use Rattle.optimality.specs.Checking.{IsPrepared};

use crate::judging::{Place, judged, judged_point};
use crate::layout::Layout;
use crate::path::{Side, split_from};
use crate::point::{Best, is_feasible};
use crate::root::{ones_of, prices_of};
use crate::text::{Node, line_of};
use branching::{Candidate, Node as Known, Search, Split};
use optimality::{Checker, Leaf, Limit, OpenSplit, Sums};
use simplex::{Ray, Tableau};
use std::alloc::{AllocError, Global};

/// How many cells the tableaus of open nodes have at most; beyond that they are made anew.
const OPEN_CELLS: usize = 16_000_000;

/// Columns are fixed at a node if they are this part of the open ones, in tenths.
const FIXED_TENTHS: usize = 1;

/// By how much rounding may lift a bound that isn't judged, as a part of it.
const MARGIN: f64 = 1e-7;

/// By how much rounding may lift a bound that is judged.
const TINY: f64 = 1e-9;

/// What a search looks for.
#[derive(Clone, Copy, PartialEq, Eq, Debug)]
pub enum Aim {
    /// A point that is better than the best one, and a certificate that there is none.
    Better,
    /// All points that are as good as the best one, up to so many. There is no certificate.
    Ties(usize),
}

/// Why a search stops.
#[derive(Clone, Copy, PartialEq, Eq, Debug)]
pub enum Stop {
    Done,
    /// A better point was found.
    Better,
    /// The steps are used up, or a node can't be shown.
    Limit,
    /// There are more points than are wanted.
    TooMany,
}

/// Where a node is: its place among the nodes, how many splits are above it, and on which side of the last of them it is.
#[derive(Clone, Copy, Debug)]
struct Spot {
    place: usize,
    depth: usize,
    is_high: bool,
}

/// A node to come.
#[derive(Drop)]
struct OpenNode {
    spot: Spot,
    tableau: Option<Tableau>,
}

/// What came of a point.
enum Taken {
    Nothing,
    Better,
    /// There are more points as good than are wanted.
    TooMany,
}

/// What the columns of a search are, and what it looks for.
#[derive(Clone, Copy)]
pub struct Ground<'a> {
    pub alloc: Global,
    pub layout: &'a Layout,
    /// The columns of the problem by their places in the layout, rising.
    pub core: &'a [usize],
    pub aim: Aim,
}

#[derive(Drop)]
pub struct Tree<'a> {
    ground: Ground<'a>,
    search: Search<'a>,
    pub best: Best,
    /// The points that are as good as the best one, with it.
    pub ties: Vec<Vec<usize>>,
    pub nodes: Vec<Node>,
    pub steps: u64,
    sums: Sums,
    sides: Vec<Side>,
    splits: Vec<OpenSplit>,
    open: Vec<OpenNode>,
    open_cells: usize,
    root: Tableau,
}

impl<'a> Tree<'a> {
    /// A tree of one node, with the splits of the points that are left out.
    pub fn new(
        ground: Ground<'a>,
        search: Search<'a>,
        root: Tableau,
        best: Best,
        left_out: &[Vec<usize>],
    ) -> Result<Tree<'a>, AllocError> {
        let alloc = ground.alloc;
        let mut splits = Vec::new(alloc);
        for ones in left_out {
            splits.push(split_from(alloc, ground.layout, ones.as_slice())?)?;
        }
        let mut nodes = Vec::new(alloc);
        nodes.push(Node::Open)?;
        let mut open = Vec::new(alloc);
        open.push(OpenNode {
            spot: Spot {
                place: 0,
                depth: 0,
                is_high: false,
            },
            tableau: Some(root.copied(alloc)?),
        })?;
        let mut ties = Vec::new(alloc);
        if let Aim::Ties(_) = ground.aim {
            ties.push(best.ones.clone()?)?;
        }
        let open_cells = root.size();
        let mut tree = Tree {
            ground,
            search,
            best,
            ties,
            nodes,
            steps: 0,
            sums: Sums::new(alloc),
            sides: Vec::new(alloc),
            splits,
            open,
            open_cells,
            root,
        };
        tree.set_goal();
        Ok(tree)
    }

    /// Sets the objective that a point has to have.
    fn set_goal(&mut self) {
        let layout = self.ground.layout;
        self.search.goal = match self.ground.aim {
            Aim::Better => {
                let goal = layout.in_units(self.best.objective.saturating_sub(1));
                goal + TINY * (goal.abs() + 1.0)
            }
            Aim::Ties(_) => {
                let goal = layout.in_units(self.best.objective);
                goal + MARGIN * (goal.abs() + 1.0)
            }
        };
    }

    /// How much is missing of the goal at a bound.
    pub fn gap(&self, bound: f64) -> f64 {
        self.search.goal - bound
    }

    /// Grows the tree until it is whole, a better point is found, or the steps are used up.
    pub fn grow(&mut self, checker: &Checker<'_>, most_steps: u64) -> Result<Stop, Limit>
        requires { IsPrepared checker.now }
    {
        for _ in 0..u64::MAX {
            let Some(node) = self.open.pop() else {
                return Ok(Stop::Done);
            };
            if let Some(stop) = self.visit(checker, node)? {
                return Ok(stop);
            }
            self.steps = self.steps.saturating_add(self.search.take_steps());
            if self.steps >= most_steps {
                return Ok(Stop::Limit);
            }
        }
        Ok(Stop::Limit)
    }

    /// Goes to the splits above a node.
    fn enter(&mut self, spot: Spot) {
        let left_out = self.splits.len().saturating_sub(self.sides.len());
        self.sides.truncate(spot.depth);
        self.splits.truncate(left_out.saturating_add(spot.depth));
        self.go_to_side(spot.is_high);
    }

    /// Goes to a side of the last split.
    fn go_to_side(&mut self, is_high: bool) {
        if let Some(side) = self.sides.last_mut() {
            side.is_high = is_high;
            if let Some(split) = self.splits.last_mut() {
                split.is_high = is_high;
            }
        }
    }

    /// The tableau of the node that was entered, from that of the root.
    fn rebuilt(&mut self) -> Result<Tableau, AllocError> {
        let mut tableau = self.root.copied(self.ground.alloc)?;
        self.steps = self.steps.saturating_add(tableau.size() as u64);
        for side in &self.sides {
            apply(&self.ground, &self.search, side, &mut tableau);
        }
        Ok(tableau)
    }

    /// The tableau of the node that was entered, which may have been kept.
    fn taken(&mut self, kept: Option<Tableau>) -> Result<Tableau, AllocError> {
        match kept {
            Some(tableau) => {
                self.open_cells = self.open_cells.saturating_sub(tableau.size());
                Ok(tableau)
            }
            None => self.rebuilt(),
        }
    }

    /// Searches a node: it becomes a leaf or a split.
    fn visit(&mut self, checker: &Checker<'_>, node: OpenNode) -> Result<Option<Stop>, Limit>
        requires { IsPrepared checker.now }
    {
        let OpenNode { spot, tableau } = node;
        self.enter(spot);
        let mut tableau = self.taken(tableau)?;
        match self.search.bound(&mut tableau)? {
            Known::Open => self.visit_open(checker, spot, tableau),
            Known::Above => self.visit_above(checker, spot, tableau),
            Known::Empty(ray) => self.visit_empty(checker, spot.place, tableau, ray),
        }
    }

    /// Searches a node that has no point that is looked for.
    fn visit_above(
        &mut self,
        checker: &Checker<'_>,
        spot: Spot,
        tableau: Tableau,
    ) -> Result<Option<Stop>, Limit>
        requires { IsPrepared checker.now }
    {
        if self.close(checker, spot.place, &tableau, None)? {
            return Ok(None);
        }
        self.visit_open(checker, spot, tableau)
    }

    /// Searches a node that has no point.
    fn visit_empty(
        &mut self,
        checker: &Checker<'_>,
        place: usize,
        tableau: Tableau,
        ray: Ray,
    ) -> Result<Option<Stop>, Limit>
        requires { IsPrepared checker.now }
    {
        if self.close(checker, place, &tableau, Some(ray))? {
            return Ok(None);
        }
        self.part(checker, place, &tableau, &[])
    }

    /// Searches a node whose bound doesn't reach the goal.
    fn visit_open(
        &mut self,
        checker: &Checker<'_>,
        spot: Spot,
        tableau: Tableau,
    ) -> Result<Option<Stop>, Limit>
        requires { IsPrepared checker.now }
    {
        let values = tableau.values(self.ground.alloc)?;
        let candidates = self.search.candidates(values.as_slice())?;
        if candidates.is_empty() {
            return self.visit_whole(checker, spot, tableau, values.as_slice());
        }
        self.divide(checker, spot.place, tableau, candidates.as_slice())?;
        Ok(None)
    }

    /// Searches a node whose relaxation has a whole point.
    fn visit_whole(
        &mut self,
        checker: &Checker<'_>,
        spot: Spot,
        tableau: Tableau,
        values: &[f64],
    ) -> Result<Option<Stop>, Limit>
        requires { IsPrepared checker.now }
    {
        match self.take_point(values)? {
            Taken::Nothing => self.go_on(checker, spot.place, &tableau, values),
            Taken::TooMany => Ok(Some(Stop::TooMany)),
            Taken::Better => {
                self.reopen(spot, tableau)?;
                Ok(Some(Stop::Better))
            }
        }
    }

    /// Goes on at a node whose point is no better.
    fn go_on(
        &mut self,
        checker: &Checker<'_>,
        place: usize,
        tableau: &Tableau,
        values: &[f64],
    ) -> Result<Option<Stop>, Limit>
        requires { IsPrepared checker.now }
    {
        if self.ground.aim == Aim::Better && self.close(checker, place, tableau, None)? {
            return Ok(None);
        }
        let ones = core_ones(self.ground.alloc, values, self.ground.core.len())?;
        self.part(checker, place, tableau, ones.as_slice())
    }

    /// Takes the point with these values, if it is better than the best one, or as good where such points are looked for.
    fn take_point(&mut self, values: &[f64]) -> Result<Taken, AllocError> {
        let ones = ones_of(self.ground.alloc, values, self.ground.core)?;
        if !is_feasible(self.ground.layout, ones.as_slice()) {
            return Ok(Taken::Nothing);
        }
        let point = Best::of_ones(self.ground.layout, ones);
        if point.objective < self.best.objective {
            self.best = point;
            self.set_goal();
            return Ok(Taken::Better);
        }
        if self.take_tie(point)? {
            return Ok(Taken::TooMany);
        }
        Ok(Taken::Nothing)
    }

    /// Takes a point that is as good as the best one, if such points are looked for. Whether there are too many.
    fn take_tie(&mut self, point: Best) -> Result<bool, AllocError> {
        let Aim::Ties(most) = self.ground.aim else {
            return Ok(false);
        };
        if point.objective == self.best.objective && !self.is_known(point.ones.as_slice()) {
            self.ties.push(point.ones)?;
        }
        Ok(self.ties.len() > most)
    }

    /// Whether these are the columns of a point that was found.
    fn is_known(&self, ones: &[usize]) -> bool {
        self.ties.iter().any(|known| known.as_slice() == ones)
    }

    fn set_node(&mut self, place: usize, node: Node) {
        if let Some(slot) = self.nodes.get_mut(place) {
            *slot = node;
        }
    }

    /// Has a node come again.
    fn reopen(&mut self, spot: Spot, tableau: Tableau) -> Result<(), AllocError> {
        self.open_cells = self.open_cells.saturating_add(tableau.size());
        self.open.push(OpenNode {
            spot,
            tableau: Some(tableau),
        })?;
        Ok(())
    }

    /// The prices of the shared rows, moved along the ray where no point is left.
    fn prices(&self, tableau: &Tableau, ray: Option<Ray>) -> Result<Vec<f64>, AllocError> {
        let problem = self.search.problem;
        let first = problem.row_slack(0);
        let mut prices = prices_of(self.ground.alloc, tableau, first, problem.right_sides.len())?;
        if let Some(ray) = ray {
            if let Some(row) = tableau.rows.get(ray.row) {
                let missing = (self.search.goal - tableau.objective()).max(0.0);
                let rise = missing * 2.0 + self.search.goal.abs() * 0.02 + 10.0;
                let far = ray.ratio + rise / ray.slope;
                for (price, cell) in prices.iter_mut().zip(row.cells.iter().skip(first)) {
                    let change = if ray.is_low { *cell } else { -*cell };
                    *price = (*price + far * change).max(0.0);
                }
            }
        }
        Ok(prices)
    }

    fn leaf(&mut self, checker: &Checker<'_>, prices: &[f64]) -> Result<Option<Leaf>, Limit>
        requires { IsPrepared checker.now }
    {
        let place = Place {
            layout: self.ground.layout,
            sides: self.sides.as_slice(),
            splits: self.splits.as_slice(),
        };
        self.steps = self
            .steps
            .saturating_add(self.ground.layout.columns.len() as u64);
        judged(checker, &mut self.sums, &place, prices)
    }

    /// Closes a node by the prices of its tableau. Whether the checker takes a leaf of them; where ties are looked for, nothing is
    /// written.
    fn close(
        &mut self,
        checker: &Checker<'_>,
        place: usize,
        tableau: &Tableau,
        ray: Option<Ray>,
    ) -> Result<bool, Limit>
        requires { IsPrepared checker.now }
    {
        if self.ground.aim != Aim::Better {
            self.set_node(place, Node::Leaf(Vec::new(self.ground.alloc)));
            return Ok(true);
        }
        let prices = self.prices(tableau, ray)?;
        match self.leaf(checker, prices.as_slice())? {
            Some(leaf) => {
                self.write_leaf(checker, place, &leaf)?;
                Ok(true)
            }
            None => Ok(false),
        }
    }

    /// Makes a node a leaf.
    fn write_leaf(
        &mut self,
        checker: &Checker<'_>,
        place: usize,
        leaf: &Leaf,
    ) -> Result<(), Limit> {
        let line = line_of(self.ground.alloc, checker.program, leaf)?;
        self.set_node(place, Node::Leaf(line));
        Ok(())
    }

    /// Splits a node where its first block has more than one choice left, or closes it as one of a single point.
    fn part(
        &mut self,
        checker: &Checker<'_>,
        place: usize,
        tableau: &Tableau,
        ones: &[usize],
    ) -> Result<Option<Stop>, Limit>
        requires { IsPrepared checker.now }
    {
        match self.search.part_off(tableau, ones) {
            Some(split) => {
                let chosen = Candidate { split, part: 1.0 };
                let tableau = tableau.copied(self.ground.alloc)?;
                self.push_sides(place, tableau, chosen)?;
                Ok(None)
            }
            None => self.close_point(checker, place),
        }
    }

    /// Closes a node of a single point.
    fn close_point(&mut self, checker: &Checker<'_>, place: usize) -> Result<Option<Stop>, Limit>
        requires { IsPrepared checker.now }
    {
        if self.ground.aim != Aim::Better {
            self.set_node(place, Node::Leaf(Vec::new(self.ground.alloc)));
            return Ok(None);
        }
        let shown = Place {
            layout: self.ground.layout,
            sides: self.sides.as_slice(),
            splits: self.splits.as_slice(),
        };
        let Some(leaf) = judged_point(checker, &mut self.sums, &shown)? else {
            return Ok(Some(Stop::Limit));
        };
        self.write_leaf(checker, place, &leaf)?;
        Ok(None)
    }

    /// Splits a node by one of these, and before that fixes columns that are too costly: the tries are of what is left.
    fn divide(
        &mut self,
        checker: &Checker<'_>,
        place: usize,
        mut tableau: Tableau,
        candidates: &[Candidate],
    ) -> Result<(), Limit>
        requires { IsPrepared checker.now }
    {
        let place = self.fix_costly(checker, place, &mut tableau)?;
        if let Some(chosen) = self.search.choose(&tableau, candidates)? {
            self.push_sides(place, tableau, chosen)?;
        }
        Ok(())
    }

    /// Fixes the columns that are too costly at a node, if they are many. The node that is left.
    fn fix_costly(
        &mut self,
        checker: &Checker<'_>,
        place: usize,
        tableau: &mut Tableau,
    ) -> Result<usize, Limit>
        requires { IsPrepared checker.now }
    {
        let costly = self.search.costly(tableau)?;
        if !self.is_worth(costly.len(), tableau) {
            return Ok(place);
        }
        match self.ground.aim {
            // Nothing is written of it.
            Aim::Ties(_) => {
                close_all(tableau, costly.as_slice());
                Ok(place)
            }
            Aim::Better => self.fix_shown(checker, place, tableau, costly.as_slice()),
        }
    }

    /// Whether so many columns are a part of the open ones that is worth a split.
    fn is_worth(&self, count: usize, tableau: &Tableau) -> bool {
        let columns = tableau.columns.iter().take(self.ground.core.len());
        let open = columns.filter(|column| column.high > 0.0).count();
        count > 0 && count.saturating_mul(10) >= open.saturating_mul(FIXED_TENTHS)
    }

    /// Fixes columns at a node, if the checker takes that. The node that is left.
    fn fix_shown(
        &mut self,
        checker: &Checker<'_>,
        place: usize,
        tableau: &mut Tableau,
        costly: &[usize],
    ) -> Result<usize, Limit>
        requires { IsPrepared checker.now }
    {
        let columns = self.places_of(costly)?;
        let prices = self.prices(tableau, None)?;
        let Some(below) = self.fix(checker, place, columns, prices.as_slice())? else {
            return Ok(place);
        };
        close_all(tableau, costly);
        Ok(below)
    }

    /// The places in the layout of columns of the problem.
    fn places_of(&self, columns: &[usize]) -> Result<Vec<usize>, AllocError> {
        let mut places = Vec::with_capacity(self.ground.alloc, columns.len())?;
        for column in columns {
            if let Some(place) = self.ground.core.get(*column) {
                places.push(*place)?;
            }
        }
        Ok(places)
    }

    /// Fixes columns to 0 at a node by a split of their own, whose high side the prices show. The node that is left, or nothing if the
    /// checker doesn't take that leaf.
    fn fix(
        &mut self,
        checker: &Checker<'_>,
        place: usize,
        columns: Vec<usize>,
        prices: &[f64],
    ) -> Result<Option<usize>, Limit>
        requires { IsPrepared checker.now }
    {
        self.open_split(Side {
            block: None,
            columns: columns.clone()?,
            is_high: true,
        })?;
        match self.leaf(checker, prices)? {
            Some(leaf) => {
                let line = line_of(self.ground.alloc, checker.program, &leaf)?;
                self.go_to_side(false);
                let (low, _) = self.split_node(place, columns, Node::Leaf(line))?;
                Ok(Some(low))
            }
            None => {
                self.sides.pop();
                self.splits.pop();
                Ok(None)
            }
        }
    }

    /// Goes below a split.
    fn open_split(&mut self, side: Side) -> Result<(), AllocError> {
        let split = side.open_split(self.ground.alloc, self.ground.layout)?;
        self.splits.push(split)?;
        self.sides.push(side)?;
        Ok(())
    }

    /// Makes a node a split, with this node on its high side. The places of its sides, the low one first.
    fn split_node(
        &mut self,
        place: usize,
        columns: Vec<usize>,
        high_node: Node,
    ) -> Result<(usize, usize), AllocError> {
        let low = self.nodes.len();
        self.nodes.push(Node::Open)?;
        let high = self.nodes.len();
        self.nodes.push(high_node)?;
        self.set_node(place, Node::Split { columns, low, high });
        Ok((low, high))
    }

    /// Fixes columns at the root, before anything else. Whether the checker takes that.
    pub fn fix_root(
        &mut self,
        checker: &Checker<'_>,
        columns: Vec<usize>,
        prices: &[f64],
    ) -> Result<bool, Limit>
        requires { IsPrepared checker.now }
    {
        let Some(below) = self.fix(checker, 0, columns, prices)? else {
            return Ok(false);
        };
        if let Some(node) = self.open.last_mut() {
            node.spot.place = below;
            node.spot.depth = self.sides.len();
        }
        Ok(true)
    }

    /// The columns of the layout that a split is about and that are still open.
    fn columns_of(&self, split: Split, tableau: &Tableau) -> Result<Vec<usize>, AllocError> {
        let problem = self.search.problem;
        let mut columns = Vec::new(self.ground.alloc);
        let Some(block) = problem.blocks.get(split.block) else {
            return Ok(columns);
        };
        let places = self.ground.core.iter().zip(&tableau.columns);
        let all = problem.columns.iter().zip(places).enumerate();
        for (number, (column, (place, bounds))) in all.skip(block.start).take(block.len) {
            if bounds.high > 0.0 && split.counts(number, column) {
                columns.push(*place)?;
            }
        }
        Ok(columns)
    }

    /// A copy of a tableau for an open node, if there is room.
    fn kept_copy(&mut self, tableau: &Tableau) -> Result<Option<Tableau>, AllocError> {
        let cells = self.open_cells.saturating_add(tableau.size());
        if cells > OPEN_CELLS {
            return Ok(None);
        }
        self.open_cells = cells;
        Ok(Some(tableau.copied(self.ground.alloc)?))
    }

    /// A side of a split to come later: its tableau, if there is room.
    fn kept_side(
        &mut self,
        split: Split,
        tableau: &Tableau,
        is_high: bool,
    ) -> Result<Option<Tableau>, AllocError> {
        match self.kept_copy(tableau)? {
            Some(mut kept) => {
                split.apply(self.search.problem, &mut kept, is_high);
                Ok(Some(kept))
            }
            None => Ok(None),
        }
    }

    /// Splits a node.
    fn push_sides(
        &mut self,
        place: usize,
        tableau: Tableau,
        chosen: Candidate,
    ) -> Result<(), AllocError> {
        let split = chosen.split;
        let columns = self.columns_of(split, &tableau)?;
        self.open_split(Side::low(split.block, columns.clone()?))?;
        let (low, high) = self.split_node(place, columns, Node::Open)?;
        // The side that has more of the point comes first.
        let is_high_first = chosen.part > 0.5;
        let (first, later) = if is_high_first {
            (high, low)
        } else {
            (low, high)
        };
        let kept = self.kept_side(split, &tableau, !is_high_first)?;
        self.push_node(later, !is_high_first, kept)?;
        self.push_first(first, is_high_first, split, tableau)
    }

    /// Has the side of a split come first whose tableau is made of the node's own.
    fn push_first(
        &mut self,
        place: usize,
        is_high: bool,
        split: Split,
        mut tableau: Tableau,
    ) -> Result<(), AllocError> {
        self.open_cells = self.open_cells.saturating_add(tableau.size());
        split.apply(self.search.problem, &mut tableau, is_high);
        self.push_node(place, is_high, Some(tableau))
    }

    /// Has a side of the last split come.
    fn push_node(
        &mut self,
        place: usize,
        is_high: bool,
        tableau: Option<Tableau>,
    ) -> Result<(), AllocError> {
        let depth = self.sides.len();
        let spot = Spot {
            place,
            depth,
            is_high,
        };
        self.open.push(OpenNode { spot, tableau })?;
        Ok(())
    }
}

/// The columns of the problem that are 1.
fn core_ones(alloc: Global, values: &[f64], count: usize) -> Result<Vec<usize>, AllocError> {
    let mut ones = Vec::new(alloc);
    for (place, value) in values.iter().enumerate().take(count) {
        if *value > 0.5 {
            ones.push(place)?;
        }
    }
    Ok(ones)
}

/// Leaves no room for columns.
fn close_all(tableau: &mut Tableau, columns: &[usize]) {
    for column in columns {
        tableau.set_high(*column, 0.0);
    }
}

/// Goes to a side in a tableau.
fn apply(ground: &Ground<'_>, search: &Search<'_>, side: &Side, tableau: &mut Tableau) {
    match side.block {
        Some(block) if side.is_high => require(ground, search, block, side, tableau),
        _ => exclude(ground, side, tableau),
    }
}

fn exclude(ground: &Ground<'_>, side: &Side, tableau: &mut Tableau) {
    for place in &side.columns {
        if let Ok(column) = ground.core.binary_search(place) {
            tableau.set_high(column, 0.0);
        }
    }
}

fn require(
    ground: &Ground<'_>,
    search: &Search<'_>,
    number: usize,
    side: &Side,
    tableau: &mut Tableau,
) {
    let Some(block) = search.problem.blocks.get(number) else {
        return;
    };
    let places = ground.core.iter().enumerate();
    for (column, place) in places.skip(block.start).take(block.len) {
        if side.columns.binary_search(place).is_err() {
            tableau.set_high(column, 0.0);
        }
    }
    tableau.set_high(search.problem.block_slack(number), 0.0);
}
