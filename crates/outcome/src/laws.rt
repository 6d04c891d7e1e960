//! Laws of the definitions: what a solution comes back to, and what costs say of best allocations.

ghost use Rattle.std.specs.Prelude.{◌≡◌, ℕ, List};
ghost use Rattle.auction_terms.specs.FirstFault.{TellsTheFirst};
ghost use Rattle.outcome.specs.Coming.{AnswersOfSolversComeBack, PointsComeBack, SolutionsArePoints, SolutionsComeBack, SomeBidsSuffice};
ghost use Rattle.outcome.specs.Costs.{CostsAreBounded, CostsAreOwn, CostsCoverLots};
ghost use Rattle.outcome.specs.Solution.{solution_line_fault};
ghost use Rattle.outcome.specs.PointAllocation.{TakesWhatIsNamed};
ghost use Rattle.outcome.specs.Following.{FollowingAreGreatest, FollowingAreTheRest};
ghost use Rattle.outcome.specs.declared.limits.TheConstants.{SOLUTION_LIMIT, TOLERANCE_PARTS};
ghost use Rattle.outcome.specs.Others.{OthersAreTrue};
ghost use Rattle.outcome.specs.Ties.{OnlyFirstSettlesCosts, OnlyFirstTellsCosts, OthersDiffer, OthersTie, TheOnlyIsGreatest};

/// The lines of a solution have the fault of the first of them with a fault.
pub fn lines_of_solutions_tell_their_first_fault()
    ensures { (columns : List (List ℕ)) → TellsTheFirst (solution_line_fault columns) }
{}

/// The values that a solution describes are a point of the program.
pub fn a_solution_is_a_point()
    ensures { SolutionsArePoints }
{}

/// A point of a faithful program wins a feasible allocation, by rising bidder, whose total is minus the objective.
pub fn a_point_comes_back()
    ensures { PointsComeBack }
{}

/// So are the values that a solution describes against the program of a book's kept bids.
pub fn a_solution_comes_back()
    ensures { SolutionsComeBack }
{}

/// And so are those that it describes against the program that is read from the program's text.
pub fn an_answer_of_a_solver_comes_back()
    ensures { AnswersOfSolversComeBack }
{}

/// A solution that is taken against the program of some of the kept bids is taken against that of all of them, and wins the same.
pub fn some_bids_suffice()
    ensures { SomeBidsSuffice }
{}

/// A point takes a bid as often as columns with the bid's name are 1, and takes nothing else.
pub fn a_point_takes_what_is_named()
    ensures { TakesWhatIsNamed }
{}

/// If the allocations are of greatest total, the opportunity cost of a group is at least 0 and at most what the first allocation
/// gives to its bidders, and the total without them isn't higher.
pub fn a_cost_is_bounded()
    ensures { CostsAreBounded }
{}

/// And it is at least what the lots of its bidders would be worth, were they left.
pub fn a_cost_covers_the_lots()
    ensures { CostsCoverLots }
{}

/// And it is the auction's own: it depends on the greatest totals with the group and without it, and on the amounts of the
/// group's own bids in the first allocation, and not on which allocations of greatest total were found.
pub fn a_cost_is_the_auctions_own()
    ensures { CostsAreOwn }
{}

/// An allocation that is the only one of at least its total is of greatest total.
pub fn the_only_is_greatest()
    ensures { TheOnlyIsGreatest }
{}

/// If one is the only one with nobody left out, all of greatest total have its choices, and costs don't depend on which
/// allocations of greatest total are taken.
pub fn the_only_first_settles_costs()
    ensures { OnlyFirstSettlesCosts }
{}

/// A group's cost then follows from the lots, the book and the group: from the greatest totals with the group and without it, and
/// the amounts of the group's own bids in the only first allocation.
pub fn the_only_first_tells_costs()
    ensures { OnlyFirstTellsCosts }
{}

/// Allocations of rising bidders that differ in a place aren't the same in another order.
pub fn other_choices_differ()
    ensures { OthersDiffer }
{}

/// Another feasible allocation of rising bidders, whose total is no lower than the greatest, ties.
pub fn others_tie()
    ensures { OthersTie }
{}

/// What follows from an award of kept bids and of greatest total is of greatest total, too.
pub fn what_follows_is_as_good()
    ensures { FollowingAreGreatest }
{}

/// Where all allocations of kept bids and of greatest total are known, what follows from them completes all of greatest total, each once.
pub fn what_follows_is_the_rest()
    ensures { FollowingAreTheRest }
{}

/// Where all allocations of kept bids and of greatest total are known, what is printed of others is true: they are of greatest total, no two
/// have the same choices, and there is no other, or there are more.
pub fn what_is_printed_of_others_is_true()
    ensures { OthersAreTrue }
{}

/// The limits of solutions are these numbers.
pub fn the_limits_are_these()
    ensures solution { SOLUTION_LIMIT ≡ 67108864 }
    ensures tolerance { TOLERANCE_PARTS ≡ 100000 }
{}
