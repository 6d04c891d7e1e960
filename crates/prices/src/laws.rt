//! Which prices suffice, what a certificate shows of it, and what weights show of the prices of the rule: laws of the definitions
//! alone.

ghost use Rattle.prices.specs.Alone.{ListedAreCostsAlone};
ghost use Rattle.prices.specs.Blocking.{KeptBidsSuffice, SufficeIffNoneBlocks, UnblockedIsGreatest, UnblockedSuffice};
ghost use Rattle.prices.specs.Following.{ExactPricesFollow, ThePricesFollow};
ghost use Rattle.prices.specs.Parts.{ThePricesAreOne};
ghost use Rattle.prices.specs.Prices.{EveryGroupHasACost};
ghost use Rattle.prices.specs.Raised.{RaisedBoundExcludesBlocking, ShownSuffice};
ghost use Rattle.prices.specs.Rounding.{RoundedUpIsOne, RoundedUpSuffice};
ghost use Rattle.prices.specs.Rule.{ShownAreThePrices};

/// If no feasible allocation blocks, which is to have a total above the revenue and its bidders' surplus, then prices that are at
/// least the reserves suffice.
pub fn unblocked_prices_suffice()
    ensures { UnblockedSuffice }
{}

/// Then the winners' allocation is of greatest total, too.
pub fn an_unblocked_allocation_is_greatest()
    ensures { UnblockedIsGreatest }
{}

/// No feasible allocation blocks if none of kept bids does.
pub fn kept_bids_suffice_to_block()
    ensures { KeptBidsSuffice }
{}

/// In a book within the limits prices suffice if and only if no feasible allocation blocks.
pub fn prices_suffice_if_and_only_if_none_blocks()
    ensures { SufficeIffNoneBlocks }
{}

/// Every group has a cost, whoever is in it.
pub fn every_group_has_a_cost()
    ensures { EveryGroupHasACost }
{}

/// No feasible allocation blocks if and only if minus the revenue is a bound on the program of the kept bids with raised costs.
pub fn a_raised_bound_excludes_blocking()
    ensures { RaisedBoundExcludesBlocking }
{}

/// So one certificate shows that prices suffice.
pub fn a_certificate_shows_that_prices_suffice()
    ensures { ShownSuffice }
{}

/// What listed groups give is what the winners cost alone, by whichever allocations of greatest total without them.
pub fn listed_costs_are_costs_alone()
    ensures { ListedAreCostsAlone }
{}

/// Weights show that prices that suffice are the prices of the rule: no others have a lower sum, and none of that sum are as near to
/// what each winner costs alone.
pub fn weights_show_the_prices()
    ensures { ShownAreThePrices }
{}

/// There is at most one vector of prices of the rule.
pub fn the_prices_are_one()
    ensures { ThePricesAreOne }
{}

/// Rounded up to whole pounds, prices that suffice cover every group and meet the reserves.
pub fn rounded_up_prices_suffice()
    ensures { RoundedUpSuffice }
{}

/// Rounded up, the prices of the rule are the same whole pounds, whoever finds them.
pub fn rounded_up_prices_are_one()
    ensures { RoundedUpIsOne }
{}

/// So whole prices of the rule follow from the rules, the bids and the winners alone.
pub fn the_prices_follow()
    ensures { ThePricesFollow }
{}

/// The exact ones follow, too: they are the same amounts, whatever parts of a pound they are in.
pub fn the_exact_prices_follow()
    ensures { ExactPricesFollow }
{}
