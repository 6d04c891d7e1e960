//! Laws over the definitions alone: which fault is the first, what presolve may drop so that nothing is lost, and the limits, each with its number.

ghost use Rattle.std.specs.Prelude.{◌≡◌, ◌↔◌, ℕ, List, [], Ok, Some};
ghost use Rattle.auction_terms.specs.Accepted.{AreOfItems, StaysFaultless};
ghost use Rattle.auction_terms.specs.FirstOfAll.{FirstIsOfFirstFaulty};
ghost use Rattle.auction_terms.specs.FaultsOfRules.{RulesFaultsAreOfRecords};
ghost use Rattle.auction_terms.specs.Described.{DescribeRules, DescribesGroups};
ghost use Rattle.auction_terms.specs.GroupsText.{group_faults, groups_of, line_faults, name_faults};
ghost use Rattle.auction_terms.specs.AcceptedGroups.{AreGroupLines};
ghost use Rattle.auction_terms.specs.AcceptedRules.{AreRulesRecords};
ghost use Rattle.auction_terms.specs.Packages.{SmallerFits, SmallerLoadsNoMore};
ghost use Rattle.auction_terms.specs.Allocations.{LoadsAddUp, TotalsAreNets};
ghost use Rattle.auction_terms.specs.Domination.{SmallerSizesSuffice};
ghost use Rattle.auction_terms.specs.Keeping.{KeepsTheBest, KeptAreEnough};
ghost use Rattle.auction_terms.specs.Limits.{KeptAreOffers};
ghost use Rattle.auction_terms.specs.Records.{Record};
ghost use Rattle.auction_terms.specs.RulesText.{fault_of_entry, rules_faults, rules_of_records, version_of};
ghost use Rattle.auction_terms.specs.Terms.{Terms};
ghost use Rattle.auction_terms.specs.declared.record_kinds.Version.{Version};
ghost use Rattle.auction_terms.specs.declared.rules.Bidder.{Bidder};
ghost use Rattle.auction_terms.specs.declared.limits.TheConstants.{GREATEST_AMOUNT, GREATEST_POINTS, GREATEST_QUANTITY};
ghost use Rattle.auction_terms.specs.declared.limits.TheConstants.{GREATEST_VALUE, GREATEST_WEIGHT, MOST_BIDDERS, MOST_BIDS};
ghost use Rattle.auction_terms.specs.declared.limits.TheConstants.{FRONT_LEN, MOST_CATEGORIES, MOST_FAULTS, MOST_GROUPS, MOST_PARTS, MOST_POOLS, MOST_TIES};
ghost use Rattle.auction_terms.specs.declared.limits.TheConstants.{MOST_SESSIONS, MOST_WORKERS, TEXT_LIMIT};

/// Each fault that is reported of a list, whatever its items are checked for, is one that an item has by the accepted ones before it; these have none.
pub fn faults_of_a_list_are_of_its_items<R, F>()
    ensures { (faults_of : ℕ → List R → R → List F) → StaysFaultless faults_of
        → AreOfItems faults_of }
{}

/// The first of all faults of a list, whatever its items are checked for, is the first fault of the first item that has one.
pub fn the_first_fault_is_of_the_first_faulty_item<R, F>()
    ensures { (faults_of : ℕ → List R → R → List F) → FirstIsOfFirstFaulty faults_of }
{}

/// The first fault of the records of rules is of the first record that has one.
pub fn records_of_rules_tell_their_first_fault()
    ensures { (version : Version) → FirstIsOfFirstFaulty (fault_of_entry version) }
{}

/// The first fault of the lines of groups is of the first line that has one.
pub fn lines_of_groups_tell_their_first_fault()
    ensures { (bidders : List Bidder) → FirstIsOfFirstFaulty (λ place before line.
        line_faults bidders place line) }
{}

/// The first fault of the names in a line of groups is of the first name that has one.
pub fn names_of_a_group_tell_their_first_fault()
    ensures { (bidders : List Bidder) (line : ℕ) → FirstIsOfFirstFaulty (name_faults bidders line) }
{}

/// After a header that gives a version, the faults of rules are those of their records, by the accepted ones before them.
pub fn faults_of_rules_are_of_their_records()
    ensures rules { (version : Version) (header : Record) (entries : List Record)
        → version_of header ≡ Some version → RulesFaultsAreOfRecords version header entries }
    ensures records { (version : Version) → AreOfItems (fault_of_entry version) }
{}

/// A text of rules has no fault exactly if its records may be those of rules; and the rules that they describe are what is read.
pub fn accepted_rules_are_these()
    ensures accepted { (records : List Record) → rules_faults records ≡ [] ↔ AreRulesRecords records }
    ensures read { (records : List Record) (rules : Terms)
        → rules_of_records records ≡ Ok rules ↔ DescribeRules records rules }
{}

/// A text of groups has no fault exactly if each of its lines may be one of them; and the groups that they describe are what is read.
pub fn accepted_groups_are_these()
    ensures accepted { (bidders : List Bidder) (text : List ℕ)
        → group_faults bidders text ≡ [] ↔ AreGroupLines bidders text }
    ensures read { (bidders : List Bidder) (text : List ℕ) (groups : List (List ℕ))
        → groups_of bidders text ≡ Ok groups ↔ DescribesGroups bidders text groups }
{}

/// The faults of groups are those of their lines, each by itself.
pub fn faults_of_groups_are_of_their_lines()
    ensures { (bidders : List Bidder) → AreOfItems (λ place before line.
        line_faults bidders place line) }
{}

/// The faults of the names in a line of groups are those of the names, by the accepted ones before them.
pub fn faults_of_a_group_are_of_its_names()
    ensures { (bidders : List Bidder) (line : ℕ) → AreOfItems (name_faults bidders line) }
{}

/// A package that is at most another loads no pool more.
pub fn a_smaller_package_loads_no_more()
    ensures { SmallerLoadsNoMore }
{}

/// A package that is at most another fits where that one does.
pub fn a_smaller_package_fits()
    ensures { SmallerFits }
{}

/// What packages together load a pool is the sum of their loads.
pub fn loads_add_up()
    ensures { LoadsAddUp }
{}

/// The total of an allocation that fits is what all lots are worth, and the sum of its nets.
pub fn totals_are_nets()
    ensures { TotalsAreNets }
{}

/// Every bid that fits has a net below 0, or is kept, or a kept bid of its form has a package at most its own and a net at least its own.
pub fn a_kept_bid_stands_in()
    ensures { KeepsTheBest }
{}

/// Every feasible allocation is matched by one of kept bids, whose total isn't lower.
pub fn kept_bids_are_enough()
    ensures { KeptAreEnough }
{}

/// A bid is dominated exactly where a bid of smaller size dominates it.
pub fn smaller_sizes_are_enough()
    ensures { SmallerSizesSuffice }
{}

/// The kept bids of a book within the limits are within the limits, by rising bidder, then bid.
pub fn kept_bids_are_offers()
    ensures { KeptAreOffers }
{}

/// The limits of an auction are these numbers.
pub fn the_limits_are_these()
    ensures categories { MOST_CATEGORIES ≡ 32 }
    ensures bidders { MOST_BIDDERS ≡ 256 }
    ensures sessions { MOST_SESSIONS ≡ 8 }
    ensures pools { MOST_POOLS ≡ 16 }
    ensures bids { MOST_BIDS ≡ 4000 }
    ensures groups { MOST_GROUPS ≡ 1024 }
    ensures workers { MOST_WORKERS ≡ 64 }
    ensures quantity { GREATEST_QUANTITY ≡ 10000 }
    ensures amount { GREATEST_AMOUNT ≡ 1000000000000 }
    ensures value { GREATEST_VALUE ≡ 1000000000000 }
    ensures points { GREATEST_POINTS ≡ 1000000 }
    ensures weight { GREATEST_WEIGHT ≡ 10000 }
    ensures faults { MOST_FAULTS ≡ 10000 }
    ensures front { FRONT_LEN ≡ 41 }
    ensures parts { MOST_PARTS ≡ 1000000 }
    ensures ties { MOST_TIES ≡ 64 }
    ensures text { TEXT_LIMIT ≡ 4194304 }
{}
