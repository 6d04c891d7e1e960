//! Laws of what the program answers.

ghost use Rattle.answers.specs.ExplainedFor.{ExplainsFor};
ghost use Rattle.auction_input.specs.Input.{Input};
ghost use Rattle.auction_input.specs.declared.request.Target.{Target};
ghost use Rattle.answers.specs.FaithfulAnswers.{CompiledIsFaithful, TextIsFaithful};
ghost use Rattle.answers.specs.FeasibleAnswers.{MappedIsFeasible, ReportedIsFeasible};
ghost use Rattle.answers.specs.FollowsFromForms.{AwardFollowsFromForms};
ghost use Rattle.answers.specs.Verified.{AwardFollows, AwardsFollow, NoOtherIsSo, UniqueIsOnly};
ghost use Rattle.answers.specs.VerifiedForms.{AwardFollowsFromDigests, VerifiedWithFormsIsTrue};
ghost use Rattle.answers.specs.VerifiedObjects.{VerifiedObjectsAreTrue};
ghost use Rattle.answers.specs.VerifiedInputs.{VerifiedIsTrue};

/// What `text` answers of an input is a text that is faithful to the auction that the input describes: each 0-1 point of its
/// program maps back to a feasible allocation of the same total, and each feasible allocation is matched by a point of at least
/// its total.
pub fn a_text_is_faithful()
    ensures { TextIsFaithful }
{}

/// What `compile` answers of an input is the line and the text of each group in order, and each text is faithful to the auction
/// that the input describes, with its group left out.
pub fn compiled_texts_are_faithful()
    ensures { CompiledIsFaithful }
{}

/// What `map` answers of an input is the winners of an allocation that is feasible in the auction that the input describes, with the group left out.
pub fn a_mapped_allocation_is_feasible()
    ensures { MappedIsFeasible }
{}

/// What `report` answers of an input is a report on an allocation for each group that is feasible in the auction that the input
/// describes, with the group left out.
pub fn reported_allocations_are_feasible()
    ensures { ReportedIsFeasible }
{}

/// What `verify` answers of an input is a true report on the auction that the input describes.
pub fn a_verified_report_is_true()
    ensures { VerifiedIsTrue }
{}

/// What `verify --forms` answers of an input is the lines of its rules and last forms, and a true report on the auction that the input
/// describes.
pub fn a_report_after_its_forms_is_true()
    ensures { VerifiedWithFormsIsTrue }
{}

/// What `verify --json` answers of an input is the objects of its rules and last forms, and objects that say what a true report on the
/// auction says that the input describes.
pub fn objects_after_their_forms_are_true()
    ensures { VerifiedObjectsAreTrue }
{}

/// Where a true report ends with the line `unique`, no other feasible allocation of the auction has as great a total; and so the
/// winners, and each group's cost, follow from the rules, the bids and the group alone.
pub fn unique_winners_are_the_only_ones()
    ensures { UniqueIsOnly }
{}

/// Where a true report ends with the line `no other`, the awards that it prints are all feasible allocations of greatest total of the
/// auction.
pub fn no_other_winners_than_those_printed()
    ensures { NoOtherIsSo }
{}

/// Of two auctions with the same rules and the same last forms, with prices of the rule and no other award than those that are printed,
/// true reports print the same awards; and if both have the same one first, each of its winners pays the same, and each group that both
/// list has the same total and cost: whoever solved, certified and priced, and whichever groups are listed.
pub fn tied_awards_follow_from_the_bids()
    ensures { AwardsFollow }
{}

/// If true reports on two auctions with the same rules and the same last forms end with the lines `by the rule` and `unique`, both have
/// the same winners with the same bids, each winner pays the same, and each group that both list has the same total and cost: whoever
/// solved, certified and priced, and whichever groups are listed.
pub fn the_award_follows_from_the_bids()
    ensures { AwardFollows }
{}

/// If `verify` answers to two inputs with the same bytes of rules and last forms, and its answers end with the lines `by the rule` and
/// `unique`, both have the same winners with the same bids, and each winner pays the same.
pub fn the_award_follows_from_the_forms()
    ensures { AwardFollowsFromForms }
{}

/// Of two outputs of `verify --forms` with the same lines of forms, whose reports end with the lines `by the rule` and `unique`, the
/// winners, their prices and their exact prices are the same; or two different texts of rules or forms of the two inputs have one digest.
pub fn the_award_follows_from_the_digests()
    ensures { AwardFollowsFromDigests }
{}

/// What `explain` prints for a command is what the command does of the same input: it refuses it for the first fault that is reported, and
/// where none is reported it doesn't refuse it for its parts. `verify` may meet a solution, certificate or text before that it refuses.
pub fn what_is_explained_for_a_command_is_what_it_refuses()
    ensures { (command : Target) (input : Input) → ExplainsFor command input }
{}
