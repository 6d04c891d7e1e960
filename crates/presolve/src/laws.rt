//! Laws over the definitions alone: what the reasons have to do with what is kept.

ghost use Rattle.presolve.specs.Reasons.{KeptWithoutReason};

/// A bid is kept just where there is no reason to leave it out.
pub fn a_bid_is_kept_just_without_a_reason()
    ensures { KeptWithoutReason }
{}
