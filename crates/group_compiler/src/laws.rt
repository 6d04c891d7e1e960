//! Laws over the definitions alone: what the text of a group is joined from, and the numbers of the limits.

ghost use Rattle.std.specs.Prelude.{◌≡◌};
ghost use Rattle.group_compiler.specs.Joining.{TextIsJoined};
ghost use Rattle.group_compiler.specs.declared.limits.TheConstants.{ALL_DRAWS, WORKER_DRAWS};

/// The limits of what workers draw are these numbers.
pub fn the_limits_are_these()
    ensures draws { WORKER_DRAWS ≡ 1025 }
    ensures all { ALL_DRAWS ≡ 65600 }
{}

/// The text of the program of the kept bids without a group is joined from the pages of the bidders outside it, and that of the lots.
pub fn a_text_is_joined_from_pages()
    ensures { TextIsJoined }
{}
