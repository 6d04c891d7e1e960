//! The limit of programs, as a law of its number alone.

ghost use Rattle.std.specs.Prelude.{◌≡◌};
ghost use Rattle.mps_reader.specs.declared.limits.TheConstants.{PROGRAM_LIMIT};

/// An MPS text has at most so many bytes.
pub fn the_limits_are_these()
    ensures { PROGRAM_LIMIT ≡ 67108864 }
{}
