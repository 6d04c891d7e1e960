//! The limits of solutions.

/// The greatest length of a solution, 64 MiB.
pub const SOLUTION_LIMIT: usize = 64 * 1024 * 1024;

/// A value counts as a whole number that is at most one part in so many away from it.
pub const TOLERANCE_PARTS: u128 = 100_000;
