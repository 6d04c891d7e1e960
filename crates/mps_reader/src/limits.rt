//! The limits of programs.

/// The greatest length of an MPS text, 64 MiB.
pub const PROGRAM_LIMIT: usize = 64 * 1024 * 1024;
