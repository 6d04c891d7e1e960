//! The limits of a desk, each by its name.

/// The most bytes of a journal.
pub const JOURNAL_LIMIT: u64 = 1024 * 1024 * 1024;

/// How many of these are for withdrawals and the close alone.
pub const LAST_ROOM: u64 = 1024 * 1024;

/// More bytes than an entry has beside the sealed form.
pub const ENTRY_LEN: u64 = 1_024;

/// The most bytes of a sealed form.
pub const SEALED_LIMIT: usize = 8 * 1024 * 1024;

/// The most bytes of a head line.
pub const HEAD_LIMIT: usize = 1_024;
