//! The limits of an auction, each by its name. Contracts and definitions cite these constants, so each number is
//! here alone.

/// The most categories of rules, and the most quantities of a package.
pub const MOST_CATEGORIES: usize = 32;

/// The most bidders of rules.
pub const MOST_BIDDERS: usize = 256;

/// The most sessions of a bidder.
pub const MOST_SESSIONS: u64 = 8;

/// The most pools of rules.
pub const MOST_POOLS: usize = 16;

/// The most bids of a form.
pub const MOST_BIDS: usize = 4000;

/// The most groups of a text.
pub const MOST_GROUPS: u32 = 1024;

/// The most workers that compile.
pub const MOST_WORKERS: usize = 64;

/// The greatest supply of a category, and the greatest quantity of a package.
pub const GREATEST_QUANTITY: u64 = 10_000;

/// The greatest amount of a bid, step, reserve, eligibility and cap of a pool, in pounds or points.
pub const GREATEST_AMOUNT: u64 = 1_000_000_000_000;

/// The greatest value of a lot, in pounds.
pub const GREATEST_VALUE: u64 = 1_000_000_000_000;

/// The most points of a lot.
pub const GREATEST_POINTS: u64 = 1_000_000;

/// The greatest weight of a member in its pool.
pub const GREATEST_WEIGHT: u64 = 10_000;

/// The most faults that are kept of a text, or of an input; others are counted.
pub const MOST_FAULTS: usize = 10_000;

/// How many bytes of a field or name a fault keeps: those that are shown, and one more.
pub const FRONT_LEN: usize = 41;

/// How many parts of a pound prices may be whole in.
pub const MOST_PARTS: u64 = 1_000_000;

/// The most ties that an input may have, and the most other awards that are printed.
pub const MOST_TIES: u16 = 64;

/// The most bytes of a text of rules, a form or groups.
pub const TEXT_LIMIT: usize = 4 * 1024 * 1024;
