//! The limits of what workers draw. Contracts and definitions cite these constants.

use auction_terms::{MOST_GROUPS, MOST_WORKERS};

/// The draws of one worker: each group's number, and one that is no group's, at which it stops.
pub const WORKER_DRAWS: usize = MOST_GROUPS as usize + 1;

/// The draws of all workers.
pub const ALL_DRAWS: usize = MOST_WORKERS * WORKER_DRAWS;
