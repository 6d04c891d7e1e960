//! Lists of single values that members hold.

use arrayvec::ArrayVec;
use auction_terms::MOST_GROUPS;
use byte_sinks::Scalar;

/// The most items of a list: one for each group. No group has as many bidders.
pub(crate) const MOST_ITEMS: usize = MOST_GROUPS as usize;

/// The items of a list. They take no memory of their own.
pub(crate) type Items<'s> = ArrayVec<Scalar<'s>, MOST_ITEMS>;
