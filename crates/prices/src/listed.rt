//! Groups beside the allocations without them.

use auction_terms::Groups;
use outcome::Allocation;

/// Groups of bidders, each with an allocation without it, in the same order.
#[derive(Clone, Copy)]
pub struct Listed<'a> {
    pub groups: &'a Groups,
    pub won: &'a [Allocation],
}
