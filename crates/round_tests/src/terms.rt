//! The worked rules and groups, by what distinguishes them from others.

use auction_terms::{Bidder, Category, Groups, Rules};

mod refused;

/// Whether a category has this name, and this supply, reserve, points and value.
fn is_category(category: &Category, name: &[u8], numbers: (u32, u64, u32, u64)) -> bool {
    category.name.as_bytes() == name
        && (
            category.supply,
            category.reserve,
            category.points,
            category.value,
        ) == numbers
}

/// Whether these are the two worked categories, and a lot of the first one has this value.
fn are_categories(categories: &[Category], value: u64) -> bool {
    match categories {
        [a, b] => is_category(a, b"A", (2, 10, 1, value)) && is_category(b, b"B", (1, 5, 1, 0)),
        _ => false,
    }
}

fn is_bidder(bidder: &Bidder, name: &[u8], sessions: u8) -> bool {
    bidder.name.as_bytes() == name && bidder.eligibility == 9 && bidder.sessions == sessions
}

/// Whether these are the three worked bidders.
fn are_bidders(bidders: &[Bidder]) -> bool {
    match bidders {
        [alpha, beta, gamma] => {
            is_bidder(alpha, b"Alpha", 2)
                && is_bidder(beta, b"Beta", 1)
                && is_bidder(gamma, b"Gamma", 1)
        }
        _ => false,
    }
}

/// Whether the rules are the worked ones.
fn are_worked(rules: &Rules) -> bool {
    rules.step() == 1
        && are_categories(rules.categories(), 0)
        && are_bidders(rules.bidders())
        && rules.pools().is_empty()
        && rules.session_count() == 4
        && rules.bidder_number(b"Gamma") == Some(3)
        && rules.bidder_number(b"Delta").is_none()
}

/// Whether a lot of A is worth 40, and there is one pool, with a cap of 2 and these weights.
fn have_the_pool(rules: &Rules, weights: &[u16]) -> bool {
    match rules.pools() {
        [low] => {
            are_categories(rules.categories(), 40)
                && low.name.as_bytes() == b"Low".as_slice()
                && low.cap == 2
                && low.weights.as_slice() == weights
        }
        _ => false,
    }
}

/// Whether the second of three groups, of which the first is empty, is that of Alpha and Gamma.
fn are_three_groups(groups: &Groups) -> bool {
    groups.count() == 3
        && groups.starts_empty()
        && groups.group(2).numbers() == [1, 3].as_slice()
        && groups.group(3).numbers().is_empty()
}
