//! Weights of groups and on winners' reserves.

ghost use Rattle.std.specs.Prelude.{◌≡◌, ◌<◌, ◌≤◌, ◌+◌, ◌*◌, ◌^◌, length};
ghost use Rattle.auction_terms.specs.Groups.{has};
ghost use Rattle.outcome.specs.Pricing.{price_in};
ghost use Rattle.prices.specs.inside.Weighing.{weight_by};

use auction_terms::Groups;
use outcome::price_of;

/// Whole weights, each meant as divided by the scale: of the groups in order, and of the winners' own reserves, by a list with the
/// weight of bidder 1 first.
#[derive(Drop)]
pub struct Weights<'w> {
    pub scale: u64,
    pub groups: &'w [u64],
    pub own: &'w [u64],
}

/// The weights of the groups that a bidder is in.
fn weight_on(groups: &Groups, weights: &[u64], bidder: u16) -> u128
    requires { length weights.now ≡ length groups.now }
    ensures sum { result ≡ weight_by groups.now weights.now bidder }
    ensures small { result ≤ length weights.now * 2 ^ 64 }
{
    let mut sum: u128 = 0;
    for place in 0..weights.len() {
        if groups.group(place + 1).has(bidder) {
            sum += u128::from(weights[place]);
        }
    }
    sum
}

/// The weights on a bidder: those of the groups that it is in, and its own.
pub fn weights_on(groups: &Groups, weights: &Weights<'_>, bidder: u16) -> u128
    requires few { length groups.now ≤ 1024 }
    requires weights { length weights.now.groups.now ≡ length groups.now }
    ensures sum { result ≡ weight_by groups.now weights.now.groups.now bidder
        + price_in weights.now.own.now bidder }
    ensures small { result ≤ 1025 * 2 ^ 64 }
{
    weight_on(groups, weights.groups, bidder) + u128::from(price_of(weights.own, bidder))
}
