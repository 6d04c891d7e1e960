//! What is wrong with a record or with what is in a field, in words.

ghost use Rattle.std.specs.Prelude.{◌≡◌};
ghost use Rattle.auction_terms.specs.Causes.{count_cause, limits_cause, most_cause};
ghost use Rattle.auction_terms.specs.Wording.{wording_text};

use crate::wording::Wording;

/// So many fields, where others are wanted.
pub fn count_cause(count: usize, wanted: usize) -> Wording
    ensures { wording_text result ≡ count_cause count wanted }
{
    Wording::Numbers("", count as u64, " fields in place of ", wanted as u64)
}

/// A number outside its limits.
pub fn limits_cause(least: u64, greatest: u64) -> Wording
    ensures { wording_text result ≡ limits_cause least greatest }
{
    Wording::Numbers("isn't between ", least, " and ", greatest)
}

/// More of these than there may be.
pub fn most_cause(most: usize, kinds: &'static str) -> Wording
    ensures { wording_text result ≡ most_cause most kinds.now }
{
    Wording::Between("more than ", most as u64, kinds)
}
