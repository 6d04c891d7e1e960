//! The terms of an auction: its rules, its bidder groups, and the types that forms are made of.
#![tactic(auto)]

/// Returns a fault if the test holds.
macro_rules! refuse {
    ($fails:expr, $fault:expr) => {
        if $fails {
            return Err($fault);
        }
    };
}

mod bids;
mod causes;
mod decimals;
mod draft;
mod fractions;
mod front;
mod group_list;
mod group_names;
mod groups;
mod groups_text;
mod judge;
pub mod laws;
mod limits;
mod line_fields;
mod lines;
mod names;
mod numbers;
mod packages;
mod record_fields;
mod record_kinds;
mod records;
mod rules;
mod rules_records;
mod rules_text;
mod token;
mod weights;
mod wording;
mod worth;

pub use bids::{Bid, Choice, Kept, KeptBid};
pub use causes::{count_cause, limits_cause, most_cause};
pub use decimals::{NumberFault, read_number, scaled};
pub use fractions::{Fraction, gcd, in_parts, lcm, read_fraction};
pub use front::Front;
pub use group_list::Groups;
pub use group_names::NameReader;
pub use groups::Group;
pub use groups_text::{GroupFault, judge_groups, read_groups};
pub use judge::{All, Cause, FaultAt};
pub use limits::{
    FRONT_LEN, GREATEST_AMOUNT, GREATEST_POINTS, GREATEST_QUANTITY, GREATEST_VALUE,
    GREATEST_WEIGHT, MOST_BIDDERS, MOST_BIDS, MOST_CATEGORIES, MOST_FAULTS, MOST_GROUPS,
    MOST_PARTS, MOST_POOLS, MOST_SESSIONS, MOST_TIES, MOST_WORKERS, TEXT_LIMIT,
};
pub use line_fields::{Field, next_field};
pub use lines::LineReader;
pub use names::Name;
pub use numbers::{digits_after, number};
pub use packages::{Package, Quantities};
pub use record_kinds::field;
pub use records::RecordReader;
pub use rules::{Bidder, Category, Pool, Rules};
pub use rules_text::{RulesFault, judge_rules, read_rules};
pub use token::{TokenFault, TokenParts, after, are_all_digits, read_token};
pub use weights::Weights;
pub use wording::{Code, Wording};
