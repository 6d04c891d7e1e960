//! Auctions from the input of the program: its parts, the rules, forms and groups that they describe, the round in which the
//! forms are submitted, and why an input is refused.
#![tactic(auto)]

mod auction;
mod bidder_name;
mod bidder_thread;
mod by_bidder;
mod call_limit;
mod files;
mod form_texts;
mod input;
mod input_texts;
mod last_forms;
pub mod laws;
mod look;
mod message;
mod name;
mod part_counts;
mod part_kind;
mod parts;
mod places;
mod price_fault;
mod price_names;
mod price_reading;
mod reading;
mod refusal;
mod request;
mod round;
mod rule_reading;
mod rule_weights;
mod source;
mod tie_fault;

pub use auction::{Auction, read_auction};
pub use bidder_name::BidderName;
pub use call_limit::Calls;
pub use files::{
    FileFault, FileKind, FilePlace, FileRefusal, Files, Identity, Output, is_standard_output,
};
pub use form_texts::{AnotherForm, FormTexts};
pub use input::{INPUT_LIMIT, InputFault, Unread, is_standard_input, read_inputs};
pub use input_texts::{Input, NamedText};
pub use last_forms::{FormParts, LastForm, LastForms, read_last_forms};
pub use look::look_at_files;
pub use message::{BEFORE_FIRST, Message, OF_VERSION_1};
pub use name::Name;
pub use part_counts::{Numbers, Unmet, check_wanted, proof_wants, solution_wants};
pub use part_kind::PartKind;
pub use parts::{Part, PartFault, count_of, split_parts, text_numbers_of, text_of, texts_of};
pub use places::{Counted, Places, Spot, spot_of};
pub use price_fault::PriceFault;
pub use price_names::Known;
pub use price_reading::{GivenPrice, GivenPrices, price_given, prices_in_parts, read_prices};
pub use reading::{miscounted, only_text};
pub use refusal::Refusal;
pub use request::{ExplainOptions, Objects, Request, Target};
pub use round::RoundFault;
pub use rule_reading::read_rule_lines;
pub use rule_weights::{
    Aim, GivenWeights, RuleLine, Scales, Subject, weight_given, weights_of_bidders,
    weights_of_groups,
};
pub use source::{ReadFailed, Source};
pub use tie_fault::TieFault;
