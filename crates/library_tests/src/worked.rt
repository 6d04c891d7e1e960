//! The worked rules and forms, and what is made of them in more than one place.

use auction_input::Input;
use auction_terms::Rules;
use bid_forms::{Form, read_form};
use std::alloc::{AllocError, Global};
use std::sync::Arc;
use std::test::Fail;

pub mod books;

pub const RULES: &[u8] =
    b"rules,1,1,,\ncategory,A,2,10,1\ncategory,B,1,5,1\nbidder,Alpha,9,2,\nbidder,Beta,9,1,\nbidder,Gamma,9,1,\n";

/// A lot of A is worth 40 where it is left.
pub const RULES_OF_40: &[u8] =
    b"rules,2,1,,,\ncategory,A,2,10,1,40\ncategory,B,1,5,1,0\nbidder,Alpha,9,2,,\nbidder,Beta,9,1,,\nbidder,Gamma,9,1,,\n";

/// A lot of A is worth 20 where it is left.
pub const RULES_OF_20: &[u8] =
    b"rules,2,1,,,\ncategory,A,2,10,1,20\ncategory,B,1,5,1,0\nbidder,Alpha,9,2,,\nbidder,Beta,9,1,,\nbidder,Gamma,9,1,,\n";

/// At most two lots together.
pub const RULES_OF_A_POOL: &[u8] =
    b"rules,3,1,,,\ncategory,A,2,10,1,0\ncategory,B,1,5,1,0\npool,Low,2,,,\nmember,Low,A,1,,\nmember,Low,B,1,,\nbidder,Alpha,9,2,,\nbidder,Beta,9,1,,\nbidder,Gamma,9,1,,\n";

/// Room for the largest form.
pub const WIDE_RULES: &[u8] =
    b"rules,1,1,,\ncategory,A,10000,0,0\ncategory,B,10000,0,0\nbidder,Alpha,0,1,\n";

pub const ALPHA: &[u8] = b"Alpha,A,B\n30,1,0\n50,2,1\n28,1,1\n";

pub const BETA: &[u8] = b"Beta,A,B\n20,1,0\n45,3,0\n";

pub const GAMMA: &[u8] = b"Gamma,A,B\n12,0,1\n";

/// The forms of the worked auction.
pub const FORMS: [&[u8]; 3] = [ALPHA, BETA, GAMMA];

pub fn form_of(alloc: Global, rules: &Rules, text: &[u8]) -> Result<Arc<Form, Global>, Fail> {
    Ok(Arc::new(alloc, read_form(alloc, text, rules)?)?)
}

/// An input of one text.
pub fn input_of(alloc: Global, text: &[u8]) -> Result<Input, AllocError> {
    Input::of_text(alloc, Vec::from_slice(alloc, text)?)
}
