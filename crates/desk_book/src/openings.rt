//! What opens commitments.

ghost use Rattle.std.specs.Prelude.{◌≡◌, ◌<◌, ◌≤◌, IfOk, IfSome, None, OnErr, Some, length, option_map};
ghost use Rattle.auction_terms.specs.declared.limits.TheConstants.{TEXT_LIMIT};
ghost use Rattle.desk_book.specs.Calls.{head_fields};
ghost use Rattle.desk_book.specs.Openings.{opening_at, opening_found, opening_in};
ghost use Rattle.desk_book.specs.inside.Fields.{opening_head, opening_left};

use crate::fields::Fields;
use crate::heads::{Line, find_line};
use auction_terms::TEXT_LIMIT;

/// A text with the salt of its commitment, and how many bytes both have with their head.
#[derive(Clone, Copy)]
pub struct Opening<'c> {
    pub salt: [u8; 64],
    pub text: &'c [u8],
    pub len: usize,
}

/// No opening stands there.
#[derive(Clone, Copy, Debug, PartialEq, Eq)]
pub struct OpeningFault;

// The head line of an opening: its salt, and how many bytes its text has.
#[derive(Clone, Copy)]
struct OpeningHead {
    salt: [u8; 64],
    text_len: usize,
}

// The head line of an opening, of its fields.
#[tactic(auto, unfolding(crate::specs::inside::Fields::opening_left))]
fn head_of_fields(mut fields: Fields<'_>) -> Option<OpeningHead>
    ensures head { option_map opening_head result ≡ opening_left fields.entry }
    ensures few { IfSome result (λ h. h.text_len ≤ TEXT_LIMIT) }
{
    let kind = fields.next()?;
    let salt = fields.digest()?;
    let text_len = fields.number_to(TEXT_LIMIT)?;
    if fields.is_done() && kind == b"%opening".as_slice() {
        Some(OpeningHead { salt, text_len })
    } else {
        None
    }
}

#[tactic(auto, using(crate::proofs::Reading::opening_same))]
fn read_head(line: &[u8]) -> Option<OpeningHead>
    ensures head { option_map opening_head result ≡ opening_in (head_fields line.now) }
    ensures few { IfSome result (λ h. h.text_len ≤ TEXT_LIMIT) }
{
    head_of_fields(Fields::of_line(line))
}

/// The opening at the front of these bytes.
#[tactic(auto, unfolding(crate::specs::Openings::opening_at))]
pub fn find_opening(bytes: &[u8]) -> Result<Opening<'_>, OpeningFault>
    ensures found { IfOk result (λ o. opening_at bytes.now ≡ Some (opening_found o)) }
    ensures none { OnErr result (opening_at bytes.now ≡ None) }
    ensures within { IfOk result (λ o. (0 < o.len) × (o.len ≤ length bytes.now)) }
{
    let Line::Whole(end) = find_line(bytes) else {
        return Err(OpeningFault);
    };
    let Some(head) = read_head(&bytes[..end]) else {
        return Err(OpeningFault);
    };
    let salt = head.salt;
    let count = head.text_len;
    let behind = &bytes[end + 1..];
    if behind.len() < count {
        return Err(OpeningFault);
    }
    Ok(Opening {
        salt,
        text: &behind[..count],
        len: end + 1 + count,
    })
}
