//! The front of a journal, which is the first call, too.

ghost use Rattle.std.specs.Prelude.{◌≡◌, ◌≤◌, ◌<◌, ◌+◌, ◌^◌, IfErr, IfOk, IfSome, Err, Ok, length};
ghost use Rattle.auction_terms.specs.declared.limits.TheConstants.{TEXT_LIMIT};
ghost use Rattle.desk_book.specs.Calls.{head_fields};
ghost use Rattle.desk_book.specs.Fronts.{front_at, front_found, front_with, line_ended, rules_digest_in, rules_len_in};
ghost use Rattle.desk_book.specs.inside.Fields.{rules_digest_left, rules_len_left};

use crate::digests::digest_of;
use crate::fields::Fields;
use crate::heads::{Line, find_line};
use crate::untaken::ends_line;
use auction_terms::TEXT_LIMIT;

/// The front of a journal: its first line, the text of the rules, and how many bytes it has.
#[derive(Clone, Copy)]
pub struct DeskFront<'c> {
    pub line: &'c [u8],
    pub rules: &'c [u8],
    pub len: usize,
}

/// Why bytes don't begin with a front.
#[derive(Clone, Copy, Debug, PartialEq, Eq)]
pub enum FrontFault {
    /// There are too few of them.
    Short,
    /// No front begins so.
    None,
    /// The digest isn't that of the rules.
    Digest,
    /// The last line of the rules has no end.
    NoLineEnd,
}

// The digest that the first line has of the rules.
#[tactic(auto, using(crate::proofs::Reading::rules_digest_same), unfolding(crate::specs::inside::Fields::rules_digest_left))]
fn rules_digest(line: &[u8]) -> Option<[u8; 64]>
    ensures { result ≡ rules_digest_in (head_fields line.now) }
{
    digest_in_fields(Fields::of_line(line))
}

// The digest of the rules among the fields of the first line.
#[tactic(auto, unfolding(crate::specs::inside::Fields::rules_digest_left))]
fn digest_in_fields(mut fields: Fields<'_>) -> Option<[u8; 64]>
    ensures { result ≡ rules_digest_left fields.entry }
{
    let kind = fields.next()?;
    let version = fields.next()?;
    fields.word()?;
    let digest = fields.digest()?;
    fields.word()?;
    fields.word()?;
    fields.word()?;
    if fields.is_done() && kind == b"%desk".as_slice() && version == b"2".as_slice() {
        Some(digest)
    } else {
        None
    }
}

// How many bytes the rules have, as the fields of the second line say.
#[tactic(auto, unfolding(crate::specs::inside::Fields::rules_len_left))]
fn len_in_fields(mut fields: Fields<'_>) -> Option<usize>
    ensures len { result ≡ rules_len_left fields.entry }
    ensures few { IfSome result (λ n. n ≤ TEXT_LIMIT) }
{
    let kind = fields.next()?;
    let len = fields.number_to(TEXT_LIMIT)?;
    if fields.is_done() && kind == b"%rules".as_slice() {
        Some(len)
    } else {
        None
    }
}

// How many bytes the rules have, as the second line says.
#[tactic(auto, using(crate::proofs::Reading::rules_len_same))]
fn rules_len(line: &[u8]) -> Option<usize>
    ensures len { result ≡ rules_len_in (head_fields line.now) }
    ensures few { IfSome result (λ n. n ≤ TEXT_LIMIT) }
{
    len_in_fields(Fields::of_line(line))
}

// The length of the head line at the front of these bytes, without its end.
#[tactic(auto, unfolding(crate::specs::Fronts::line_ended))]
fn line_len(bytes: &[u8]) -> Result<usize, FrontFault>
    ensures line { result ≡ line_ended bytes.now }
    ensures within { IfOk result (λ n. n < length bytes.now) }
{
    match find_line(bytes) {
        Line::Whole(len) => Ok(len),
        Line::Short => Err(FrontFault::Short),
        Line::None => Err(FrontFault::None),
    }
}

// The front with this first line, whose rules, of this digest and so many bytes, are to stand in these bytes, behind so many others.
#[tactic(auto, unfolding(crate::specs::Fronts::front_with))]
fn front_with<'c>(
    line: &'c [u8],
    digest: &[u8; 64],
    count: usize,
    at: usize,
    behind: &'c [u8],
) -> Result<DeskFront<'c>, FrontFault>
    requires { at + length behind.now < 2 ^ 63 }
    ensures found { IfOk result (λ f. front_with line.now digest.now count at behind.now ≡ Ok (front_found f)) }
    ensures fault { IfErr result (λ why. front_with line.now digest.now count at behind.now ≡ Err why) }
    ensures within { IfOk result (λ f. f.len ≤ at + length behind.now) }
{
    if behind.len() < count {
        return Err(FrontFault::Short);
    }
    let rules = &behind[..count];
    if digest_of(rules) != *digest {
        return Err(FrontFault::Digest);
    }
    if !ends_line(rules) {
        return Err(FrontFault::NoLineEnd);
    }
    Ok(DeskFront {
        line,
        rules,
        len: at + count,
    })
}

/// The front of these bytes.
#[tactic(auto, unfolding(crate::specs::Fronts::front_at))]
pub fn find_front(bytes: &[u8]) -> Result<DeskFront<'_>, FrontFault>
    ensures found { IfOk result (λ f. front_at bytes.now ≡ Ok (front_found f)) }
    ensures fault { IfErr result (λ why. front_at bytes.now ≡ Err why) }
    ensures within { IfOk result (λ front. front.len ≤ length bytes.now) }
{
    let first = line_len(bytes)?;
    let line = &bytes[..first];
    let Some(digest) = rules_digest(line) else {
        return Err(FrontFault::None);
    };
    let behind = &bytes[first + 1..];
    let second = line_len(behind)?;
    let Some(count) = rules_len(&behind[..second]) else {
        return Err(FrontFault::None);
    };
    front_with(
        line,
        &digest,
        count,
        first + 1 + second + 1,
        &behind[second + 1..],
    )
}
