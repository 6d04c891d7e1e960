//! The auction that an input describes.

ghost use Rattle.auction_input.specs.Requests.{ReadsAuction};
ghost use Rattle.std.specs.Prelude.{◌≡◌, All, IfErr, IfOk, None, Ok, OnOk, codes, length};
ghost use Rattle.auction_input.specs.Auction.{parsed_auction};
ghost use Rattle.auction_input.specs.Refused.{Refuses};
ghost use Rattle.auction_input.specs.Settled.{HoldsForms, RefusesAuction, held};
ghost use Rattle.auction_input.specs.FormTexts.{form_elsewhere, in_one_text};
ghost use Rattle.auction_input.specs.Parts.{parts_held, parts_named, text_numbers};
ghost use Rattle.auction_input.specs.ParsedParts.{only_text, parsed_parts};
ghost use Rattle.auction_input.specs.Sold.{IsSold};
ghost use Rattle.auction_input.specs.inside.Auctions.{HasRun, HoldTexts, bidders_of, RefusesInputs, RefusesRun, Tell};
ghost use Rattle.bid_forms.specs.Offers.{Meets};
ghost use Rattle.auction_input.specs.ParsedTexts.{parsed_groups, parsed_terms};

use crate::call_limit::check_calls;
use crate::form_texts::form_elsewhere;
use crate::input_texts::Input;
use crate::part_kind::PartKind;
use crate::parts::{Part, split_parts, text_numbers_of, text_of, texts_of};
use crate::reading::{miscounted, read_forms};
use crate::refusal::Refusal;
use crate::request::Request;
use crate::round::close_round;
use auction_terms::{Groups, Rules, read_groups, read_rules};
use bid_desk::ClosedBook;
use bid_forms::Form;
use std::alloc::{AllocError, Global};
use std::sync::Wait;
use std::thread::Threads;

/// A settled auction, the bidder of each form in the order of the input, the groups that are left out of it, and the texts of
/// solutions and of certificates; what is claimed of
/// other outcomes: texts of certificates that there is none as good, and of solutions that are; and texts of prices, of
/// certificates that they cover every group, and of the rule.
#[derive(Drop)]
pub struct Auction<'t> {
    pub book: ClosedBook,
    pub form_bidders: Vec<u16>,
    pub groups: Groups,
    pub solutions: Vec<&'t [u8]>,
    pub certificates: Vec<&'t [u8]>,
    pub uniques: Vec<&'t [u8]>,
    pub ties: Vec<&'t [u8]>,
    pub prices: Vec<&'t [u8]>,
    pub covers: Vec<&'t [u8]>,
    pub rule_texts: Vec<&'t [u8]>,
}

/// The parts of an input, as many as the request takes.
pub(crate) fn read_parts<'t>(
    alloc: Global,
    request: &Request,
    input: &'t Input,
) -> Result<Vec<Part<'t>>, Refusal>
    ensures parsed { IfOk result (λ held. parsed_parts request.now input.now
        ≡ Ok (parts_held held.items)) }
    ensures refuses { IfErr result (Refuses (parsed_parts request.now input.now)) }
{
    let parts = split_parts(alloc, request, input)?;
    match miscounted(request, parts.as_slice()) {
        None => Ok(parts),
        Some(kind) => Err(Refusal::PartCount(kind)),
    }
}

// The texts that the round doesn't need: of solutions and of certificates, of what is claimed of other outcomes, and of prices.
#[derive(Drop)]
struct Beside<'t> {
    solutions: Vec<&'t [u8]>,
    certificates: Vec<&'t [u8]>,
    uniques: Vec<&'t [u8]>,
    ties: Vec<&'t [u8]>,
    prices: Vec<&'t [u8]>,
    covers: Vec<&'t [u8]>,
    rule_texts: Vec<&'t [u8]>,
}

fn texts_beside<'t>(alloc: Global, parts: &[Part<'t>]) -> Result<Beside<'t>, AllocError>
    ensures { IfOk result (HoldTexts (parts_held parts.now)) }
{
    Ok(Beside {
        solutions: texts_of(alloc, parts, PartKind::Solution)?,
        certificates: texts_of(alloc, parts, PartKind::Certificate)?,
        uniques: texts_of(alloc, parts, PartKind::Unique)?,
        ties: texts_of(alloc, parts, PartKind::Tie)?,
        prices: texts_of(alloc, parts, PartKind::Prices)?,
        covers: texts_of(alloc, parts, PartKind::Cover)?,
        rule_texts: texts_of(alloc, parts, PartKind::Rule)?,
    })
}

/// The rules in a text, with a fault as a refusal.
pub(crate) fn rules_in(alloc: Global, text: &[u8]) -> Result<Rules, Refusal>
    ensures parsed { IfOk result (λ rules. parsed_terms text.now ≡ Ok rules) }
    ensures refuses { IfErr result (Refuses (parsed_terms text.now)) }
{
    Ok(read_rules(alloc, text)?)
}

// The groups in a text, with a fault as a refusal.
fn groups_in(alloc: Global, text: &[u8], rules: &Rules) -> Result<Groups, Refusal>
    ensures parsed { IfOk result (λ groups. parsed_groups rules.now text.now ≡ Ok groups) }
    ensures refuses { IfErr result (Refuses (parsed_groups rules.now text.now)) }
{
    Ok(read_groups(alloc, text, rules)?)
}

/// Tests that each bidder's forms are in one text, unless its last one counts in whichever text it is.
pub(crate) fn check_texts(
    alloc: Global,
    parts: &[Part<'_>],
    rules: &Rules,
    forms: &[Form],
    last_wins: bool,
) -> Result<(), Refusal>
    requires { length (parts_named (codes "%form") (parts_held parts.now)) ≡ length forms.now }
    ensures accepted { OnOk result (form_elsewhere last_wins rules.now
        (text_numbers (codes "%form") (parts_held parts.now)) forms.now ≡ None) }
    ensures refuses { IfErr result (Refuses (in_one_text last_wins rules.now
        (text_numbers (codes "%form") (parts_held parts.now)) forms.now)) }
{
    if last_wins {
        return Ok(());
    }
    let numbers = text_numbers_of(alloc, parts, PartKind::Form)?;
    match form_elsewhere(rules, forms, numbers.as_slice()) {
        Some(another) => Err(Refusal::AnotherForm(another)),
        None => Ok(()),
    }
}

// The forms and the groups of these parts, if each bidder's forms are in one text, or its last one is to count, and each form has
// a call of its bidder's left.
fn read_offers(
    rt: &(impl Threads + Sync),
    alloc: Global,
    parts: &[Part<'_>],
    rules: &Rules,
    last_wins: bool,
) -> Result<(Vec<Form>, Groups), Refusal>
    requires rules { parsed_terms (only_text (parts_named (codes "%rules") (parts_held parts.now)))
        ≡ Ok rules.now }
    ensures parsed { IfOk result (λ read. Tell last_wins (parts_held parts.now) rules.now
        read.0.items read.1) }
    ensures meet { IfOk result (λ read. All (Meets rules.now) read.0.items) }
    ensures refuses { IfErr result (RefusesInputs last_wins (parts_held parts.now)) }
{
    let texts = texts_of(alloc, parts, PartKind::Form)?;
    let forms = read_forms(rt, alloc, texts.as_slice(), rules)?;
    check_texts(alloc, parts, rules, forms.as_slice(), last_wins)?;
    let groups = groups_in(alloc, text_of(parts, PartKind::Groups), rules)?;
    check_calls(forms.as_slice())?;
    Ok((forms, groups))
}

// The bidder of each form.
fn bidders_of(alloc: Global, forms: &[Form]) -> Result<Vec<u16>, AllocError>
    ensures { IfOk result (λ bidders. bidders.items ≡ bidders_of forms.now) }
{
    let mut bidders = Vec::with_capacity(alloc, forms.len())?;
    for form in forms {
        bidders.push_reserved(form.bidder());
    }
    Ok(bidders)
}

// The round over the forms of an input: its book, the bidder of each form, and the groups.
#[derive(Drop)]
struct Run {
    book: ClosedBook,
    form_bidders: Vec<u16>,
    groups: Groups,
}

// Runs the round over the forms of these parts.
fn close_auction<R: Threads + Wait + Sync + AllocGlobal>(
    rt: &R,
    parts: &[Part<'_>],
    last_wins: bool,
) -> Result<Run, Refusal>
    ensures parsed { IfOk result (λ run. HasRun last_wins (parts_held parts.now) run.book
        run.form_bidders.items run.groups) }
    ensures refuses { IfErr result (RefusesRun last_wins (parts_held parts.now)) }
{
    let alloc: Global = rt.alloc();
    let rules = rules_in(alloc, text_of(parts, PartKind::Rules))?;
    let (forms, groups) = read_offers(rt, alloc, parts, &rules, last_wins)?;
    let form_bidders = bidders_of(alloc, forms.as_slice())?;
    let book = close_round(rt, rules, forms)?;
    Ok(Run {
        book,
        form_bidders,
        groups,
    })
}

/// Reads the rules, the forms and the groups, tests the call limit, and runs the round.
pub fn read_auction<'t, R: Threads + Wait + Sync + AllocGlobal>(
    rt: &R,
    request: &Request,
    input: &'t Input,
) -> Result<Auction<'t>, Refusal>
    requires reads { ReadsAuction request.now }
    ensures parsed { IfOk result (λ auction. parsed_auction request.now input.now ≡ Ok (held auction)) }
    ensures submitted { IfOk result (λ auction. HoldsForms input.now auction.book) }
    ensures sold { IfOk result (λ auction. IsSold request.now input.now (held auction)) }
    ensures refuses { IfErr result (RefusesAuction request.now input.now) }
{
    let parts = read_parts(rt.alloc(), request, input)?;
    let beside = texts_beside(rt.alloc(), parts.as_slice())?;
    let Run {
        book,
        form_bidders,
        groups,
    } = close_auction(rt, parts.as_slice(), input.last_wins())?;
    book.well_formed();
    let Beside {
        solutions,
        certificates,
        uniques,
        ties,
        prices,
        covers,
        rule_texts,
    } = beside;
    Ok(Auction {
        book,
        form_bidders,
        groups,
        solutions,
        certificates,
        uniques,
        ties,
        prices,
        covers,
        rule_texts,
    })
}
