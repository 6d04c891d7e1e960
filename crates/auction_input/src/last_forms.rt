//! The forms that count: of each bidder its last one, with the bytes that it is read from.

ghost use Rattle.std.specs.Prelude.{◌≡◌, ◌++◌, ◌∷◌, ℕ, [], IfErr, IfOk, List, Ok, codes, length};
ghost use Rattle.std.specs.List.{zip};
ghost use Rattle.auction_input.specs.LastForms.{HoldsLast, HoldsParts, parsed_forms};
ghost use Rattle.auction_input.specs.Refused.{Refuses};
ghost use Rattle.auction_terms.specs.Lines.{bytes_of};
ghost use Rattle.bid_forms.specs.Offers.{Offers};

use crate::auction::{check_texts, read_parts, rules_in};
use crate::call_limit::check_calls;
use crate::input_texts::Input;
use crate::part_kind::PartKind;
use crate::parts::{text_of, texts_of};
use crate::reading::read_forms;
use crate::refusal::Refusal;
use crate::request::Request;
use auction_terms::{MOST_BIDDERS, Rules};
use bid_forms::Form;
use std::alloc::Global;
use std::thread::Threads;

// A form for each bidder's number, from 0 to the greatest.
const FORMS_LEN: usize = MOST_BIDDERS + 1;

/// A bidder's last form: how many bids it has, and the bytes of its part.
#[derive(Clone, Copy)]
pub struct LastForm<'t> {
    pub bids: usize,
    pub bytes: &'t [u8],
}

/// The last form of each bidder, by its number.
#[derive(Clone, Copy)]
pub struct LastForms<'t> {
    pub by_bidder: [Option<LastForm<'t>>; FORMS_LEN],
}

impl<'t> LastForms<'t> {
    /// The last forms among none.
    pub fn new() -> LastForms<'t>
        ensures { HoldsLast result [] }
    {
        LastForms {
            by_bidder: [None; FORMS_LEN],
        }
    }

    /// Takes the next form, whose part has these bytes.
    pub fn add(&mut self, form: &Form, bytes: &'t [u8])
        ensures { (forms : List (Offers × List ℕ)) → HoldsLast self.old forms
            → HoldsLast self.new (forms ++ (form.now, bytes.entry.now) ∷ []) }
    {
        let bids = form.bids().len();
        self.by_bidder[usize::from(form.bidder())] = Some(LastForm { bids, bytes });
    }
}

/// The last forms of the bidders among these, each with the bytes of its number.
fn last_forms<'t>(forms: &[Form], texts: &[&'t [u8]]) -> LastForms<'t>
    requires { length texts.now ≡ length forms.now }
    ensures { HoldsLast result (zip forms.now (bytes_of texts.now)) }
{
    let mut last = LastForms::new();
    for (place, form) in forms.iter().enumerate() {
        last.add(form, texts[place]);
    }
    last
}

/// The rules with the bytes of their part, and each bidder's last form.
#[derive(Drop)]
pub struct FormParts<'t> {
    pub bytes: &'t [u8],
    pub rules: Rules,
    pub last: LastForms<'t>,
}

/// Reads the rules and the forms, and tests the call limit, whatever other parts there are.
pub fn read_last_forms<'t>(
    rt: &(impl Threads + Sync),
    alloc: Global,
    input: &'t Input,
) -> Result<FormParts<'t>, Refusal>
    ensures parsed { IfOk result (HoldsParts input.now) }
    ensures refuses { IfErr result (Refuses (parsed_forms input.now)) }
{
    let parts = read_parts(alloc, &Request::Forms, input)?;
    let bytes = text_of(parts.as_slice(), PartKind::Rules);
    let rules = rules_in(alloc, bytes)?;
    let texts = texts_of(alloc, parts.as_slice(), PartKind::Form)?;
    let forms = read_forms(rt, alloc, texts.as_slice(), &rules)?;
    check_texts(
        alloc,
        parts.as_slice(),
        &rules,
        forms.as_slice(),
        input.last_wins(),
    )?;
    check_calls(forms.as_slice())?;
    let last = last_forms(forms.as_slice(), texts.as_slice());
    Ok(FormParts { bytes, rules, last })
}
