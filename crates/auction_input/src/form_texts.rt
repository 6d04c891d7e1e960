//! The texts that forms are in: a bidder's are all to be in that of its first form.

ghost use Rattle.std.specs.Prelude.{◌≡◌, ◌+◌, ◌++◌, ◌∷◌, ℕ, [], List, length};
ghost use Rattle.std.specs.List.{zip};
ghost use Rattle.auction_input.specs.FormTexts.{KnowsTexts, another_form};
ghost use Rattle.auction_terms.specs.FirstFault.{first_fault};
ghost use Rattle.auction_terms.specs.Terms.{Terms};
ghost use Rattle.bid_forms.specs.Offers.{Offers};

use crate::bidder_name::BidderName;
use auction_terms::{MOST_BIDDERS, Rules};
use bid_forms::Form;

// A text for each bidder's number, from 0 to the greatest.
const TEXTS_LEN: usize = MOST_BIDDERS + 1;

/// A form that is in another text than its bidder's first form.
#[derive(Clone, Copy)]
pub struct AnotherForm {
    /// Its number, from 1.
    pub form: usize,
    pub bidder: BidderName,
    /// The text of the bidder's first form, by its place from 0.
    pub first_text: usize,
}

/// The text of each bidder's first form, and the first form that is in another.
#[derive(Clone, Copy)]
pub struct FormTexts {
    pub first: [Option<usize>; TEXTS_LEN],
    pub refused: Option<AnotherForm>,
}

impl FormTexts {
    /// The texts of no form.
    pub fn new() -> FormTexts
        ensures { (t : Terms) → KnowsTexts t result [] }
    {
        FormTexts {
            first: [None; TEXTS_LEN],
            refused: None,
        }
    }

    /// Adds the next form, which has that number and is in that text.
    pub fn add(&mut self, rules: &Rules, number: usize, form: &Form, text: usize)
        ensures { (forms : List (Offers × ℕ)) → KnowsTexts rules.now self.old forms
            → number ≡ length forms + 1
            → KnowsTexts rules.now self.new (forms ++ (form.now, text) ∷ []) }
    {
        if self.refused.is_some() {
            return;
        }
        let bidder = form.bidder();
        let Some(first_text) = self.first[usize::from(bidder)] else {
            self.first[usize::from(bidder)] = Some(text);
            return;
        };
        if first_text == text {
            return;
        }
        self.refused = Some(AnotherForm {
            form: number,
            bidder: BidderName::of_bidder(rules, bidder),
            first_text,
        });
    }
}

/// The first of these forms, each in the text of its number, that is in another text than its bidder's first form.
pub fn form_elsewhere(rules: &Rules, forms: &[Form], numbers: &[usize]) -> Option<AnotherForm>
    requires { length numbers.now ≡ length forms.now }
    ensures { result ≡ first_fault (another_form rules.now) [] (zip forms.now numbers.now) }
{
    let mut known = FormTexts::new();
    for (place, form) in forms.iter().enumerate() {
        known.add(rules, place + 1, form, numbers[place]);
    }
    known.refused
}
