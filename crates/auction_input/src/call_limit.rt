//! The calls that forms take, each as one recorded call of its bidder, and the call limit.

ghost use Rattle.std.specs.Prelude.{◌≡◌, ◌+◌, ◌++◌, ◌∷◌, ℕ, [], IfErr, List, None, OnOk, Some, length};
ghost use Rattle.auction_input.specs.CallLimit.{CountsCalls, one_too_many};
ghost use Rattle.auction_terms.specs.FirstFault.{first_fault};
ghost use Rattle.bid_forms.specs.Offers.{Offers};

use crate::refusal::Refusal;
use auction_terms::MOST_BIDDERS;
use bid_book::CALL_LIMIT;
use bid_forms::Form;

// A count for each bidder's number, from 0 to the greatest.
const COUNTS_LEN: usize = MOST_BIDDERS + 1;

/// How many forms each bidder has, and the number of the first form for which its bidder had no call left.
#[derive(Clone, Copy)]
pub struct Calls {
    pub counts: [u32; COUNTS_LEN],
    pub refused: Option<usize>,
}

impl Calls {
    /// The calls of no form.
    pub fn new() -> Calls
        ensures { CountsCalls result [] }
    {
        Calls {
            counts: [0; COUNTS_LEN],
            refused: None,
        }
    }

    /// Counts the call of the next form, which has that number.
    pub fn count(&mut self, number: usize, form: &Form)
        ensures { (forms : List Offers) → CountsCalls self.old forms
            → number ≡ length forms + 1 → CountsCalls self.new (forms ++ form.now ∷ []) }
    {
        if self.refused.is_some() {
            return;
        }
        let bidder = usize::from(form.bidder());
        if self.counts[bidder] >= CALL_LIMIT {
            self.refused = Some(number);
            return;
        }
        self.counts[bidder] += 1;
    }
}

/// Tests that each form finds a call left of its bidder, as every form is one recorded call.
pub fn check_calls(forms: &[Form]) -> Result<(), Refusal>
    ensures accepted { OnOk result (first_fault one_too_many [] forms.now ≡ None) }
    ensures refused { IfErr result (λ r. (number : ℕ)
        × (first_fault one_too_many [] forms.now ≡ Some number) × (r ≡ Refusal.CallLimit number)) }
{
    let mut calls = Calls::new();
    for (place, form) in forms.iter().enumerate() {
        calls.count(place + 1, form);
    }
    match calls.refused {
        Some(form) => Err(Refusal::CallLimit { form }),
        None => Ok(()),
    }
}
