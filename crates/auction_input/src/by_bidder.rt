//! The forms of the input, by bidder.

ghost use Rattle.std.specs.Prelude.{◌≡◌, ◌+◌, ◌<◌, ◌≤◌, [], All, IfOk, OnOk, vec_len};
ghost use Rattle.auction_terms.specs.declared.limits.TheConstants.{MOST_BIDDERS};
ghost use Rattle.auction_input.specs.inside.Submissions.{AreByBidder, HaveOneMore, form_values, forms_in};

use bid_forms::Form;
use std::alloc::{AllocError, Global};
use std::sync::Arc;

/// The forms by the number of their bidder, each bidder's in the order of the input. List 0 stays empty.
pub fn by_bidder(
    alloc: Global,
    bidders: usize,
    forms: Vec<Form>,
) -> Result<Vec<Vec<Arc<Form, Global>>>, AllocError>
    requires few { bidders ≤ MOST_BIDDERS }
    requires known { All (λ form. form.bidder ≤ bidders) forms.items }
    ensures { IfOk result (λ lists. AreByBidder forms.items lists.items) }
{
    let mut lists = empty_lists(alloc, bidders + 1)?;
    for form in forms {
        add_form(alloc, &mut lists, form)?;
    }
    Ok(lists)
}

fn empty_lists(alloc: Global, count: usize) -> Result<Vec<Vec<Arc<Form, Global>>>, AllocError>
    ensures count { IfOk result (λ lists. vec_len lists ≡ count) }
    ensures lists { IfOk result (λ lists. AreByBidder [] lists.items) }
{
    let mut lists = Vec::new(alloc);
    for _ in 0..count {
        lists.push(Vec::new(alloc))?;
    }
    Ok(lists)
}

// Adds a form to its bidder's.
fn add_form(
    alloc: Global,
    lists: &mut Vec<Vec<Arc<Form, Global>>>,
    form: Form,
) -> Result<(), AllocError>
    requires { form.bidder < vec_len lists.old }
    ensures room { OnOk result (vec_len lists.new ≡ vec_len lists.old) }
    ensures added { OnOk result (HaveOneMore form lists.old.items lists.new.items) }
{
    let bidder = usize::from(form.bidder());
    let form = Arc::new(alloc, form)?;
    lists[bidder].push(form)?;
    Ok(())
}

/// The forms of a bidder.
pub fn forms_in(lists: &[Vec<Arc<Form, Global>>], bidder: u16) -> &[Arc<Form, Global>]
    ensures { form_values result.now ≡ forms_in lists.now bidder }
{
    match lists.get(usize::from(bidder)) {
        Some(list) => list.as_slice(),
        None => &[],
    }
}
