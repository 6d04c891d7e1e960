//! The last object, which says what is proved.

ghost use Rattle.std.specs.Prelude.{◌≡◌, ◌≤◌, ◌∷◌, ◌++◌, [], codes, length, map};
ghost use Rattle.byte_sinks.specs.Adds.{Adds};
ghost use Rattle.byte_sinks.specs.Objects as of_lists;
ghost use Rattle.byte_sinks.specs.Objects.{object_text, scalar_seen};
ghost use Rattle.award_objects.specs.Objects as of_objects;
ghost use Rattle.award_objects.specs.Objects.{of_further, of_prices, outcome_seen};

use crate::items::Items;
use crate::objects::Outcome;
use arrayvec::ArrayVec;
use byte_sinks::{Member, Scalar, Sink, Writer, add_object};
use outcome::{Allocation, Further, Pricing};

// What is proved of totals, costs and prices.
fn proved_of_prices(pricing: &Option<Pricing>) -> Items<'static>
    ensures proved { map scalar_seen result.items ≡ map of_lists.Scalar.Text
        (codes "totals" ∷ codes "costs" ∷ of_prices pricing.now) }
    ensures few { length result.items ≤ 4 }
{
    let mut proved = ArrayVec::new();
    proved.push(Scalar::Text(b"totals"));
    proved.push(Scalar::Text(b"costs"));
    if let Some(pricing) = pricing {
        proved.push(Scalar::Text(b"prices"));
        if pricing.by_rule() {
            proved.push(Scalar::Text(b"by the rule"));
        }
    }
    proved
}

// Adds what is proved of further awards, where these are known.
fn add_further(proved: &mut Items<'static>, awards: &[Allocation], further: Further)
    requires { length proved.old.items ≤ 4 }
    ensures { map scalar_seen proved.new.items ≡ map scalar_seen proved.old.items
        ++ map of_lists.Scalar.Text (of_further awards.now further) }
{
    match further {
        Further::Unknown => {}
        Further::NoOther if awards.is_empty() => proved.push(Scalar::Text(b"unique")),
        Further::NoOther => proved.push(Scalar::Text(b"no other")),
        Further::More => proved.push(Scalar::Text(b"and more")),
    }
}

/// What is proved of an outcome that is shown.
pub(crate) fn proved_of(outcome: &Outcome<'_>) -> Items<'static>
    ensures { map scalar_seen result.items ≡ map of_lists.Scalar.Text
        (of_objects.proved_of (outcome_seen outcome.now)) }
{
    let mut proved = proved_of_prices(outcome.pricing);
    let others = outcome.others;
    add_further(&mut proved, others.awards(), others.further());
    proved
}

/// Adds the last object.
pub(crate) fn add_proved<S: Sink>(writer: &mut Writer<'_, S>, proved: &[Scalar<'_>])
    ensures { Adds S.state writer.old writer.new (object_text (record {
      name = codes "proved";
      value = of_lists.Value.Many (map scalar_seen proved.now);
    } ∷ [])) }
{
    let members = [Member::list(b"proved", proved)];
    add_object(writer, &members);
}
