//! A law of the definitions: what the sums of an award are.

ghost use Rattle.award_objects.specs.Sums.{SumsAddUp};

/// The lots that stay unsold are those that the award leaves. What the winners bid, and what these lots are worth, is its total.
pub fn the_sums_add_up()
    ensures { SumsAddUp }
{}
