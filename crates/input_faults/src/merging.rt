//! Faults of a text, added to those of an input.

ghost use Rattle.std.specs.Prelude.{◌∷◌, [], List, OnOk, map};
ghost use Rattle.auction_terms.specs.AllFaults.{failed};
ghost use Rattle.auction_terms.specs.Judged.{Fault as Judged, Holds};
ghost use Rattle.auction_terms.specs.declared.limits.TheConstants.{MOST_FAULTS};
ghost use Rattle.auction_terms.specs.declared.groups_text.GroupFault.{GroupFault};
ghost use Rattle.auction_terms.specs.declared.rules_text.RulesFault.{RulesFault};
ghost use Rattle.bid_forms.specs.declared.form_text.FormFault.{FormFault};
ghost use Rattle.input_faults.specs.FaultsAs.{fault_as, judged_as};
ghost use Rattle.input_faults.specs.PartFaults.{unmet_fault};
ghost use Rattle.input_faults.specs.inside.Finding.{FindsMore};
ghost use Rattle.input_faults.specs.declared.fault.Fault.TheVariants as fault;

use crate::fault::Fault;
use crate::part_faults::unmet_fault;
use auction_input::{AnotherForm, Unmet};
use auction_terms::{All, FaultAt, GroupFault, RulesFault};
use bid_forms::FormFault;
use std::alloc::AllocError;

/// Adds the faults of rules.
pub fn add_rules(faults: &mut All<Fault>, found: All<RulesFault>) -> Result<(), AllocError>
    ensures { OnOk result ((reported : List (Judged RulesFault)) → Holds MOST_FAULTS found reported
        → FindsMore faults.old faults.new (judged_as fault.Rules reported)) }
{
    let All { kept, more, .. } = found;
    for at in kept {
        let fault = Fault::Rules(at.fault);
        faults.add(at.reported_as(fault))?;
    }
    faults.more = faults.more.saturating_add(more);
    Ok(())
}

/// Adds the faults of the form of that number.
pub fn add_form(
    faults: &mut All<Fault>,
    form: usize,
    found: All<FormFault>,
) -> Result<(), AllocError>
    ensures { OnOk result ((reported : List (Judged FormFault)) → Holds MOST_FAULTS found reported
        → FindsMore faults.old faults.new (judged_as (fault.Form form) reported)) }
{
    let All { kept, more, .. } = found;
    for at in kept {
        let fault = at.fault;
        let told = at.reported_as(Fault::Form { form, fault });
        faults.add(told)?;
    }
    faults.more = faults.more.saturating_add(more);
    Ok(())
}

/// Adds the faults of groups.
pub fn add_groups(faults: &mut All<Fault>, found: All<GroupFault>) -> Result<(), AllocError>
    ensures { OnOk result ((reported : List (Judged GroupFault)) → Holds MOST_FAULTS found reported
        → FindsMore faults.old faults.new (judged_as fault.Groups reported)) }
{
    let All { kept, more, .. } = found;
    for at in kept {
        let fault = Fault::Groups(at.fault);
        faults.add(at.reported_as(fault))?;
    }
    faults.more = faults.more.saturating_add(more);
    Ok(())
}

/// Adds the fault of the first form that is in another text than its bidder's first form, if there is one.
pub fn add_another(faults: &mut All<Fault>, refused: Option<AnotherForm>) -> Result<(), AllocError>
    ensures { OnOk result (FindsMore faults.old faults.new (fault_as fault.AnotherForm refused)) }
{
    match refused {
        Some(another) => faults.add(FaultAt::of_whole(Fault::AnotherForm(another), None)),
        None => Ok(()),
    }
}

/// Adds the fault of the first form without a call, if there is one.
pub fn add_call(faults: &mut All<Fault>, refused: Option<usize>) -> Result<(), AllocError>
    ensures { OnOk result (FindsMore faults.old faults.new (fault_as fault.CallLimit refused)) }
{
    match refused {
        Some(form) => faults.add(FaultAt::of_whole(Fault::CallLimit { form }, None)),
        None => Ok(()),
    }
}

// Adds what is unmet where a test fails.
fn add_test(faults: &mut All<Fault>, test: (bool, Unmet)) -> Result<(), AllocError>
    ensures { OnOk result (FindsMore faults.old faults.new (map unmet_fault (failed (test ∷ [])))) }
{
    let (met, unmet) = test;
    if met {
        return Ok(());
    }
    faults.add(unmet_fault(unmet))
}

/// Adds what is unmet of these tests.
pub fn add_unmet(faults: &mut All<Fault>, tests: &[(bool, Unmet)]) -> Result<(), AllocError>
    ensures { OnOk result (FindsMore faults.old faults.new (map unmet_fault (failed tests.now))) }
{
    for test in tests {
        add_test(faults, *test)?;
    }
    Ok(())
}
