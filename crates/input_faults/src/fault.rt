//! A fault of an input.

ghost use Rattle.std.specs.Prelude.{◌≡◌};
ghost use Rattle.input_faults.specs.InputFaults.{refusal_of};

use auction_input::{AnotherForm, PartFault, PartKind, Refusal, Unmet};
use auction_terms::{GroupFault, RulesFault};
use bid_forms::FormFault;

/// A fault of an input: that of its parts, of a text in one, or of all forms together. Forms count from 1.
#[derive(Clone, Copy)]
pub enum Fault {
    Parts(PartFault),
    /// Parts are missing, or there are too many.
    PartCount(PartKind),
    Rules(RulesFault),
    Form { form: usize, fault: FormFault },
    /// The first form that is in another text than its bidder's first form.
    AnotherForm(AnotherForm),
    Groups(GroupFault),
    /// The first form that its bidder had no call left for.
    CallLimit { form: usize },
    /// What a command wants, once the groups are read.
    Unmet(Unmet),
}

impl Fault {
    /// The refusal of an input of which it is the first fault.
    pub fn refusal(self) -> Refusal
        ensures { result ≡ refusal_of self }
    {
        match self {
            Fault::Parts(fault) => Refusal::Parts(fault),
            Fault::PartCount(kind) => Refusal::PartCount(kind),
            Fault::Rules(fault) => Refusal::Rules(fault),
            Fault::Form { form, fault } => Refusal::Form { form, fault },
            Fault::AnotherForm(another) => Refusal::AnotherForm(another),
            Fault::Groups(fault) => Refusal::Groups(fault),
            Fault::CallLimit { form } => Refusal::CallLimit { form },
            Fault::Unmet(unmet) => unmet.refusal(),
        }
    }
}
