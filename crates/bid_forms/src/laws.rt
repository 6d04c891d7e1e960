//! Laws over the definitions alone: which texts are forms, and what all faults of a text are.

ghost use Rattle.std.specs.Prelude.{◌≡◌, ◌↔◌, [], List, Ok, ℕ};
ghost use Rattle.auction_terms.specs.Accepted.{AreOfItems};
ghost use Rattle.auction_terms.specs.FirstOfAll.{FirstIsOfFirstFaulty};
ghost use Rattle.auction_terms.specs.Records.{Record};
ghost use Rattle.auction_terms.specs.Terms.{Terms};
ghost use Rattle.bid_forms.specs.AcceptedForms.{Describe};
ghost use Rattle.bid_forms.specs.FaultsOfRecords.{FormFaultsAreOfRecords};
ghost use Rattle.bid_forms.specs.FormText.{form_faults, form_of_records, record_faults};
ghost use Rattle.bid_forms.specs.Offers.{Offers};

/// A text has no fault exactly if its records describe a form; and that form is what is read.
pub fn accepted_forms_are_these()
    ensures accepted { (terms : Terms) (records : List Record)
        → form_faults terms records ≡ [] ↔ ((form : Offers) × Describe terms records form) }
    ensures read { (terms : Terms) (records : List Record) (form : Offers)
        → form_of_records terms records ≡ Ok form ↔ Describe terms records form }
{}

/// The first fault of the records of a form is of the first record that has one.
pub fn records_of_forms_tell_their_first_fault()
    ensures { (terms : Terms) (eligibility : ℕ) → FirstIsOfFirstFaulty (record_faults terms eligibility) }
{}

/// The faults of a form are those of its records, by the accepted ones before them; the accepted ones alone have none, but the header's.
pub fn faults_of_forms_are_of_their_records()
    ensures form { (terms : Terms) (name : List ℕ) (entries : List Record)
        → FormFaultsAreOfRecords terms name entries }
    ensures records { (terms : Terms) (eligibility : ℕ)
        → AreOfItems (record_faults terms eligibility) }
{}
