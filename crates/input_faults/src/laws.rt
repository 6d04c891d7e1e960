//! Laws over the definitions alone: all faults of an input begin with the one that is reported, the bytes that a fault keeps show the whole text, and a reader of JSON finds in a string its text.

ghost use Rattle.std.specs.Prelude.{◌≡◌, ◌++◌, ◌∷◌, ◌<◌, ℕ, List, Some, flat_map, take};
ghost use Rattle.std.specs.Char.{encode_utf8};
ghost use Rattle.std.specs.List.{All};
ghost use Rattle.auction_input.specs.Input.{Input};
ghost use Rattle.auction_terms.specs.declared.limits.TheConstants.{FRONT_LEN};
ghost use Rattle.byte_sinks.specs.Json.{json_text};
ghost use Rattle.input_faults.specs.Shown.{shown_text};
ghost use Rattle.json.specs.Text.{content, plain};
ghost use Rattle.auction_input.specs.PartCounts.{parsed_taken};
ghost use Rattle.input_faults.specs.FaultsAs.{BeginWith, judged_as};
ghost use Rattle.input_faults.specs.InputFaults.{input_faults, refusal_of};
ghost use Rattle.auction_input.specs.declared.request.Request.{Request};

/// An input has no fault if it describes an auction that has what the request's command wants, and else the first one is that of the refusal that is reported.
pub fn all_faults_begin_with_the_one_that_is_reported()
    ensures { (asked : Request) (input : Input)
        → BeginWith (judged_as refusal_of (input_faults asked input)) (parsed_taken asked input) }
{}

/// What is shown of a text is what is shown of the first bytes that a fault keeps of it.
pub fn a_text_is_shown_by_its_first_bytes()
    ensures { (text : List ℕ) → shown_text (take FRONT_LEN text) ≡ shown_text text }
{}

/// A reader of JSON finds in a string, up to the quotation mark at its end, of each byte of the text the character with its number.
pub fn a_string_is_read_as_its_text()
    ensures { (text rest : List ℕ) → All (λ byte. byte < 256) text
        → content plain (json_text text ++ 34 ∷ rest) ≡ Some (flat_map encode_utf8 text) }
{}
