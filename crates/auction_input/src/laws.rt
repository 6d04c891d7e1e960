//! Laws over the definitions alone: which part of the input, which form in another text, and which form beyond the call limit, is
//! refused; of which forms the book is; and the limit of an input.

ghost use Rattle.std.specs.Prelude.{◌≡◌, ◌↔◌, Err, List, Ok};
ghost use Rattle.auction_terms.specs.FirstFault.{TellsTheFirst};
ghost use Rattle.auction_input.specs.Auction.{Auction, parsed_auction};
ghost use Rattle.auction_input.specs.CallLimit.{one_too_many};
ghost use Rattle.auction_input.specs.Described.{Describes};
ghost use Rattle.auction_input.specs.FormTexts.{another_form};
ghost use Rattle.auction_input.specs.Input.{Input};
ghost use Rattle.auction_input.specs.LastForms.{FormParts, IsOfAuction, parsed_forms};
ghost use Rattle.auction_input.specs.ParsedParts.{parsed_parts};
ghost use Rattle.auction_input.specs.Parts.{Part, part_fault};
ghost use Rattle.auction_input.specs.SameForms.{SameFormsAreOneSale};
ghost use Rattle.auction_input.specs.SealedTexts.{SameTextsAreOneSale};
ghost use Rattle.auction_input.specs.declared.input.TheConstants.{INPUT_LIMIT};
ghost use Rattle.auction_terms.specs.Terms.{Terms};
ghost use Rattle.auction_input.specs.declared.refusal.Refusal.{Refusal};
ghost use Rattle.auction_input.specs.declared.request.Request.{Request};
ghost use Rattle.auction_input.specs.declared.request.Request.TheVariants as request;

/// The auction that is read of an input is the one that the input describes; an input that describes none is refused.
pub fn inputs_are_read_as_they_describe()
    ensures { (asked : Request) (input : Input) (auction : Auction)
        → parsed_auction asked input ≡ Ok auction ↔ Describes asked input auction }
{}

/// The parts of an input have the fault of the first of them with a fault.
pub fn parts_tell_their_first_fault()
    ensures { (request : Request) → TellsTheFirst (part_fault request) }
{}

/// The form that is in another text than its bidder's first form is the first such form.
pub fn forms_tell_the_first_in_another_text()
    ensures { (t : Terms) → TellsTheFirst (another_form t) }
{}

/// The form that meets the call limit is the first for which its bidder has no call left.
pub fn forms_tell_the_first_beyond_the_call_limit()
    ensures { TellsTheFirst one_too_many }
{}

/// An input that describes an auction to any command has rules and forms for `forms`, too: the bytes of the rules describe the
/// auction's rules, and those of each bidder's last form just the bids that the book has of it.
pub fn last_forms_are_those_of_the_book()
    ensures { (asked : Request) (input : Input) (auction : Auction)
        → parsed_auction asked input ≡ Ok auction
        → (read : FormParts) × (parsed_forms input ≡ Ok read) × IsOfAuction read auction }
{}

/// Two inputs whose rules have the same bytes, and in which each bidder's last form has the same bytes, describe auctions with the
/// same rules and the same sale, to whatever commands.
pub fn same_forms_are_one_sale()
    ensures { SameFormsAreOneSale }
{}

/// The same of what two inputs describe: where the text of their rules is the same, and the text of each bidder's last form, the two
/// auctions have the same rules and the same sale.
pub fn same_texts_are_one_sale()
    ensures { SameTextsAreOneSale }
{}

/// If `text` takes an input's parts, `forms` refuses it if `text` does, and for the same.
pub fn forms_are_refused_as_by_text()
    ensures { (input : Input) (parts : List Part) → parsed_parts request.Text input ≡ Ok parts
        → (r : Refusal) → (parsed_forms input ≡ Err r) ↔ (parsed_auction request.Text input ≡ Err r) }
{}

/// An input has at most so many bytes.
pub fn the_limits_are_these()
    ensures { INPUT_LIMIT ≡ 134217728 }
{}
