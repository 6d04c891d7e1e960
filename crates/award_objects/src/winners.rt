//! The objects of winners.

ghost use Rattle.std.specs.Prelude.{◌≡◌, ◌≤◌, [], flat_map, length, map};
ghost use Rattle.std.specs.Option.{option_map_or};
ghost use Rattle.auction_terms.specs.Allocations.{bid_at};
ghost use Rattle.auction_terms.specs.declared.limits.TheConstants.{MOST_CATEGORIES};
ghost use Rattle.bid_desk.specs.Closing.{book_of};
ghost use Rattle.bid_desk.specs.Sale.{sale_of};
ghost use Rattle.byte_sinks.specs.Adds.{Adds};
ghost use Rattle.byte_sinks.specs.Objects as of_lists;
ghost use Rattle.byte_sinks.specs.Objects.{count_seen, object_text};
ghost use Rattle.award_objects.specs.Objects as of_objects;
ghost use Rattle.award_objects.specs.Objects.{winner_members, winners_text};

use arrayvec::ArrayVec;
use auction_terms::{Bid, Category, Choice, MOST_CATEGORIES};
use bid_desk::ClosedBook;
use byte_sinks::{Count, Member, Sink, Writer, add_object};
use outcome::{amount_of, name_of};
use prices::reserve_of;

// The package of a bid, by its number among these.
fn package_in(bids: &[Bid], number: u16) -> &[u16]
    ensures { result.now ≡ option_map_or (λ x. x.package) (bid_at bids.now number) [] }
{
    if number == 0 {
        return &[];
    }
    match bids.get(usize::from(number) - 1) {
        Some(bid) => bid.package.quantities(),
        None => &[],
    }
}

// The package of the bid that a choice names; nothing if there is no such bid.
fn package_of(book: &ClosedBook, choice: Choice) -> &[u16]
    ensures { result.now ≡ of_objects.package_of (book_of book.now) choice }
{
    match book.form(choice.bidder) {
        Some(form) => package_in(form.bids(), choice.bid),
        None => &[],
    }
}

// Lots by the names of their categories.
type Lots<'r> = ArrayVec<Count<'r>, MOST_CATEGORIES>;

// The categories of which a package has lots, with how many.
fn lots_by_name<'r>(categories: &'r [Category], quantities: &[u16]) -> Lots<'r>
    requires { length categories.now ≤ MOST_CATEGORIES }
    ensures { map count_seen result.items
        ≡ of_objects.lots_by_name categories.now quantities.now }
{
    let mut lots = ArrayVec::new();
    for place in 0..quantities.len().min(categories.len()) {
        if quantities[place] > 0 {
            lots.push(Count {
                name: categories[place].name.as_bytes(),
                number: u128::from(quantities[place]),
            });
        }
    }
    lots
}

// Adds the object of a winner of group or award k, that takes these lots.
fn add_winner_of_lots<'w, S: Sink>(
    writer: &mut Writer<'_, S>,
    book: &'w ClosedBook,
    of: &'static [u8],
    k: usize,
    choice: Choice,
    lots: &'w [Count<'w>],
)
    requires { map count_seen lots.now ≡ of_objects.lots_by_name
        book.now.rules.categories
        (of_objects.package_of (book_of book.now) choice) }
    ensures { Adds S.state writer.old writer.new (object_text (winner_members
        book.now.rules (sale_of book.now) (of_lists.named_number of.now k) choice)) }
{
    let members = [
        Member::number(of, k as u128),
        Member::text(b"winner", name_of(book, choice.bidder)),
        Member::number(b"bid", u128::from(choice.bid)),
        Member::number(b"amount", u128::from(amount_of(book, choice))),
        Member::counts(b"lots", lots),
        Member::number(b"reserve", u128::from(reserve_of(book, choice))),
    ];
    add_object(writer, &members);
}

// Adds the object of a winner of group or award k.
fn add_winner<S: Sink>(
    writer: &mut Writer<'_, S>,
    book: &ClosedBook,
    of: &'static [u8],
    k: usize,
    choice: Choice,
)
    ensures { Adds S.state writer.old writer.new (object_text (winner_members
        book.now.rules (sale_of book.now) (of_lists.named_number of.now k) choice)) }
{
    let lots = lots_by_name(book.rules().categories(), package_of(book, choice));
    add_winner_of_lots(writer, book, of, k, choice, lots.as_slice());
}

/// Adds the objects of the winners by the allocation of group or award k.
pub(crate) fn add_winners<S: Sink>(
    writer: &mut Writer<'_, S>,
    book: &ClosedBook,
    of: &'static [u8],
    k: usize,
    choices: &[Choice],
)
    ensures { Adds S.state writer.old writer.new (winners_text book.now.rules (sale_of book.now)
        (of_lists.named_number of.now k) choices.now) }
{
    for choice in choices {
        add_winner(writer, book, of, k, *choice);
    }
}
