//! Whether there are so few bids that one thread is done with them sooner than several.

ghost use Rattle.std.specs.Prelude.{◌≡◌, length, nat_lt, sum_by};
ghost use Rattle.bid_desk.specs.Closing.{book_of};

use bid_desk::ClosedBook;

/// With fewer bids than this one thread does all: others would cost more time than they save.
pub const FEW_BIDS: usize = 4_096;

/// Whether the forms of a book have fewer bids together than `FEW_BIDS`. It takes no memory.
pub fn has_few_bids(book: &ClosedBook) -> bool
    ensures { result ≡ nat_lt (sum_by (λ form. length form) (book_of book.now)) FEW_BIDS }
{
    let bidders = book.rules().bidders().len() as u16;
    let mut left = FEW_BIDS;
    for place in 0..bidders {
        if let Some(form) = book.form(place + 1) {
            left = left.saturating_sub(form.bids().len());
        }
    }
    left > 0
}
