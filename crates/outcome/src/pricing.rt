//! What the winners pay.

use std::marker::Model;

/// The price of each bidder in parts of a pound, bidder 1's first and 0 for one that wins nothing; how many parts make a pound, at
/// least 1; and whether these are the prices of the rule.
#[derive(Drop)]
pub struct Pricing {
    parts: u64,
    prices: Vec<u64>,
    by_rule: bool,
}

impl Model for Pricing {
    ghost use Rattle.std.specs.Prelude.{◌≤◌};
    ghost use Rattle.outcome.specs.Pricing.{Priced};

    ghost Value = { Priced };

    ghost view = { λ p. record { parts = p.parts; prices = p.prices.items; by_rule = p.by_rule } };

    ghost invariant = { λ p. 1 ≤ p.parts };
}

impl Pricing {
    ghost use Rattle.std.specs.Prelude.{◌≡◌, ◌≤◌};
    ghost use Rattle.outcome.specs.Pricing.{in_pounds, price_in};

    pub fn new(parts: u64, prices: Vec<u64>, by_rule: bool) -> Pricing
        requires { 1 ≤ parts }
        ensures { result ≡ record { parts = parts; prices = prices.items; by_rule = by_rule } }
    {
        Pricing {
            parts,
            prices,
            by_rule,
        }
    }

    /// How many parts make a pound.
    pub fn parts(&self) -> u64
        ensures parts { result ≡ self.now.parts }
        ensures some { 1 ≤ result }
    {
        self.parts
    }

    /// The price of each bidder in parts of a pound, bidder 1's first and 0 for one that wins nothing.
    pub fn prices(&self) -> &[u64]
        ensures { result.now ≡ self.now.prices }
    {
        self.prices.as_slice()
    }

    /// Whether these are the prices of the rule.
    pub fn by_rule(&self) -> bool
        ensures { result ≡ self.now.by_rule }
    {
        self.by_rule
    }

    /// What a bidder pays: its price, rounded up to whole pounds.
    pub fn pounds(&self, bidder: u16) -> u64
        ensures { result ≡ in_pounds self.now.parts (price_in self.now.prices) bidder }
    {
        price_of(self.prices(), bidder).div_ceil(self.parts())
    }
}

ghost use Rattle.std.specs.Prelude.{◌≡◌, ◌≤◌, ◌*◌, ◌^◌, ◌∷◌, ◌++◌, ◌==◌, [], Some, codes, decimal, flat_map, if◌then◌else◌, length};
ghost use Rattle.byte_sinks.specs.Adds.{Adds};
ghost use Rattle.bid_desk.specs.Sale.{sale_of};
ghost use Rattle.auction_terms.specs.Fractions.{fraction_text};
ghost use Rattle.outcome.specs.Pricing as of_prices;
ghost use Rattle.outcome.specs.Pricing.{amount_text, exact_text, in_pounds, price_in, price_line, pricing_text, rule_line, sum_line};

use crate::allocation::Allocation;
use crate::sale::name_of;
use auction_terms::{Choice, gcd};
use bid_desk::ClosedBook;
use byte_sinks::{Sink, Writer};
use itoa::Buffer;

/// The price of a bidder, by a list with the price of bidder 1 first; 0 for a bidder beyond its end.
pub fn price_of(prices: &[u64], bidder: u16) -> u64
    ensures { result ≡ price_in prices.now bidder }
{
    if bidder == 0 {
        return 0;
    }
    match prices.get(bidder as usize - 1) {
        Some(price) => *price,
        None => 0,
    }
}

/// The sum of the winners' prices.
pub fn paid(prices: &[u64], choices: &[Choice]) -> u128
    ensures sum { result ≡ of_prices.paid (price_in prices.now) choices.now }
    ensures small { result ≤ length choices.now * 2 ^ 64 }
{
    let mut sum: u128 = 0;
    for choice in choices {
        sum += u128::from(price_of(prices, choice.bidder));
    }
    sum
}

/// The sum of what the winners pay in whole pounds.
pub fn paid_in_pounds(pricing: &Pricing, choices: &[Choice]) -> u128
    ensures sum { result ≡ of_prices.paid (in_pounds pricing.now.parts (price_in pricing.now.prices))
        choices.now }
    ensures small { result ≤ length choices.now * 2 ^ 64 }
{
    let mut sum: u128 = 0;
    for choice in choices {
        sum += u128::from(pricing.pounds(choice.bidder));
    }
    sum
}

/// Whether that many pounds are that many parts.
pub fn is_exact(parts: u64, pounds: u128, exact: u128) -> bool
    requires { 1 ≤ parts }
    ensures { result ≡ (parts * pounds == exact) }
{
    exact % u128::from(parts) == 0 && exact / u128::from(parts) == pounds
}

/// Adds the denominator of a fraction that isn't whole.
fn add_denominator<S: Sink>(writer: &mut Writer<'_, S>, denominator: u64)
    ensures { Adds S.state writer.old writer.new
        (if denominator == 1 then [] else 47 ∷ decimal denominator) }
{
    if denominator == 1 {
        writer.add(b"");
        return;
    }
    let mut buffer = Buffer::new();
    let pieces: [&[u8]; 2] = [b"/", buffer.format(denominator).as_bytes()];
    writer.add_pieces(&pieces);
}

/// Adds a whole number.
fn add_whole<S: Sink>(writer: &mut Writer<'_, S>, number: u128)
    ensures { Adds S.state writer.old writer.new (decimal number) }
{
    let mut buffer = Buffer::new();
    let pieces: [&[u8]; 1] = [buffer.format(number).as_bytes()];
    writer.add_pieces(&pieces);
}

/// Adds a number of parts, in pounds, as a fraction in lowest terms.
fn add_fraction<S: Sink>(writer: &mut Writer<'_, S>, parts: u64, exact: u128)
    requires { 1 ≤ parts }
    ensures { Adds S.state writer.old writer.new (fraction_text parts exact) }
{
    let divisor = gcd(exact, parts);
    add_whole(writer, exact / u128::from(divisor));
    add_denominator(writer, parts / divisor);
}

/// Adds the exact amount, if it is another one than what is paid.
fn add_exact<S: Sink>(writer: &mut Writer<'_, S>, parts: u64, pounds: u128, exact: u128)
    requires { 1 ≤ parts }
    ensures { Adds S.state writer.old writer.new (exact_text parts pounds exact) }
{
    if is_exact(parts, pounds, exact) {
        writer.add(b"");
    } else {
        writer.add(b" ");
        add_fraction(writer, parts, exact);
    }
}

/// Adds what is paid, the exact amount if it is another one, and the end of the line.
fn add_amount<S: Sink>(writer: &mut Writer<'_, S>, parts: u64, pounds: u128, exact: u128)
    requires { 1 ≤ parts }
    ensures { Adds S.state writer.old writer.new
        (amount_text parts pounds exact ++ 10 ∷ []) }
{
    add_whole(writer, pounds);
    add_exact(writer, parts, pounds, exact);
    writer.add(b"\n");
}

/// Adds the line of a winner's price.
fn add_price<S: Sink>(
    writer: &mut Writer<'_, S>,
    book: &ClosedBook,
    pricing: &Pricing,
    choice: Choice,
)
    ensures { Adds S.state writer.old writer.new
        (price_line (sale_of book.now) pricing.now choice) }
{
    let exact = price_of(pricing.prices(), choice.bidder);
    let pounds = pricing.pounds(choice.bidder);
    let pieces: [&[u8]; 2] = [name_of(book, choice.bidder), b" "];
    writer.add_pieces(&pieces);
    add_amount(
        writer,
        pricing.parts(),
        u128::from(pounds),
        u128::from(exact),
    );
}

/// Adds the lines of the winners' prices.
fn add_prices<S: Sink>(
    writer: &mut Writer<'_, S>,
    book: &ClosedBook,
    pricing: &Pricing,
    choices: &[Choice],
)
    ensures { Adds S.state writer.old writer.new
        (flat_map (price_line (sale_of book.now) pricing.now) choices.now) }
{
    for choice in choices {
        add_price(writer, book, pricing, *choice);
    }
}

/// Adds the line of the sum.
fn add_sum<S: Sink>(writer: &mut Writer<'_, S>, pricing: &Pricing, choices: &[Choice])
    ensures { Adds S.state writer.old writer.new (sum_line pricing.now choices.now) }
{
    let pounds = paid_in_pounds(pricing, choices);
    let exact = paid(pricing.prices(), choices);
    writer.add(b"sum ");
    add_amount(writer, pricing.parts(), pounds, exact);
}

/// Adds the last line, if these are the prices of the rule.
fn add_rule<S: Sink>(writer: &mut Writer<'_, S>, by_rule: bool)
    ensures { Adds S.state writer.old writer.new (rule_line by_rule) }
{
    if by_rule {
        writer.add(b"by the rule\n");
    } else {
        writer.add(b"");
    }
}

/// Adds what the winners pay, and whether it is by the rule, if there are prices.
pub fn add_pricing<S: Sink>(
    writer: &mut Writer<'_, S>,
    book: &ClosedBook,
    first: &Allocation,
    pricing: &Option<Pricing>,
)
    ensures { Adds S.state writer.old writer.new
        (pricing_text (sale_of book.now) first.now pricing.now) }
{
    match pricing {
        Some(pricing) => {
            let choices = first.choices();
            writer.add(b"prices\n");
            add_prices(writer, book, pricing, choices);
            add_sum(writer, pricing, choices);
            add_rule(writer, pricing.by_rule());
        }
        None => writer.add(b""),
    }
}
