//! Reading prices, a line at a time.

ghost use Rattle.std.specs.Prelude.{◌≡◌, ◌⊎◌, ◌≤◌, ◌==◌, ◌<◌, ◌*◌, ◌^◌, All, Err, IfErr, IfOk, IfSome, Ok, OnOk, ◌∷◌, [], slice_index};
ghost use Rattle.std.specs.Option.{option_map_or};
ghost use Rattle.auction_input.specs.PriceTexts as of_texts;
ghost use Rattle.auction_terms.specs.Fractions.{fraction_of, in_parts};
ghost use Rattle.auction_terms.specs.declared.limits.TheConstants.{GREATEST_AMOUNT, MOST_PARTS};
ghost use Rattle.auction_input.specs.PriceTexts.{IsWithinAmounts, checked_price, given_fields, has_price, parsed_price, parsed_price_text, common_parts, price_given, price_in_fields, with_given};
ghost use Rattle.auction_input.specs.inside.Prices.{StaysWhole};
ghost use Rattle.auction_input.specs.declared.price_fault.PriceFault.TheVariants.{OutOfMemory};
ghost use Rattle.auction_terms.specs.LineFields.{fields};

use crate::price_fault::PriceFault;
use crate::price_names::Known;
use auction_terms::{
    Fraction, GREATEST_AMOUNT, LineReader, MOST_PARTS, in_parts, lcm, next_field, read_fraction,
};
use std::alloc::{AllocError, Global};

/// The price that a line gives a winner, and the place of the line, from 1.
#[derive(Clone, Copy)]
pub struct GivenPrice {
    pub bidder: u16,
    pub price: Fraction,
    pub place: usize,
}

/// The prices that lines give, and the least number of parts of a pound in which they are whole.
#[derive(Drop)]
pub struct GivenPrices {
    pub prices: Vec<GivenPrice>,
    pub parts: u64,
}

// Whether a winner has a price.
fn has_price(given: &[GivenPrice], bidder: u16) -> bool
    ensures { result ≡ has_price given.now bidder }
{
    given.iter().any(|it| it.bidder == bidder)
}

// The price that a line at this place gives a winner, after lines whose prices are whole in these parts.
fn checked_price(
    parts: u64,
    place: usize,
    bidder: u16,
    text: &[u8],
) -> Result<GivenPrice, PriceFault>
    requires some { 1 ≤ parts }
    requires few { parts ≤ MOST_PARTS }
    ensures price { result ≡ checked_price parts place bidder (fraction_of text.now) }
    ensures fits { IfOk result (StaysWhole parts) }
{
    let Some(price) = read_fraction(text) else {
        return Err(PriceFault::NumberText { place });
    };
    if price.denominator == 0 || price.denominator > MOST_PARTS {
        return Err(PriceFault::DenominatorRange { place });
    }
    let greatest = u128::from(GREATEST_AMOUNT) * u128::from(price.denominator);
    if u128::from(price.numerator) > greatest {
        return Err(PriceFault::PriceRange { place });
    }
    if lcm(parts, price.denominator) > MOST_PARTS {
        return Err(PriceFault::TooManyParts { place });
    }
    Ok(GivenPrice {
        bidder,
        price,
        place,
    })
}

// The price that a line at this place gives a winner, after lines that gave these.
fn parsed_price(
    before: &GivenPrices,
    place: usize,
    text: &[u8],
    bidder: u16,
) -> Result<GivenPrice, PriceFault>
    requires parts { before.now.parts ≡ common_parts before.now.prices.items }
    requires some { 1 ≤ before.now.parts }
    requires few { before.now.parts ≤ MOST_PARTS }
    ensures price { result ≡ parsed_price before.now.prices.items place text.now bidder }
    ensures fits { IfOk result (StaysWhole before.now.parts) }
{
    if has_price(&before.prices, bidder) {
        return Err(PriceFault::RepeatedName { place });
    }
    checked_price(before.parts, place, bidder, text)
}

// The price in a line of a name and a number.
fn named_price(
    known: &Known<'_>,
    before: &GivenPrices,
    place: usize,
    name: &[u8],
    text: &[u8],
) -> Result<Option<GivenPrice>, PriceFault>
    requires parts { before.now.parts ≡ common_parts before.now.prices.items }
    requires some { 1 ≤ before.now.parts }
    requires few { before.now.parts ≤ MOST_PARTS }
    ensures price { result ≡ price_in_fields known.now before.now.prices.items place
        (name.now ∷ text.now ∷ []) }
    ensures fits { IfOk result (λ found. IfSome found (StaysWhole before.now.parts)) }
{
    let bidder = known.winner_named(place, name)?;
    Ok(Some(parsed_price(before, place, text, bidder)?))
}

// Whether a line is a comment.
fn is_comment(line: &[u8]) -> bool
    ensures { result ≡ (slice_index line.now 0 == 35) }
{
    !line.is_empty() && line[0] == b'#'
}

/// A line without what a comment says.
pub(crate) fn given_line(line: &[u8]) -> &[u8]
    ensures { fields result.now ≡ given_fields line.now }
{
    if is_comment(line) {
        return b"".as_slice();
    }
    line
}

// The price in a line, if there is one.
fn price_in_line(
    known: &Known<'_>,
    before: &GivenPrices,
    place: usize,
    line: &[u8],
) -> Result<Option<GivenPrice>, PriceFault>
    requires parts { before.now.parts ≡ common_parts before.now.prices.items }
    requires some { 1 ≤ before.now.parts }
    requires few { before.now.parts ≤ MOST_PARTS }
    ensures price { result ≡ price_in_fields known.now before.now.prices.items place
        (fields line.now) }
    ensures fits { IfOk result (λ found. IfSome found (StaysWhole before.now.parts)) }
{
    let Some(first) = next_field(line) else {
        return Ok(None);
    };
    let Some(second) = next_field(first.rest) else {
        return Err(PriceFault::Fields { place });
    };
    if next_field(second.rest).is_some() {
        return Err(PriceFault::Fields { place });
    }
    named_price(known, before, place, first.text, second.text)
}

// Adds the price of a line, if it gives one.
fn add(given: &mut GivenPrices, more: Option<GivenPrice>) -> Result<(), AllocError>
    requires parts { given.now.parts ≡ common_parts given.now.prices.items }
    requires some { 1 ≤ given.now.parts }
    requires few { given.now.parts ≤ MOST_PARTS }
    requires within { All IsWithinAmounts given.now.prices.items }
    requires fits { IfSome more (StaysWhole given.now.parts) }
    ensures added { OnOk result (given.new.prices.items
        ≡ with_given given.old.prices.items more) }
    ensures parts { OnOk result (given.new.parts ≡ common_parts given.new.prices.items) }
    ensures some { OnOk result (1 ≤ given.new.parts) }
    ensures few { OnOk result (given.new.parts ≤ MOST_PARTS) }
    ensures within { OnOk result (All IsWithinAmounts given.new.prices.items) }
{
    if let Some(it) = more {
        given.parts = lcm(given.parts, it.price.denominator);
        given.prices.push(it)?;
    }
    Ok(())
}

/// Reads the prices of a text.
pub fn read_prices(alloc: Global, text: &[u8], known: &Known<'_>) -> Result<GivenPrices, PriceFault>
    ensures given { IfOk result (λ given. parsed_price_text known.now text.now
        ≡ Ok given.prices.items) }
    ensures parts { IfOk result (λ given. given.parts ≡ common_parts given.prices.items) }
    ensures some { IfOk result (λ given. 1 ≤ given.parts) }
    ensures few { IfOk result (λ given. given.parts ≤ MOST_PARTS) }
    ensures within { IfOk result (λ given. All IsWithinAmounts given.prices.items) }
    ensures refuses { IfErr result (λ f. (f ≡ OutOfMemory)
        ⊎ (parsed_price_text known.now text.now ≡ Err f)) }
{
    let mut given = GivenPrices {
        prices: Vec::new(alloc),
        parts: 1,
    };
    let mut lines = LineReader::new(text);
    let mut place = 0;
    while let Some(line) = lines.next() {
        place += 1;
        let found = price_in_line(known, &given, place, given_line(line))?;
        add(&mut given, found)?;
    }
    Ok(given)
}

/// The price of a winner, if it is given one.
pub fn price_given(given: &[GivenPrice], bidder: u16) -> Option<GivenPrice>
    requires within { All IsWithinAmounts given.now }
    ensures given { result ≡ price_given given.now bidder }
    ensures within { IfSome result IsWithinAmounts }
{
    given.iter().copied().find(|it| it.bidder == bidder)
}

// The price of a bidder in parts of a pound; 0 if it is given none.
fn price_in_parts(parts: u64, given: &[GivenPrice], bidder: u16) -> u64
    requires few { parts ≤ MOST_PARTS }
    requires within { All IsWithinAmounts given.now }
    ensures { result ≡ option_map_or (λ g. in_parts parts g.price) (price_given given.now bidder) 0 }
{
    match price_given(given, bidder) {
        Some(it) => in_parts(parts, it.price),
        None => 0,
    }
}

/// The prices of that many bidders in parts of a pound, bidder 1's first; one that is given none has 0.
pub fn prices_in_parts(
    alloc: Global,
    parts: u64,
    given: &[GivenPrice],
    count: u16,
) -> Result<Vec<u64>, AllocError>
    requires few { parts ≤ MOST_PARTS }
    requires within { All IsWithinAmounts given.now }
    requires count { count < 2 ^ 15 }
    ensures { IfOk result (λ prices. prices.items
        ≡ of_texts.prices_in_parts parts given.now count) }
{
    let mut prices = Vec::new(alloc);
    for place in 0..count {
        prices.push(price_in_parts(parts, given, place + 1))?;
    }
    Ok(prices)
}
