//! What the winners pay, and what a cover and a rule show of it.

ghost use Rattle.std.specs.Prelude.{◌≡◌, ◌<◌, ◌≤◌, ◌*◌, ◌⊎◌, ◌∷◌, [], All, Err, IfErr, IfOk, None, Ok, OnOk, Some, false, length, slice_index_or, true};
ghost use Rattle.std.specs.List.{AllZip};
ghost use Rattle.auction_input.specs.PriceTexts.{IsWithinAmounts, parsed_price_text, parsed_rule_lines, common_parts, weights_of_bidders, weights_of_groups};
ghost use Rattle.auction_input.specs.Refused.{Refuses};
ghost use Rattle.auction_input.specs.Settled.{held};
ghost use Rattle.auction_terms.specs.Allocations.{IsFeasible};
ghost use Rattle.auction_terms.specs.FirstFault.{first_failed};
ghost use Rattle.auction_terms.specs.Groups.{has, starts_empty};
ghost use Rattle.auction_terms.specs.Stages.{refused_as};
ghost use Rattle.auction_terms.specs.Terms.{lots_in};
ghost use Rattle.auction_terms.specs.declared.limits.TheConstants.{MOST_PARTS};
ghost use Rattle.bid_desk.specs.Closing.{book_of};
ghost use Rattle.bid_desk.specs.Sale.{sale_of};
ghost use Rattle.group_compiler.specs.Compiled.{compiling};
ghost use Rattle.answers.specs.Pricing as of_prices;
ghost use Rattle.answers.specs.Pricing.{IsTooWideCover, IsTooWidePriced, IsTooWidePricing, alone_refused, covered};
ghost use Rattle.answers.specs.Pricing.{fault_of_rule, parsed_by_rule, parsed_prices, parsed_pricing, parsed_rule, price_fault, pricing_counts, rule_of};
ghost use Rattle.answers.specs.Pricing.{unshown_refused, winner_fault, winners_fault};
ghost use Rattle.answers.specs.SolutionWinners.{winners_of_groups};
ghost use Rattle.answers.specs.inside.RuleHeld.{in_parts_held, rule_held};
ghost use Rattle.outcome.specs.Pricing.{price_in};
ghost use Rattle.prices.specs.Alone.{AreCostsAlone};
ghost use Rattle.prices.specs.Blocking.{ArePrices};
ghost use Rattle.prices.specs.Parts.{AreAtLeastReserves, Suffice};
ghost use Rattle.prices.specs.Prices.{reserves_in};
ghost use Rattle.program_rows.specs.Faithful.{IsGreatest};

use crate::report_run::text_at;
use auction_input::{
    Aim, Auction, GivenPrice, GivenPrices, Known, Name, PartKind, PriceFault, Refusal, RuleLine,
    price_given, prices_in_parts, read_prices, read_rule_lines, weights_of_bidders,
    weights_of_groups,
};
use auction_terms::{Choice, in_parts};
use bid_desk::ClosedBook;
use group_compiler::Compiler;
use outcome::{Allocation, Pricing, amount_of, name_of};
use prices::{
    AloneFault, Listed, Payments, Rule, RuleFault, Weights, check_cover, costs_alone, reserve_of,
    show_the_prices,
};
use std::alloc::{AllocError, Global};

// An amount in parts of a pound.
fn amount_in_parts(parts: u64, amount: u64) -> u128
    ensures { result ≡ parts * amount }
{
    u128::from(parts) * u128::from(amount)
}

// Why a winner's price is none.
fn price_refused(
    book: &ClosedBook,
    parts: u64,
    choice: Choice,
    given: GivenPrice,
) -> Result<(), Refusal>
    requires few { parts ≤ MOST_PARTS }
    requires within { IsWithinAmounts given }
    ensures fine { OnOk result (price_fault book.now.rules (sale_of book.now) parts choice
        (Some given) ≡ None) }
    ensures refused { IfErr result (λ r. price_fault book.now.rules (sale_of book.now) parts
        choice (Some given) ≡ Some r) }
{
    let place = given.place;
    let price = u128::from(in_parts(parts, given.price));
    if price > amount_in_parts(parts, amount_of(book, choice)) {
        return Err(Refusal::Prices(PriceFault::AboveAmount { place }));
    }
    if price < amount_in_parts(parts, reserve_of(book, choice)) {
        return Err(Refusal::Prices(PriceFault::BelowReserve { place }));
    }
    Ok(())
}

// The refusal of prices that leave a winner out.
fn missing(alloc: Global, book: &ClosedBook, parts: u64, choice: Choice) -> Refusal
    ensures { (result ≡ Refusal.OutOfMemory) ⊎ (price_fault book.now.rules (sale_of book.now)
        parts choice None ≡ Some result) }
{
    match Name::copied(alloc, name_of(book, choice.bidder)) {
        Ok(bidder) => Refusal::MissingPrice { bidder },
        Err(_) => Refusal::OutOfMemory,
    }
}

// Checks that a winner is given a price.
fn check_winner(
    alloc: Global,
    book: &ClosedBook,
    given: &GivenPrices,
    choice: Choice,
) -> Result<(), Refusal>
    requires parts { given.now.parts ≡ common_parts given.now.prices.items }
    requires few { given.now.parts ≤ MOST_PARTS }
    requires within { All IsWithinAmounts given.now.prices.items }
    ensures fine { OnOk result (winner_fault book.now.rules (sale_of book.now)
        given.now.prices.items choice ≡ None) }
    ensures refused { IfErr result (λ r. (r ≡ Refusal.OutOfMemory) ⊎ (winner_fault book.now.rules
        (sale_of book.now) given.now.prices.items choice ≡ Some r)) }
{
    match price_given(given.prices.as_slice(), choice.bidder) {
        Some(price) => price_refused(book, given.parts, choice, price),
        None => Err(missing(alloc, book, given.parts, choice)),
    }
}

// Checks that each winner is given a price.
fn check_winners(
    alloc: Global,
    book: &ClosedBook,
    given: &GivenPrices,
    choices: &[Choice],
) -> Result<(), Refusal>
    requires parts { given.now.parts ≡ common_parts given.now.prices.items }
    requires few { given.now.parts ≤ MOST_PARTS }
    requires within { All IsWithinAmounts given.now.prices.items }
    ensures fine { OnOk result (winners_fault book.now.rules (sale_of book.now)
        given.now.prices.items choices.now ≡ None) }
    ensures refused { IfErr result (λ r. (r ≡ Refusal.OutOfMemory) ⊎ (winners_fault book.now.rules
        (sale_of book.now) given.now.prices.items choices.now ≡ Some r)) }
{
    for choice in choices {
        check_winner(alloc, book, given, *choice)?;
    }
    Ok(())
}

// Reads what the lines of prices give.
fn given_prices(alloc: Global, text: &[u8], known: &Known<'_>) -> Result<GivenPrices, Refusal>
    ensures parsed { IfOk result (λ given. refused_as Refusal.Prices
        (parsed_price_text known.now text.now) ≡ Ok given.prices.items) }
    ensures parts { IfOk result (λ given. given.parts ≡ common_parts given.prices.items) }
    ensures some { IfOk result (λ given. 1 ≤ given.parts) }
    ensures few { IfOk result (λ given. given.parts ≤ MOST_PARTS) }
    ensures within { IfOk result (λ given. All IsWithinAmounts given.prices.items) }
    ensures refuses { IfErr result (Refuses (refused_as Refusal.Prices
        (parsed_price_text known.now text.now))) }
{
    match read_prices(alloc, text, known) {
        Ok(given) => Ok(given),
        Err(fault) => Err(Refusal::Prices(fault)),
    }
}

// Reads what the lines of a rule give.
fn given_rule(alloc: Global, text: &[u8], known: &Known<'_>) -> Result<Vec<RuleLine>, Refusal>
    ensures parsed { IfOk result (λ given. refused_as Refusal.Rule
        (parsed_rule_lines known.now text.now) ≡ Ok given.items) }
    ensures refuses { IfErr result (Refuses (refused_as Refusal.Rule
        (parsed_rule_lines known.now text.now))) }
{
    match read_rule_lines(alloc, text, known) {
        Ok(given) => Ok(given),
        Err(fault) => Err(Refusal::Rule(fault)),
    }
}

// How many bidders there are.
fn bidder_count(book: &ClosedBook) -> u16
    ensures count { result ≡ length book.now.rules.bidders }
    ensures few { result ≤ 256 }
{
    book.rules().bidders().len() as u16
}

/// Prices in parts of a pound, bidder 1's first, and how many parts make one.
#[derive(Drop)]
struct InParts {
    parts: u64,
    prices: Vec<u64>,
}

// Reads the prices of a text.
fn prices_of_text(
    alloc: Global,
    auction: &Auction<'_>,
    first: &Allocation,
    text: &[u8],
) -> Result<InParts, Refusal>
    ensures parsed { IfOk result (λ p. parsed_prices (held auction.now) first.now text.now
        ≡ Ok (in_parts_held p)) }
    ensures some { IfOk result (λ p. 1 ≤ p.parts) }
    ensures few { IfOk result (λ p. p.parts ≤ MOST_PARTS) }
    ensures refuses { IfErr result (Refuses (parsed_prices (held auction.now) first.now text.now)) }
{
    let known = Known::new(
        auction.book.rules(),
        first.choices(),
        auction.groups.count(),
    );
    let given = given_prices(alloc, text, &known)?;
    check_winners(alloc, &auction.book, &given, first.choices())?;
    let count = bidder_count(&auction.book);
    let prices = prices_in_parts(alloc, given.parts, given.prices.as_slice(), count)?;
    Ok(InParts {
        parts: given.parts,
        prices,
    })
}

/// The weights of groups and bidders for an aim, by its scale.
#[derive(Drop)]
struct AimWeights {
    scale: u64,
    groups: Vec<u64>,
    own: Vec<u64>,
}

// The weights that lines give for an aim.
fn weights_for(
    alloc: Global,
    auction: &Auction<'_>,
    given: &[RuleLine],
    aim: Aim,
    scale: u64,
) -> Result<AimWeights, AllocError>
    ensures scale { IfOk result (λ w. w.scale ≡ scale) }
    ensures groups { IfOk result (λ w. w.groups.items
        ≡ weights_of_groups aim given.now (length auction.now.groups)) }
    ensures own { IfOk result (λ w. w.own.items
        ≡ weights_of_bidders aim given.now (length auction.now.book.rules.bidders)) }
    ensures many { IfOk result (λ w. length w.groups.items ≡ length auction.now.groups) }
{
    let groups = weights_of_groups(alloc, aim, given, auction.groups.count())?;
    let own = weights_of_bidders(alloc, aim, given, bidder_count(&auction.book))?;
    Ok(AimWeights { scale, groups, own })
}

/// A rule that a text gives.
#[derive(Drop)]
struct ReadRule {
    least: AimWeights,
    nearest: AimWeights,
    push: u64,
}

// The rule that lines give, of which the first has the scales and the push.
fn rule_of_lines(
    alloc: Global,
    auction: &Auction<'_>,
    won: &[Allocation],
    given: &[RuleLine],
) -> Result<ReadRule, Refusal>
    ensures parsed { IfOk result (λ r. rule_of (held auction.now) won.now given.now
        ≡ Ok (rule_held auction.now.groups won.now r)) }
    ensures least { IfOk result (λ r. length r.least.groups.items ≡ length auction.now.groups) }
    ensures nearest { IfOk result (λ r. length r.nearest.groups.items
        ≡ length auction.now.groups) }
    ensures refuses { IfErr result (Refuses (rule_of (held auction.now) won.now given.now)) }
{
    let Some(RuleLine::Scaled(scales)) = given.first().copied() else {
        return Err(Refusal::Rule(PriceFault::NoScales));
    };
    let least = weights_for(alloc, auction, given, Aim::Least, scales.least)?;
    let nearest = weights_for(alloc, auction, given, Aim::Nearest, scales.nearest)?;
    Ok(ReadRule {
        least,
        nearest,
        push: scales.push,
    })
}

// Reads the rule of a text.
fn read_rule(
    alloc: Global,
    auction: &Auction<'_>,
    won: &[Allocation],
    first: &Allocation,
    text: &[u8],
) -> Result<ReadRule, Refusal>
    ensures parsed { IfOk result (λ r. parsed_rule (held auction.now) won.now first.now text.now
        ≡ Ok (rule_held auction.now.groups won.now r)) }
    ensures least { IfOk result (λ r. length r.least.groups.items ≡ length auction.now.groups) }
    ensures nearest { IfOk result (λ r. length r.nearest.groups.items
        ≡ length auction.now.groups) }
    ensures refuses { IfErr result (Refuses (parsed_rule (held auction.now) won.now first.now
        text.now)) }
{
    let known = Known::new(
        auction.book.rules(),
        first.choices(),
        auction.groups.count(),
    );
    let given = given_rule(alloc, text, &known)?;
    rule_of_lines(alloc, auction, won, given.as_slice())
}

// The refusal of a rule if what a winner costs alone isn't known.
fn alone_refusal(alloc: Global, book: &ClosedBook, fault: AloneFault) -> Refusal
    ensures { (result ≡ Refusal.OutOfMemory) ⊎ (alone_refused (sale_of book.now) fault ≡ result) }
{
    let AloneFault::NotListed(bidder) = fault else {
        return Refusal::OutOfMemory;
    };
    match Name::copied(alloc, name_of(book, bidder)) {
        Ok(bidder) => Refusal::NoGroupAlone { bidder },
        Err(_) => Refusal::OutOfMemory,
    }
}

// What each bidder costs alone, by the allocations of the groups.
fn known_alone(
    alloc: Global,
    auction: &Auction<'_>,
    won: &[Allocation],
    first: &Allocation,
) -> Result<Vec<u64>, Refusal>
    requires best { IsGreatest (lots_in auction.now.book.rules) (book_of auction.now.book)
        (λ b. false) first.now }
    requires without { AllZip (λ group a. IsGreatest (lots_in auction.now.book.rules)
        (book_of auction.now.book) (has group) a) auction.now.groups won.now }
    ensures parsed { IfOk result (λ costs. of_prices.known_alone (held auction.now) won.now
        first.now ≡ Ok costs.items) }
    ensures alone { IfOk result (λ costs. AreCostsAlone (reserves_in auction.now.book.rules)
        (lots_in auction.now.book.rules) (book_of auction.now.book) first.now
        (price_in costs.items)) }
    ensures refuses { IfErr result (Refuses (of_prices.known_alone (held auction.now) won.now
        first.now)) }
{
    let listed = Listed {
        groups: &auction.groups,
        won,
    };
    match costs_alone(alloc, &auction.book, first, &listed) {
        Ok(costs) => Ok(costs),
        Err(fault) => Err(alone_refusal(alloc, &auction.book, fault)),
    }
}

// Checks that a text is a certificate that the prices cover every group.
fn check_covered(
    alloc: Global,
    auction: &Auction<'_>,
    compiler: &Compiler<'_, '_>,
    first: &Allocation,
    p: &InParts,
    text: &[u8],
) -> Result<(), Refusal>
    requires compiler { compiler.now ≡ compiling auction.now.book auction.now.groups }
    requires empty { starts_empty auction.now.groups ≡ true }
    requires feasible { IsFeasible (lots_in auction.now.book.rules) (book_of auction.now.book)
        (λ b. false) first.now }
    requires some { 1 ≤ p.now.parts }
    requires few { p.now.parts ≤ MOST_PARTS }
    requires prices { ArePrices (book_of auction.now.book) first.now p.now.parts
        (price_in p.now.prices.items) }
    requires reserves { AreAtLeastReserves (reserves_in auction.now.book.rules)
        (book_of auction.now.book) first.now p.now.parts (price_in p.now.prices.items) }
    ensures parsed { OnOk result (covered (held auction.now) first.now (in_parts_held p.now)
        text.now ≡ Ok tt) }
    ensures suffice { OnOk result (Suffice (reserves_in auction.now.book.rules)
        (lots_in auction.now.book.rules) (book_of auction.now.book) first.now p.now.parts
        (price_in p.now.prices.items)) }
    ensures refuses { IfErr result (λ r. Refuses (covered (held auction.now) first.now
        (in_parts_held p.now) text.now) r
        ⊎ IsTooWideCover (held auction.now) first.now (in_parts_held p.now) text.now r) }
{
    auction.groups.within_limits();
    let program = compiler.program_without(alloc, auction.groups.group(1))?;
    let payments = Payments {
        book: &auction.book,
        first,
        parts: p.parts,
        prices: p.prices.as_slice(),
    };
    match check_cover(alloc, text, program, &payments) {
        Ok(()) => Ok(()),
        Err(fault) => Err(Refusal::Cover(fault)),
    }
}

// The weights for an aim, as they are judged.
fn judged<'w>(weights: &'w AimWeights) -> Weights<'w>
    ensures scale { result.scale ≡ weights.now.scale }
    ensures groups { result.groups.now ≡ weights.now.groups.items }
    ensures own { result.own.now ≡ weights.now.own.items }
{
    Weights {
        scale: weights.scale,
        groups: weights.groups.as_slice(),
        own: weights.own.as_slice(),
    }
}

// The refusal of a rule that doesn't show what it is to.
fn unshown_refusal(fault: RuleFault) -> Refusal
    ensures { result ≡ unshown_refused fault }
{
    Refusal::Rule(match fault {
        RuleFault::NotLeast => PriceFault::NotLeast,
        RuleFault::NotNearest => PriceFault::NotNearest,
    })
}

// Checks that a rule shows that prices that suffice are the prices of the rule.
fn check_rule(
    auction: &Auction<'_>,
    won: &[Allocation],
    first: &Allocation,
    p: &InParts,
    costs: &[u64],
    read: &ReadRule,
) -> Result<(), Refusal>
    requires best { IsGreatest (lots_in auction.now.book.rules) (book_of auction.now.book)
        (λ b. false) first.now }
    requires without { AllZip (λ group a. IsGreatest (lots_in auction.now.book.rules)
        (book_of auction.now.book) (has group) a) auction.now.groups won.now }
    requires few { p.now.parts ≤ MOST_PARTS }
    requires prices { ArePrices (book_of auction.now.book) first.now p.now.parts
        (price_in p.now.prices.items) }
    requires suffice { Suffice (reserves_in auction.now.book.rules)
        (lots_in auction.now.book.rules) (book_of auction.now.book) first.now p.now.parts
        (price_in p.now.prices.items) }
    requires alone { AreCostsAlone (reserves_in auction.now.book.rules)
        (lots_in auction.now.book.rules) (book_of auction.now.book) first.now
        (price_in costs.now) }
    requires least { length read.now.least.groups.items ≡ length auction.now.groups }
    requires nearest { length read.now.nearest.groups.items ≡ length auction.now.groups }
    ensures shown { OnOk result (fault_of_rule (held auction.now) first.now
        (in_parts_held p.now) costs.now (rule_held auction.now.groups won.now read.now) ≡ None) }
    ensures refused { IfErr result (λ r. fault_of_rule (held auction.now) first.now
        (in_parts_held p.now) costs.now (rule_held auction.now.groups won.now read.now)
        ≡ Some r) }
{
    let payments = Payments {
        book: &auction.book,
        first,
        parts: p.parts,
        prices: p.prices.as_slice(),
    };
    let listed = Listed {
        groups: &auction.groups,
        won,
    };
    let rule = Rule {
        least: judged(&read.least),
        nearest: judged(&read.nearest),
        push: read.push,
    };
    match show_the_prices(&payments, &listed, costs, &rule) {
        Ok(()) => Ok(()),
        Err(fault) => Err(unshown_refusal(fault)),
    }
}

// Checks that the rule of a text shows that prices that suffice are the prices of the rule.
fn shown_by(
    alloc: Global,
    auction: &Auction<'_>,
    won: &[Allocation],
    first: &Allocation,
    p: &InParts,
    text: &[u8],
) -> Result<bool, Refusal>
    requires best { IsGreatest (lots_in auction.now.book.rules) (book_of auction.now.book)
        (λ b. false) first.now }
    requires without { AllZip (λ group a. IsGreatest (lots_in auction.now.book.rules)
        (book_of auction.now.book) (has group) a) auction.now.groups won.now }
    requires few { p.now.parts ≤ MOST_PARTS }
    requires prices { ArePrices (book_of auction.now.book) first.now p.now.parts
        (price_in p.now.prices.items) }
    requires suffice { Suffice (reserves_in auction.now.book.rules)
        (lots_in auction.now.book.rules) (book_of auction.now.book) first.now p.now.parts
        (price_in p.now.prices.items) }
    ensures parsed { IfOk result (λ by_rule. parsed_by_rule (held auction.now) won.now first.now
        (in_parts_held p.now) (text.now ∷ []) ≡ Ok by_rule) }
    ensures refuses { IfErr result (Refuses (parsed_by_rule (held auction.now) won.now first.now
        (in_parts_held p.now) (text.now ∷ []))) }
{
    let read = read_rule(alloc, auction, won, first, text)?;
    let costs = known_alone(alloc, auction, won, first)?;
    check_rule(auction, won, first, p, costs.as_slice(), &read)?;
    Ok(true)
}

// Whether there is a rule, and it shows that prices that suffice are the prices of the rule.
fn is_by_rule(
    alloc: Global,
    auction: &Auction<'_>,
    won: &[Allocation],
    first: &Allocation,
    p: &InParts,
) -> Result<bool, Refusal>
    requires best { IsGreatest (lots_in auction.now.book.rules) (book_of auction.now.book)
        (λ b. false) first.now }
    requires without { AllZip (λ group a. IsGreatest (lots_in auction.now.book.rules)
        (book_of auction.now.book) (has group) a) auction.now.groups won.now }
    requires few { p.now.parts ≤ MOST_PARTS }
    requires prices { ArePrices (book_of auction.now.book) first.now p.now.parts
        (price_in p.now.prices.items) }
    requires suffice { Suffice (reserves_in auction.now.book.rules)
        (lots_in auction.now.book.rules) (book_of auction.now.book) first.now p.now.parts
        (price_in p.now.prices.items) }
    ensures parsed { IfOk result (λ by_rule. parsed_by_rule (held auction.now) won.now first.now
        (in_parts_held p.now) (held auction.now).rule_texts ≡ Ok by_rule) }
    ensures refuses { IfErr result (Refuses (parsed_by_rule (held auction.now) won.now first.now
        (in_parts_held p.now) (held auction.now).rule_texts)) }
{
    let texts = auction.rule_texts.as_slice();
    if texts.is_empty() {
        return Ok(false);
    }
    shown_by(alloc, auction, won, first, p, text_at(texts, 0))
}

// The prices of the one text, which its cover shows to cover every group.
fn priced(
    alloc: Global,
    auction: &Auction<'_>,
    compiler: &Compiler<'_, '_>,
    won: &[Allocation],
    first: &Allocation,
) -> Result<Pricing, Refusal>
    requires compiler { compiler.now ≡ compiling auction.now.book auction.now.groups }
    requires empty { starts_empty auction.now.groups ≡ true }
    requires best { IsGreatest (lots_in auction.now.book.rules) (book_of auction.now.book)
        (λ b. false) first.now }
    requires without { AllZip (λ group a. IsGreatest (lots_in auction.now.book.rules)
        (book_of auction.now.book) (has group) a) auction.now.groups won.now }
    requires some { 0 < length auction.now.prices.items }
    requires cover { 0 < length auction.now.covers.items }
    ensures parsed { IfOk result (λ p. of_prices.priced (held auction.now) won.now first.now
        (slice_index_or (held auction.now).prices 0 [])
        (slice_index_or (held auction.now).covers 0 []) ≡ Ok p) }
    ensures refuses { IfErr result (λ r. Refuses (of_prices.priced (held auction.now) won.now
        first.now (slice_index_or (held auction.now).prices 0 [])
        (slice_index_or (held auction.now).covers 0 [])) r
        ⊎ IsTooWidePriced (held auction.now) first.now r) }
{
    auction.book.within_limits();
    let text = text_at(auction.prices.as_slice(), 0);
    let p = prices_of_text(alloc, auction, first, text)?;
    let cover = text_at(auction.covers.as_slice(), 0);
    check_covered(alloc, auction, compiler, first, &p, cover)?;
    let by_rule = is_by_rule(alloc, auction, won, first, &p)?;
    let InParts { parts, prices } = p;
    Ok(Pricing::new(parts, prices, by_rule))
}
// Checks that there are as many texts of prices, of covers and of rules as there may be.
fn check_pricing_counts(auction: &Auction<'_>) -> Result<(), Refusal>
    ensures fine { OnOk result (first_failed (pricing_counts (held auction.now)) ≡ None) }
    ensures refused { IfErr result (λ r. first_failed (pricing_counts (held auction.now))
        ≡ Some r) }
{
    if auction.prices.len() > 1 {
        return Err(Refusal::PartCount(PartKind::Prices));
    }
    if auction.covers.len() != auction.prices.len() {
        return Err(Refusal::PartCount(PartKind::Cover));
    }
    if auction.rule_texts.len() > auction.prices.len() {
        return Err(Refusal::PartCount(PartKind::Rule));
    }
    Ok(())
}

/// What the winners pay with nobody left out, by the auction's compiler, if there are prices: the cover shows that these prices
/// cover every group, and the rule, if there is one, that they are the prices of the rule. The allocations are of greatest total.
pub fn pricing_of(
    alloc: Global,
    auction: &Auction<'_>,
    compiler: &Compiler<'_, '_>,
    won: &[Allocation],
) -> Result<Option<Pricing>, Refusal>
    requires compiler { compiler.now ≡ compiling auction.now.book auction.now.groups }
    requires won { winners_of_groups (held auction.now) ≡ Ok won.now }
    requires without { AllZip (λ group a. IsGreatest (lots_in auction.now.book.rules)
        (book_of auction.now.book) (has group) a) auction.now.groups won.now }
    ensures parsed { IfOk result (λ pricing. parsed_pricing (held auction.now) won.now ≡ Ok pricing) }
    ensures refuses { IfErr result (λ r. Refuses (parsed_pricing (held auction.now) won.now) r
        ⊎ IsTooWidePricing (held auction.now) won.now r) }
{
    check_pricing_counts(auction)?;
    if auction.prices.is_empty() {
        return Ok(None);
    }
    match priced(alloc, auction, compiler, won, &won[0]) {
        Ok(pricing) => Ok(Some(pricing)),
        Err(refusal) => Err(refusal),
    }
}
