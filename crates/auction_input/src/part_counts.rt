//! What a command wants of the groups, and of the numbers of parts beside them, once the groups are read.

ghost use Rattle.std.specs.Prelude.{◌≡◌, Err, IfErr, None, Ok, OnOk, Some, false, true};
ghost use Rattle.auction_input.specs.Parts.{parts_held};
ghost use Rattle.auction_input.specs.Settled.{held};
ghost use Rattle.auction_input.specs.PartCounts.{numbers_in, numbers_of, proof_wants, refused_unless, solution_wants, unmet_refusal, wanted};
ghost use Rattle.auction_terms.specs.FirstFault.{first_failed};

use crate::auction::Auction;
use crate::part_kind::PartKind;
use crate::parts::{Part, count_of};
use crate::refusal::Refusal;
use crate::request::Target;
use auction_terms::{Groups, MOST_TIES};

/// Whether group 1 is empty, how many groups there are, and how many parts of each kind beside rules, forms and groups.
#[derive(Clone, Copy)]
pub struct Numbers {
    pub starts_empty: bool,
    pub groups: usize,
    pub solutions: usize,
    pub certificates: usize,
    pub uniques: usize,
    pub ties: usize,
    pub prices: usize,
    pub covers: usize,
    pub rule_texts: usize,
}

/// What a command wants and an input hasn't got.
#[derive(Clone, Copy)]
pub enum Unmet {
    FirstGroupNotEmpty,
    /// There are `count` parts of a kind, and another number is wanted: of solutions and certificates by how many groups there are, of
    /// covers and rules by how many prices; of the others by how many there may be.
    Number {
        kind: PartKind,
        count: usize,
        by: usize,
    },
}

impl Unmet {
    /// The refusal of an input of which it is the first fault.
    pub fn refusal(self) -> Refusal
        ensures { result ≡ unmet_refusal self }
    {
        match self {
            Unmet::FirstGroupNotEmpty => Refusal::FirstGroupNotEmpty,
            Unmet::Number { kind, .. } => Refusal::PartCount(kind),
        }
    }
}

impl Numbers {
    /// Of parts, whose groups are these.
    pub fn of_parts(parts: &[Part<'_>], groups: &Groups) -> Numbers
        ensures { result ≡ numbers_in (parts_held parts.now) groups.now }
    {
        Numbers {
            starts_empty: groups.starts_empty(),
            groups: groups.count(),
            solutions: count_of(parts, PartKind::Solution),
            certificates: count_of(parts, PartKind::Certificate),
            uniques: count_of(parts, PartKind::Unique),
            ties: count_of(parts, PartKind::Tie),
            prices: count_of(parts, PartKind::Prices),
            covers: count_of(parts, PartKind::Cover),
            rule_texts: count_of(parts, PartKind::Rule),
        }
    }

    /// Of an auction.
    pub fn of_auction(auction: &Auction<'_>) -> Numbers
        ensures { result ≡ numbers_of (held auction.now) }
    {
        Numbers {
            starts_empty: auction.groups.starts_empty(),
            groups: auction.groups.count(),
            solutions: auction.solutions.len(),
            certificates: auction.certificates.len(),
            uniques: auction.uniques.len(),
            ties: auction.ties.len(),
            prices: auction.prices.len(),
            covers: auction.covers.len(),
            rule_texts: auction.rule_texts.len(),
        }
    }
}

/// What a report wants: each test, and what is unmet where it fails.
pub fn solution_wants(numbers: &Numbers) -> [(bool, Unmet); 2]
    ensures { result ≡ solution_wants numbers.now }
{
    [
        (numbers.starts_empty, Unmet::FirstGroupNotEmpty),
        number_wanted(
            numbers.solutions == numbers.groups,
            PartKind::Solution,
            numbers.solutions,
            numbers.groups,
        ),
    ]
}

// A test of a number of parts.
fn number_wanted(met: bool, kind: PartKind, count: usize, by: usize) -> (bool, Unmet)
    ensures { result ≡ (met, Unmet.Number kind count by) }
{
    (met, Unmet::Number { kind, count, by })
}

/// What is wanted of what shows a report to be true.
pub fn proof_wants(numbers: &Numbers) -> [(bool, Unmet); 6]
    ensures { result ≡ proof_wants numbers.now }
{
    let Numbers {
        groups,
        certificates,
        uniques,
        ties,
        prices,
        covers,
        rule_texts,
        ..
    } = *numbers;
    let most_ties = usize::from(MOST_TIES);
    [
        number_wanted(
            certificates == groups,
            PartKind::Certificate,
            certificates,
            groups,
        ),
        number_wanted(uniques <= 1, PartKind::Unique, uniques, 1),
        number_wanted(ties <= most_ties, PartKind::Tie, ties, most_ties),
        number_wanted(prices <= 1, PartKind::Prices, prices, 1),
        number_wanted(covers == prices, PartKind::Cover, covers, prices),
        number_wanted(rule_texts <= prices, PartKind::Rule, rule_texts, prices),
    ]
}

fn check_test(test: (bool, Unmet)) -> Result<(), Refusal>
    ensures met { OnOk result (test.0 ≡ true) }
    ensures unmet { IfErr result (λ r. (test.0 ≡ false) × (r ≡ unmet_refusal test.1)) }
{
    let (met, unmet) = test;
    if met { Ok(()) } else { Err(unmet.refusal()) }
}

// Checks that no test fails.
fn check_each(tests: &[(bool, Unmet)]) -> Result<(), Refusal>
    ensures met { OnOk result (first_failed (refused_unless tests.now) ≡ None) }
    ensures unmet { IfErr result (λ r. first_failed (refused_unless tests.now) ≡ Some r) }
{
    for test in tests {
        check_test(*test)?;
    }
    Ok(())
}

/// Checks that an auction has what a command wants.
pub fn check_wanted(command: Option<Target>, auction: &Auction<'_>) -> Result<(), Refusal>
    ensures met { OnOk result (wanted command (held auction.now) ≡ Ok (held auction.now)) }
    ensures unmet { IfErr result (λ r. wanted command (held auction.now) ≡ Err r) }
{
    let numbers = Numbers::of_auction(auction);
    match command {
        Some(Target::Report) => check_each(&solution_wants(&numbers)),
        Some(Target::Verify) => {
            check_each(&solution_wants(&numbers))?;
            check_each(&proof_wants(&numbers))
        }
        Some(Target::Text | Target::Compile | Target::Map) | None => Ok(()),
    }
}
