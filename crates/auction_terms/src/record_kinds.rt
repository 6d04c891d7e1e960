//! The versions of the rules, the kinds of their records, and the fields of a record.

ghost use Rattle.std.specs.Prelude.{◌≡◌, ◌<◌, None, Some, true};
ghost use Rattle.csv.specs.Records.{fields_of};
ghost use Rattle.auction_terms.specs.RulesText.{field_count, record_kind, value_text, version_of, record_field};
ghost use Rattle.std.specs.Str.{bytes_eq};

use csv::ByteRecord;

/// The version of a text of rules.
#[derive(Clone, Copy, Debug, PartialEq, Eq)]
pub enum Version {
    One,
    Two,
    Three,
}

/// What a record after the header describes.
#[derive(Clone, Copy, Debug, PartialEq, Eq)]
pub enum RecordKind {
    Category,
    Bidder,
    Pool,
    Member,
}

impl Version {
    ghost use Rattle.std.specs.Prelude.{◌≡◌, ◌∷◌, [], codes, if◌then◌else◌};
    ghost use Rattle.auction_terms.specs.RulesText.{field_count, kinds_of};
    ghost use Rattle.auction_terms.specs.declared.record_kinds.RecordKind.TheVariants as kind;

    /// How many fields every record has.
    pub fn field_count(self) -> usize
        ensures { result ≡ field_count self }
    {
        match self {
            Version::One => 5,
            Version::Two | Version::Three => 6,
        }
    }

    // Whether it knows pools and members beside categories and bidders.
    fn has_pools(self) -> bool
        ensures { kinds_of self ≡ (codes "category", kind.Category)
            ∷ (codes "bidder", kind.Bidder)
            ∷ (if result then (codes "pool", kind.Pool) ∷ (codes "member", kind.Member) ∷ []
            else []) }
    {
        match self {
            Version::One | Version::Two => false,
            Version::Three => true,
        }
    }
}

/// The bytes of a field, counted from 1.
pub fn field(row: &ByteRecord, n: usize) -> &[u8]
    requires { 0 < n }
    ensures { result.now ≡ record_field n (fields_of row.now) }
{
    match row.get(n - 1) {
        Some(bytes) => bytes,
        None => b"",
    }
}

/// The version that a header gives; `None` where the record is no header.
pub fn version_of(row: &ByteRecord) -> Option<Version>
    ensures { result ≡ version_of (fields_of row.now) }
{
    if field(row, 1) != b"rules".as_slice() {
        return None;
    }
    let version = field(row, 2);
    if version == b"1".as_slice() {
        Some(Version::One)
    } else if version == b"2".as_slice() {
        Some(Version::Two)
    } else if version == b"3".as_slice() {
        Some(Version::Three)
    } else {
        None
    }
}

/// The kind of a record after the header; `None` where the version knows no such kind.
pub fn kind_of(version: Version, row: &ByteRecord) -> Option<RecordKind>
    ensures { result ≡ record_kind version (fields_of row.now) }
{
    let has_pools = version.has_pools();
    let kind = field(row, 1);
    if kind == b"category".as_slice() {
        Some(RecordKind::Category)
    } else if kind == b"bidder".as_slice() {
        Some(RecordKind::Bidder)
    } else if has_pools && kind == b"pool".as_slice() {
        Some(RecordKind::Pool)
    } else if has_pools && kind == b"member".as_slice() {
        Some(RecordKind::Member)
    } else {
        None
    }
}

// The text of the value of a category.
pub(crate) fn value_text(version: Version, row: &ByteRecord) -> &[u8]
    ensures { result.now ≡ value_text version (fields_of row.now) }
{
    match version {
        Version::One => b"0",
        Version::Two | Version::Three => field(row, 6),
    }
}
