//! Names in the order in which they came, found by hashes that nobody can choose beforehand.

ghost use Rattle.std.specs.Prelude.{◌≡◌, ◌<◌, ◌∷◌, [], length, position, slice_get, is_some, false, bytes_eq, IfSome, fold, map};
ghost use Rattle.std.specs.Hash.DefaultHasher as sip;
ghost use Rattle.std.specs.List.{list_any};
ghost use Rattle.std.specs.Option.{option_map_or};
ghost use Rattle.program_rows.specs.ProgramNames.{all_names, seed, started};

use crate::program::Program;
use indexmap::IndexSet;
use std::cell::Cell;
use std::hash::{BuildHasher, DefaultHasher, FoldHasher, Hasher};

/// Makes the hashers of a set of names. All of them start from one seed.
#[derive(Clone, Copy)]
pub struct Seeded {
    pub start: FoldHasher,
}

/// Names, each once, in the order in which they came.
pub type NameSet<'t> = IndexSet<&'t [u8], Seeded>;

/// Names are hashed by a quick hasher, byte by byte. A thorough one, which can't be led to a value that was chosen before,
/// gives the value that it starts from.
fn started(hasher: DefaultHasher) -> Seeded
    ensures { result.start ≡ started hasher }
{
    let mut start = FoldHasher::default();
    start.write_u64(hasher.finish());
    Seeded { start }
}

fn with_column_names(hasher: DefaultHasher, program: &Program) -> DefaultHasher
    ensures { result ≡ fold sip.write hasher (map (λ c. c.name) program.now.columns) }
{
    let mut hasher = hasher;
    for column in 0..program.column_count() {
        hasher.write(program.column_name(column));
    }
    hasher
}

fn with_row_names(hasher: DefaultHasher, program: &Program) -> DefaultHasher
    ensures { result ≡ fold sip.write hasher (map (λ r. r.name) program.now.rows) }
{
    let mut hasher = hasher;
    for row in 0..program.row_count() {
        hasher.write(program.row_name(row));
    }
    hasher
}

impl Seeded {
    /// The seed of a text. Names that collide can't be put into a text without changing the seed by which they are hashed.
    pub fn by_text(text: &[u8]) -> Seeded
        ensures { result.start ≡ seed (text.now ∷ []) }
    {
        let mut hasher = DefaultHasher::new();
        hasher.write(text);
        started(hasher)
    }

    /// The seed of all names of a program.
    pub fn by_names(program: &Program) -> Seeded
        ensures { result.start ≡ seed (all_names program.now) }
    {
        let columns = with_column_names(DefaultHasher::new(), program);
        started(with_row_names(columns, program))
    }
}

impl BuildHasher for Seeded {
    type Hasher = FoldHasher;

    ghost build_hasher = { λ s. s.start };

    fn build_hasher(&self) -> FoldHasher {
        self.start
    }
}

#[inline(always)]
fn is_at(names: &[&[u8]], place: usize, name: &[u8]) -> bool
    ensures { result ≡ option_map_or (λ other. bytes_eq name.now other.now)
        (slice_get names.now place) false }
{
    match names.get(place) {
        Some(other) => name == *other,
        None => false,
    }
}

// The place of a name by its hash, apart from the places that are tried first.
#[inline(never)]
fn place_by_hash(names: &NameSet, name: &[u8]) -> Option<usize>
    ensures index { result ≡ position (λ other. bytes_eq name.now other.now) names.now.keys }
    ensures found { is_some result ≡ list_any (λ other. bytes_eq name.now other.now)
        names.now.keys }
    ensures within { IfSome result (λ place. place < length names.now.keys) }
{
    names.get_index_of(name)
}

#[inline(always)]
fn place_beside(names: &NameSet, next: usize, name: &[u8]) -> Option<usize>
    ensures index { result ≡ position (λ other. bytes_eq name.now other.now) names.now.keys }
    ensures found { is_some result ≡ list_any (λ other. bytes_eq name.now other.now)
        names.now.keys }
    ensures within { IfSome result (λ place. place < length names.now.keys) }
{
    if is_at(names.as_slice(), next, name) {
        return Some(next);
    }
    let further = next.wrapping_add(1);
    if is_at(names.as_slice(), further, name) {
        return Some(further);
    }
    let earlier = next.wrapping_sub(2);
    if is_at(names.as_slice(), earlier, name) {
        return Some(earlier);
    }
    place_by_hash(names, name)
}

/// The place of a name among the names, if it is one of them. It is looked for without a hash first: after the name that was
/// found last, at `next`; one place further, since a column names its rows in order and mostly leaves out one at a
/// time; and before it, so that names in falling order are found at once, too.
#[inline(always)]
pub fn place_of(names: &NameSet, next: &Cell<usize>, name: &[u8]) -> Option<usize>
    ensures index { result ≡ position (λ other. bytes_eq name.now other.now) names.now.keys }
    ensures found { is_some result ≡ list_any (λ other. bytes_eq name.now other.now)
        names.now.keys }
    ensures within { IfSome result (λ place. place < length names.now.keys) }
{
    let place = place_beside(names, next.get(), name)?;
    next.set(place.wrapping_add(1));
    Some(place)
}
