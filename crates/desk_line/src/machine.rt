//! What answers calls.

ghost use Rattle.std.specs.Prelude.{◌≡◌, ◌+◌, ◌++◌, [], List, ℕ, length, take, OnOk};
ghost use Rattle.desk_line.specs.Fronts.{IsFrontWithin, Follows};
ghost use Rattle.desk_line.specs.declared.machine.Front.{Front};
ghost use Rattle.desk_line.specs.declared.machine.Front.TheVariants.{Whole, Short};
ghost use Rattle.desk_line.specs.declared.machine.Mark.{Mark};

use std::alloc::{AllocError, Global};

/// What stands at the front of some bytes: a call of so many bytes, the beginning of one, or none.
#[derive(Clone, Copy, Debug, PartialEq, Eq)]
pub enum Front {
    Whole { len: usize },
    Short,
    Wrong,
}

/// What a machine goes back to: how many entries there are, how many bytes the journal has and how many of these were on the disk,
/// and the chain's end.
#[derive(Clone, Copy)]
pub struct Mark {
    pub entries: u64,
    pub extent: u64,
    pub durable: u64,
    pub chain: [u8; 64],
}

/// What answers calls, and has an entry for the journal of each that it takes.
pub trait Machine {
    /// What stands at the front of bytes.
    ghost fronts: { Self → List ℕ → Front → Type 0 };

    /// How a call may be answered: a state, the call, what it is told, its entry (without bytes where it isn't taken), and the
    /// state after it.
    ghost answers: { Self → List ℕ → List ℕ → List ℕ → Self → Type 0 };

    /// The state in which all that is in the journal is on the disk.
    ghost begun: { Self → Self };

    /// How many bytes the journal has whose entries this state knows.
    ghost extent: { Self → ℕ };

    /// What is kept of a state to go back to it.
    ghost mark_of: { Self → Mark };

    fn front(&self, bytes: &[u8]) -> Front
        ensures { fronts self.now bytes.now result };

    /// Answers a call: adds what it is told, and its entry.
    fn step(
        &mut self,
        alloc: Global,
        call: &[u8],
        told: &mut Vec<u8>,
        kept: &mut Vec<u8>,
    ) -> Result<(), AllocError>
        requires { fronts self.old call.now (Whole (length call.now)) }
        ensures { OnOk result ((reply entry : List ℕ) × answers self.old call.now reply entry self.new
            × (told.new.items ≡ told.old.items ++ reply) × (kept.new.items ≡ kept.old.items ++ entry)) };

    /// Takes all that is in the journal as being on the disk.
    fn begin(&mut self)
        ensures { self.new ≡ begun self.old };

    fn mark(&self) -> Mark
        ensures { result ≡ mark_of self.now };

    /// Goes back to the state that a mark was taken of, some calls ago.
    fn rewind(&mut self, alloc: Global, mark: &Mark) -> Result<(), AllocError>
        ensures { OnOk result ((m : Self) → Follows fronts answers m self.old → mark.now ≡ mark_of m
            → self.new ≡ m) };

    /// A whole call has bytes, and no more than there are.
    ghost front_within: { (m : Self) (bytes : List ℕ) (f : Front) → fronts m bytes f → IsFrontWithin bytes f };

    /// A whole call is one whatever follows it.
    ghost front_whole: { (m : Self) (bytes more : List ℕ) (n : ℕ)
        → fronts m bytes (Whole n) → fronts m (take n bytes ++ more) (Whole n) };

    /// No bytes are the beginning of a call.
    ghost front_nothing: { (m : Self) → fronts m [] Short };

    /// An answer doesn't change what stands at the front of bytes.
    ghost front_before: { (m n : Self) (call reply entry : List ℕ) → answers m call reply entry n
        → (bytes : List ℕ) (f : Front) → fronts n bytes f → fronts m bytes f };

    /// A state knows the entries that it made.
    ghost extent_after: { (m n : Self) (call reply entry : List ℕ) → answers m call reply entry n
        → extent n ≡ extent m + length entry };

    ghost extent_begun: { (m : Self) → extent (begun m) ≡ extent m };
}
