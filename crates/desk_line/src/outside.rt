//! What is outside: the disk and the callers.

ghost use Rattle.std.specs.Prelude.{◌≡◌, ◌+◌, List, Option, ℕ, length, IfErr, OnOk};
ghost use Rattle.std.specs.Io.KnownBytes.{append_known};
ghost use Rattle.desk_line.specs.declared.outside.Unkept.TheVariants.{Full};

use crate::machine::Machine;

/// Why bytes aren't in the journal.
#[derive(Clone, Copy, Debug, PartialEq, Eq)]
pub enum Unkept {
    /// A write failed; the journal is as it was.
    Full,
    /// It isn't known what the journal has.
    Unknown,
}

/// What was told may not have arrived.
#[derive(Clone, Copy, Debug, PartialEq, Eq)]
pub struct Untold;

/// The disk and the callers.
pub trait Outside {
    /// The bytes of the journal that are on the disk, whatever happens next, where they are known.
    ghost durable: { Self → Option (List ℕ) };

    /// How many bytes these are.
    ghost extent: { Self → ℕ };

    /// What callers may have been told, where it is known.
    ghost told: { Self → Option (List ℕ) };

    /// How many writes have failed.
    ghost failures: { Self → ℕ };

    /// Has bytes on the disk, behind the others.
    fn keep(&mut self, bytes: &[u8]) -> Result<(), Unkept>
        ensures kept { OnOk result (durable self.new ≡ append_known (durable self.old) bytes.now) }
        ensures grown { OnOk result (extent self.new ≡ extent self.old + length bytes.now) }
        ensures unkept { IfErr result (λ e. e ≡ Full → (durable self.new ≡ durable self.old) × (extent self.new ≡ extent self.old)) }
        ensures full { IfErr result (λ e. e ≡ Full → failures self.new ≡ failures self.old + 1) }
        ensures failures { OnOk result (failures self.new ≡ failures self.old) }
        ensures told { told self.new ≡ told self.old };

    /// Tells what a machine answered: all entries that it knows are on the disk.
    fn tell<M: Machine>(&mut self, machine: &M, replies: &[u8]) -> Result<(), Untold>
        requires { M.extent machine.now ≡ extent self.old }
        ensures told { OnOk result (told self.new ≡ append_known (told self.old) replies.now) }
        ensures extent { extent self.new ≡ extent self.old }
        ensures failures { failures self.new ≡ failures self.old }
        ensures durable { durable self.new ≡ durable self.old };
}
