//! Where text goes.

ghost use Rattle.std.specs.Prelude.{◌≡◌, ◌<◌, ◌≤◌, length, take, IfOk, OnOk, OnErr};
ghost use Rattle.std.specs.Io.KnownBytes.{Appends, Keeps};
ghost use Rattle.byte_sinks.specs.Sinks.{Outlet, one_more};

/// A put took nothing.
#[derive(Clone, Copy, Debug, PartialEq, Eq)]
pub struct SinkFailed;

/// What takes bytes.
pub trait Sink {
    /// What contracts see of it: where its bytes go, those that it has taken, and how many puts have failed.
    ghost state: { Self → Outlet };

    /// Takes bytes from the front, at least one of those that there are, or fails and takes none.
    fn put(&mut self, bytes: &[u8]) -> Result<usize, SinkFailed>
        ensures within { IfOk result (λ n. n ≤ length bytes.now) }
        ensures some { IfOk result (λ n. 0 < length bytes.now → 0 < n) }
        ensures took { IfOk result (λ n. Appends (state self.old).taken (state self.new).taken
            (take n bytes.now)) }
        ensures kept { OnErr result (Keeps (state self.old).taken (state self.new).taken) }
        ensures placed { (state self.new).place ≡ (state self.old).place }
        ensures succeeded { OnOk result ((state self.new).failures ≡ (state self.old).failures) }
        ensures failed { OnErr result ((state self.new).failures
            ≡ one_more (state self.old).failures) };
}
