//! What tells the faults of a form.

ghost use Rattle.std.specs.Prelude.{◌≡◌, IfOk, List, ℕ};

use std::alloc::{AllocError, Global};

/// What tells the faults of a form that is refused.
pub trait Judge {
    /// The lines that tell all faults of a text of a form under a text of rules.
    ghost faults: { Self → List ℕ → List ℕ → List ℕ };

    /// The lines that tell all faults of a text of a form under a text of rules.
    fn fault_lines(&self, alloc: Global, rules: &[u8], text: &[u8]) -> Result<Vec<u8>, AllocError>
        ensures { IfOk result (λ lines. lines.items ≡ faults self.now rules.now text.now) };
}
