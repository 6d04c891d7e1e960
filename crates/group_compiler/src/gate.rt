//! Where a worker may be held before it makes anything of a group's number.

ghost use Rattle.std.specs.Prelude.{ℕ, ⊤};

use std::sync::Wait;

/// Where workers come with the numbers of groups, each number once. A worker comes with a number that it drew, and before
/// it makes what is made of that number: in `compile_all` the program of that group.
pub trait Gate {
    // Holds of a group that has come past. Only a gate that keeps an account of groups says what that means.
    ghost is_past: { Self → ℕ → Type 0 } = { λ _ _. ⊤ };

    /// Lets a group past, by its number, from 1. It may wait, so that a test can hold a worker.
    fn arrive<R: Wait>(&self, rt: &R, group: usize)
        ensures { is_past self.now group };
}

/// Holds nobody.
#[derive(Clone, Copy)]
pub struct OpenGate;

impl Gate for OpenGate {
    fn arrive<R: Wait>(&self, _rt: &R, _group: usize) {}
}
