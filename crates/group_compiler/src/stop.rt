//! Where a worker stops with the number of a group before it makes anything of the number: at a gate, or nowhere.

ghost use Rattle.std.specs.Prelude.{ℕ, ⊤};

use crate::gate::Gate;
use std::sync::Wait;

/// Where workers stop, by what they run on. Only a stop at a gate waits, and it needs leave to.
pub trait Stop<R> {
    // Holds of a group that has come past.
    ghost is_past: { Self → ℕ → Type 0 } = { λ _ _. ⊤ };

    /// Lets a group past, by its number, from 1.
    fn stop(&self, rt: &R, group: usize)
        ensures { is_past self.now group };
}

/// At a gate.
#[derive(Drop)]
pub struct AtGate<'g, G> {
    pub gate: &'g G,
}

impl<R: Wait, G: Gate> Stop<R> for AtGate<'_, G> {
    ghost is_past = { λ s n. G.is_past s.gate.now n };

    fn stop(&self, rt: &R, group: usize) {
        self.gate.arrive(rt, group);
    }
}

/// Nowhere.
#[derive(Clone, Copy)]
pub struct Nowhere;

impl<R> Stop<R> for Nowhere {
    fn stop(&self, _rt: &R, _group: usize) {}
}
