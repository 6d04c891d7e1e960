//! The lowest number of which a fault is known, so that workers begin nothing that comes after it.
//!
//! It is a hint, and no answer rests on it: whoever goes over what workers made, in order, makes what is missing, and comes to
//! the fault first.

use std::sync::atomic::{AtomicUsize, Ordering};

/// The lowest number of which a fault is known, shared by workers.
#[derive(Drop)]
pub struct Lowest {
    number: AtomicUsize,
}

impl Lowest {
    /// No fault is known.
    pub fn none() -> Lowest {
        Lowest {
            number: AtomicUsize::new(usize::MAX),
        }
    }

    /// Whether a fault of a lower number is known.
    pub fn is_below(&self, number: usize) -> bool {
        self.number.load(Ordering::SeqCst) < number
    }

    /// Tells a fault of a number.
    pub fn note(&self, number: usize) {
        self.number.fetch_min(number, Ordering::SeqCst);
    }
}
