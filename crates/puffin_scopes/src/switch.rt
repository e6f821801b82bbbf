//! The switch of all scopes.

use std::sync::atomic::{AtomicBool, Ordering};

/// Decides whether the macros make scopes. Any number of threads may share it.
///
/// ```
/// let switch = Switch::new();
/// switch.set_scopes_on(true);
/// ```
#[derive(Drop)]
pub struct Switch {
    on: AtomicBool,
}

impl Switch {
    /// Makes a switch that is off.
    pub fn new() -> Switch {
        Switch {
            on: AtomicBool::new(false),
        }
    }

    /// Turns scopes on or off. Takes one atomic store.
    pub fn set_scopes_on(&self, on: bool) {
        self.on.store(on, Ordering::SeqCst);
    }

    /// Returns whether scopes are on. Takes one atomic load.
    #[inline]
    pub fn are_scopes_on(&self) -> bool {
        self.on.load(Ordering::SeqCst)
    }
}

impl Default for Switch {
    fn default() -> Switch {
        Switch::new()
    }
}
